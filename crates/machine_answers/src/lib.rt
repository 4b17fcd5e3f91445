//! What the reports' status 0 says of the machine that a text tells of. The contract of each function is a law; none does anything.
#![tactic(auto)]

ghost use Rattle.std.specs.Prelude.{◌≡◌, ℕ, List, map, Ok};
ghost use Rattle.cg_cgroup.specs.Identity.{Identity};
ghost use Rattle.cg_format.specs.Readings.{Reading, IsReading};
ghost use Rattle.cg_cli.specs.Containment.{check_report};
ghost use Rattle.cg_model.specs.Listed.{Listed};
ghost use Rattle.cg_cli.specs.AllPairs.{pairs_status, all_report};
ghost use Rattle.cg_cli.specs.Audits.{audit_report};
ghost use Rattle.cg_cli.specs.Everybody.{everybody_report};
ghost use Rattle.cg_cli.specs.declared.everybody.Wanted.{Wanted};
ghost use Rattle.machine_everybody.specs.Everybody.{Everybody};
ghost use Rattle.machine_answers.specs.Contained.{of_ids, IsContainedIn, AreContainedIn, AreHeldAgainstEverybody};

/// Where the report of `check` on a text ends with status 0, the text tells of a machine in which the subtree is contained against the
/// user.
pub fn checked()
    ensures { (text : List ℕ) (tree : Reading) (uid : ℕ) (gids word : List ℕ)
        → IsReading text tree → (check_report tree uid gids word).ending ≡ Ok 0
        → IsContainedIn text (record { uid = uid; gids = gids }) word }
{}

/// Where the report of `audit` does, or that of `audit --all` lists no pair, each of the subtrees is contained there against all of the
/// users together.
pub fn audited()
    ensures first { (text : List ℕ) (tree : Reading) (given : List (ℕ × List ℕ)) (words : List (List ℕ))
        → IsReading text tree → (audit_report tree given words).ending ≡ Ok 0
        → AreContainedIn text (map of_ids given) words }
    ensures all { (text : List ℕ) (tree : Reading) (given : List (ℕ × List ℕ)) (words : List (List ℕ)) (pairs : List Listed)
        → IsReading text tree → all_report tree given words ≡ Ok pairs → pairs_status pairs ≡ 0
        → AreContainedIn text (map of_ids given) words }
{}

/// Where the report on everybody does, whichever command asks, each of the subtrees is contained there against everybody who is asked about.
pub fn audited_against_everybody()
    ensures { (text : List ℕ) (tree : Reading) (wanted : Wanted) (asked : Everybody) (words : List (List ℕ))
        → IsReading text tree → (everybody_report wanted asked tree words).ending ≡ Ok 0
        → AreHeldAgainstEverybody text asked words }
{}
