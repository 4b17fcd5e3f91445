//! Laws of the lines, over the definitions alone. The contract of each function is the law; none does anything.
ghost use Rattle.std.specs.Prelude.{◌≡◌, List};
ghost use Rattle.cg_cgroup.specs.Paths.{Names};
ghost use Rattle.cg_cgroup.specs.Identity.{Identity};
ghost use Rattle.cg_model.specs.States.{State};
ghost use Rattle.cg_model.specs.WellFormed.{IsWellFormed};
ghost use Rattle.cg_model.specs.Guards.{IsSubtree};
ghost use Rattle.cg_model.specs.declared.operation.Op.{Op};
ghost use Rattle.cg_model.specs.Answers.{answer};
ghost use Rattle.cg_model.specs.declared.answer.Answer.TheVariants.{Escapes};
ghost use Rattle.cg_lines.specs.OperationLines.{HaveLines};
ghost use Rattle.cg_escapes.specs.EscapeLines.{IsNamed, IsWorded};
ghost use Rattle.std.specs.Prelude.{◌≡◌, ℕ, List, Ok};
ghost use Rattle.cg_format.specs.Readings.{Reading, IsReading, vocabulary_in};
ghost use Rattle.cg_cgroup.specs.declared.files.Vocabulary.{Vocabulary};
ghost use Rattle.cg_cli.specs.Containment.{check_report};
ghost use Rattle.cg_escapes.specs.EscapeReplays.{IsReplayed};

/// Each operation of an escape has a line that isn't too long to be read, and there are fewer than 65536 of them, where lines name
/// each controller that the root has and each entry that the user reaches.
pub fn escapes_have_lines()
    ensures { (vocabulary : Vocabulary) (st : State) (user : Identity) (subtree : Names) (ops : List Op)
        → IsWellFormed st → IsNamed st → IsWorded vocabulary st user → IsSubtree st subtree → answer st user subtree ≡ Escapes ops
        → HaveLines vocabulary ops }
{}

/// The status of a check is 1 where its user escapes. Then its lines after `escapes` are those of operations, each short
/// enough and few enough to be replayed, and a replay of them with the same tree, user and subtree ends with a `broken`
/// line and status 1.
pub fn escapes_are_replayed()
    ensures { (text : List ℕ) (tree : Reading) (uid : ℕ) (gids : List ℕ) (subtree : List ℕ)
        → IsReading text tree → (check_report tree uid gids subtree).ending ≡ Ok 1
        → (ops : List Op) × IsReplayed (vocabulary_in text) tree uid gids subtree ops }
{}
