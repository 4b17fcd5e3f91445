//! What to change so that every subtree that pairs name is contained against all users named with it, as JSON.
ghost use Rattle.std.specs.Prelude.{◌≡◌, ◌≢◌, List, map, Ok, Err, None, IfOk, MatchResult};
ghost use Rattle.std.specs.List.{flat_map};
ghost use Rattle.cg_cgroup.specs.Identity.{Identity};
ghost use Rattle.cg_cgroup.specs.Paths.{Names};
ghost use Rattle.cg_model.specs.States.{State};
ghost use Rattle.cg_model.specs.Clauses.{first};
ghost use Rattle.cg_model.specs.Checks.{subtree_faults};
ghost use Rattle.cg_advice.specs.Found.{advice_parts};
ghost use Rattle.cg_format.specs.Readings.{OnText};
ghost use Rattle.cg_format.specs.TextOf.{IsTextOf};
ghost use Rattle.cg_cli.specs.Advising.{paired, AreContainedAsNamed};
ghost use Rattle.cg_cli.specs.AsJson.{parts_report, parts_asked, advice_json_report, AdvisesNamedAsJson, advise_pairs_json_report};
ghost use Rattle.cg_cli.specs.Audits.{users_read, paths_read};
ghost use Rattle.cg_cli.specs.Pairs.{pair_given};
ghost use Rattle.cg_cli.specs.Reports.{Reports};

use crate::as_json::advise::parts_said;
use crate::named_question::NamedQuestion;
use crate::pairs::{PairIds, ask_pairs, paired};
use crate::report::write_said;
use cg_advice::found::advice;
use cg_cgroup::memory::NoMemory;
use cg_cgroup::path::Path;
use cg_cgroup::user::User;
use cg_check::first_fault;
use cg_faults::fault::CliFault;
use cg_model::fault::CheckFault;
use cg_model::hierarchy::Hierarchy;
use std::alloc::Global;
use std::io::Write;

/// Writes what `advise_pairs_bytes` does, with its status, as the JSON object of that advice, which reads as it.
///
/// # Errors
/// Those of `advise_bytes`.
pub fn advise_pairs_json_bytes<W: Write>(
    alloc: Global,
    tree: &[u8],
    pairs: &[PairIds<'_>],
    out: &mut W,
) -> Result<u8, CliFault>
    ensures report { OnText tree.now (λ read. Reports (advise_pairs_json_report read (map pair_given pairs.now))
        (W.contents out.old) (W.contents out.new) result) }
    ensures contained { result ≡ Ok 0 → (st : State) (who : List Identity) (paths : List Names)
        → IsTextOf st tree.now → users_read (map (λ pair. (pair_given pair).0) pairs.now) ≡ Ok who
        → paths_read (map (λ pair. (pair_given pair).1) pairs.now) ≡ Ok paths → AreContainedAsNamed st (paired who paths) }
{
    ask_pairs(alloc, &NamedChanges, tree, pairs, out)
}

/// What to change, of users and subtrees that stand at the same place.
#[derive(Drop)]
struct NamedChanges;

impl NamedQuestion for NamedChanges {
    ghost answers = { λ _. AdvisesNamedAsJson };

    fn answer<H: Hierarchy + Drop, W: Write>(
        &self,
        alloc: Global,
        tree: &H,
        users: &[User],
        subtrees: &[Path],
        out: &mut W,
    ) -> Result<u8, CliFault> {
        let said = advised(alloc, tree, users, subtrees)?;
        write_said(out, said)
    }
}

/// What is said of the users and the subtrees of pairs, and the status.
fn advised<H: Hierarchy + Drop>(
    alloc: Global,
    tree: &H,
    users: &[User],
    subtrees: &[Path],
) -> Result<(Vec<u8>, u8), CheckFault>
    ensures said { MatchResult result
        (λ said. advice_json_report (H.state tree.now) subtrees.now (paired users.now subtrees.now)
        ≡ record { text = said.0.items; ending = Ok said.1 })
        (λ fault. fault ≢ CheckFault.NoMemory → parts_asked (H.state tree.now) subtrees.now (paired users.now subtrees.now) ≡ Err fault) }
    ensures contained { IfOk result (λ said. said.1 ≡ 0
        → AreContainedAsNamed (H.state tree.now) (paired users.now subtrees.now)) }
{
    if let Some(fault) = first_fault(tree, subtrees) {
        return Err(fault);
    }
    match advice_said(alloc, tree, users, subtrees) {
        Err(NoMemory) => Err(CheckFault::NoMemory),
        Ok(said) => Ok(said),
    }
}

/// The same of subtrees without a fault.
fn advice_said<H: Hierarchy>(
    alloc: Global,
    tree: &H,
    users: &[User],
    subtrees: &[Path],
) -> Result<(Vec<u8>, u8), NoMemory>
    requires { first (flat_map (subtree_faults (H.state tree.now)) subtrees.now) ≡ None }
    ensures { IfOk result (λ said. parts_report (advice_parts (H.state tree.now) (paired users.now subtrees.now))
        ≡ record { text = said.0.items; ending = Ok said.1 }) }
{
    let pairs = paired(alloc, users, subtrees)?;
    let parts = advice(alloc, tree, pairs.as_slice())?;
    parts_said(alloc, parts)
}
