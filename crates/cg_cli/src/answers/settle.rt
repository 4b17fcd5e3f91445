//! The answer of `check`, and where that is unsettled what else is known.
ghost use Rattle.std.specs.Prelude.{◌≡◌, Ok, None, IfOk, IfErr, IsOk};
ghost use Rattle.cg_model.specs.Checks.{subtree_faults};
ghost use Rattle.cg_model.specs.Clauses.{first};
ghost use Rattle.cg_model.specs.Guards.{IsSubtree};
ghost use Rattle.cg_model.specs.Held.{IsContained};
ghost use Rattle.cg_model.specs.WellFormed.{IsWellFormed};
ghost use Rattle.cg_cli.specs.Settled.{IsSettled, IsSettledSo, IsSettledFault};

use cg_cgroup::path::Path;
use cg_cgroup::user::User;
use cg_check::{check, fault_of};
use cg_model::answer::Answer;
use cg_model::fault::CheckFault;
use cg_model::guard::Failed;
use cg_model::hierarchy::Hierarchy;
use cg_plans::escape::find_escape;
use cg_second::row::second_row;
use std::alloc::Global;

/// Whether a subtree is contained against a user: what `check` answers, and where it finds neither that nor an escape, contained
/// where the second row of guards holds, else a list that is planned and breaks it, else the guard that fails.
///
/// # Errors
/// Those of `check`; `NoMemory` where an allocation was refused.
pub fn settle<H: Hierarchy + Drop>(
    alloc: Global,
    tree: &H,
    user: &User,
    subtree: &Path,
) -> Result<Answer, CheckFault>
    ensures settled { IfOk result (IsSettled (H.state tree.now) user.now subtree.now) }
    ensures there { IsOk result → first (subtree_faults (H.state tree.now) subtree.now) ≡ None }
    ensures fault { IfErr result (IsSettledFault (H.state tree.now) subtree.now) }
    ensures contained { result ≡ Ok Answer.Contained → IsContained (H.state tree.now) user.now subtree.now }
{
    if let Some(fault) = fault_of(tree, subtree) {
        return Err(fault);
    }
    match check(alloc, tree, user, subtree)? {
        Answer::Contained => Ok(Answer::Contained),
        Answer::Escapes(ops) => Ok(Answer::Escapes(ops)),
        Answer::Unsettled(failed) => settled(alloc, tree, user, subtree, failed),
    }
}

/// What else is known where a guard fails and no try breaks the subtree.
fn settled<H: Hierarchy + Drop>(
    alloc: Global,
    tree: &H,
    user: &User,
    subtree: &Path,
    failed: Failed,
) -> Result<Answer, CheckFault>
    requires formed { IsWellFormed (H.state tree.now) }
    requires subtree { IsSubtree (H.state tree.now) subtree.now }
    ensures settled { IfOk result (IsSettledSo (H.state tree.now) user.now subtree.now failed) }
    ensures fault { IfErr result (λ fault. fault ≡ CheckFault.NoMemory) }
    ensures contained { result ≡ Ok Answer.Contained → IsContained (H.state tree.now) user.now subtree.now }
{
    match second_row(alloc, tree, std::slice::from_ref(user), subtree) {
        Err(_) => return Err(CheckFault::NoMemory),
        Ok(true) => return Ok(Answer::Contained),
        Ok(false) => {}
    }
    match find_escape(alloc, tree, user, subtree) {
        Err(_) => Err(CheckFault::NoMemory),
        Ok(Some(ops)) => Ok(Answer::Escapes(ops)),
        Ok(None) => Ok(Answer::Unsettled(failed)),
    }
}
