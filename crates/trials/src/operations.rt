//! Operations on a tree: which refusal each meets, what each changes, and steps of a replay.
use crate::begin::Stopped;
use crate::lent::reads_alike;
use crate::said::{answer_said, text_said};
use crate::trial::{Ended, Trial};
use cg_cgroup::files::Vocabulary;
use cg_cgroup::path::Path;
use cg_cgroup::user::User;
use cg_lines::lines::read_op_in;
use cg_model::fault::CheckFault;
use cg_model::hierarchy::Hierarchy;
use cg_model::operation::Op;
use cg_model::outcome::Outcome;
use cg_ops::{apply, refusal};
use cg_runs::replay::Replay;
use std::alloc::Global;

/// The operation of a line, of whatever controllers.
pub fn operation(alloc: Global, line: &str) -> Result<Op, Stopped> {
    Ok(read_op_in(alloc, Vocabulary::Format4, line.as_bytes())?)
}

/// Makes the operations of all lines but the last, and gives that one's.
fn last_of(
    alloc: Global,
    lines: &[String],
    mut make: impl FnMut(&Op) -> Result<(), Stopped>,
) -> Result<Op, Stopped> {
    let [before @ .., last] = lines else {
        return Err(Stopped::BadWords);
    };
    for line in before {
        make(&operation(alloc, line.as_str())?)?;
    }
    operation(alloc, last.as_str())
}

/// Applies all lines but the last, and gives that one's operation.
pub fn applied_before<H: Hierarchy>(
    alloc: Global,
    tree: &mut H,
    user: &User,
    lines: &[String],
) -> Result<Op, Stopped> {
    last_of(alloc, lines, |op| {
        let _ = apply(alloc, tree, user, op)?;
        Ok(())
    })
}

/// `refusal UID LINE ..`, of the last line in the tree that those before leave
pub fn refused<H: Hierarchy + Drop>(mut tree: H, trial: &mut Trial<'_>) -> Ended {
    let alloc = trial.alloc;
    let user = trial.words.user()?;
    let op = applied_before(alloc, &mut tree, &user, trial.words.rest())?;
    let copy = tree.try_clone(alloc)?;
    trial.begin()?;
    let refusal = refusal(&tree, &user, &op);
    let kept = reads_alike(alloc, &tree, &copy)?;
    answer_said(alloc, false, kept, &refusal)
}

/// `apply UID LINE ..`, of the last line in the tree that those before leave. At last the tree has to read as one that the
/// same operation was applied to.
pub fn applied<H: Hierarchy + Drop>(mut tree: H, trial: &mut Trial<'_>) -> Ended {
    let alloc = trial.alloc;
    let user = trial.words.user()?;
    let op = applied_before(alloc, &mut tree, &user, trial.words.rest())?;
    let mut copy = tree.try_clone(alloc)?;
    trial.begin()?;
    let (wanted, kept, outcome) = match apply(alloc, &mut tree, &user, &op) {
        Ok(outcome) => (false, true, outcome),
        Err(_) => {
            let kept = reads_alike(alloc, &tree, &copy)?;
            (true, kept, apply(alloc, &mut tree, &user, &op)?)
        }
    };
    let _ = apply(alloc, &mut copy, &user, &op)?;
    let is_same = reads_alike(alloc, &tree, &copy)?;
    Ok(text_said(wanted, kept && is_same, outcome_shown(alloc, outcome)?))
}

fn outcome_shown(alloc: Global, outcome: Outcome) -> Result<String, Stopped> {
    match outcome {
        Outcome::Done => Ok(String::from_str(alloc, "Done")?),
        Outcome::Refused(refusal) => Ok(format!(in alloc; "{refusal:?}")?),
    }
}

/// `step UID SUBTREE LINE ..`, of the last line behind those before
pub fn stepped<H: Hierarchy + Drop>(tree: H, trial: &mut Trial<'_>) -> Ended {
    let alloc = trial.alloc;
    let user = trial.words.user()?;
    let mut replay = Replay::start(alloc, tree, trial.words.path(alloc)?)?;
    let op = last_of(alloc, trial.words.rest(), |op| {
        let _ = replay.step(alloc, &user, op)?;
        Ok(())
    })?;
    trial.begin()?;
    let before = replay.verdict();
    let (wanted, kept, outcome) = match replay.step(alloc, &user, &op) {
        Ok(outcome) => (false, true, outcome),
        Err(_) => {
            let kept = replay.verdict() == before;
            (true, kept, replay.step(alloc, &user, &op)?)
        }
    };
    let verdict = replay.verdict();
    let shown = outcome_shown(alloc, outcome)?;
    Ok(text_said(wanted, kept, format!(in alloc; "{shown} {verdict:?}")?))
}

/// `start UID SUBTREE LINE ..`, behind the operations of all lines
pub fn started<H: Hierarchy + Drop>(mut tree: H, trial: &mut Trial<'_>) -> Ended {
    let alloc = trial.alloc;
    let user = trial.words.user()?;
    let subtree: Path = trial.words.path(alloc)?;
    for line in trial.words.rest() {
        let _ = apply(alloc, &mut tree, &user, &operation(alloc, line.as_str())?)?;
    }
    let (copy, again) = (tree.try_clone(alloc)?, subtree.try_clone(alloc)?);
    trial.begin()?;
    let (wanted, begun) = match Replay::start(alloc, tree, subtree) {
        Err(CheckFault::NoMemory) => (true, Replay::start(alloc, copy, again)),
        begun => (false, begun),
    };
    match begun {
        Ok(replay) => answer_said(alloc, wanted, true, &replay.verdict()),
        Err(fault) => answer_said(alloc, wanted, true, &fault),
    }
}
