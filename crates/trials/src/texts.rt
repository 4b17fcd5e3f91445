//! Texts that are read, and texts that are written.
use crate::begin::Stopped;
use crate::operations::{applied_before, operation};
use crate::said::{Said, answer_said, text_said};
use crate::trees::listed;
use crate::trial::{Ended, Trial, answered};
use cg_cgroup::files::Vocabulary;
use cg_check::check;
use cg_cli::arguments::UserIds;
use cg_cli::check::check_bytes;
use cg_faults::fault::{CliFault, fault_text};
use cg_input::read::read_tree_input;
use cg_lines::lines::{LineFault, op_text, read_op, read_op_in};
use cg_lines::outcome::outcome_text;
use cg_ops::apply;
use cg_report::answer::answer_text;
use cg_report::verdict::verdict_text;
use cg_runs::replay::Replay;
use cg_text::tree::{TreeFault, read_text, read_tree};
use std::fmt::Debug;

/// Makes a call that writes a text, and that fails where it wants memory alone.
fn written<E: Drop>(trial: &mut Trial<'_>, write: impl Fn() -> Result<Vec<u8>, E>) -> Ended
where
    Stopped: From<E>,
{
    trial.begin()?;
    let (wanted, text) = match write() {
        Ok(text) => (false, text),
        Err(_) => (true, write()?),
    };
    Ok(Said {
        wanted,
        kept: true,
        text,
    })
}

/// `text read_tree`
pub fn tree_read(tree: &[u8], trial: &mut Trial<'_>) -> Ended {
    let alloc = trial.alloc;
    trial.begin()?;
    let (wanted, answer) = answered(TreeFault::NoMemory, || read_tree(alloc, tree));
    match answer {
        Ok(tree) => Ok(text_said(wanted, true, listed(alloc, &tree)?)),
        Err(fault) => answer_said(alloc, wanted, true, &fault),
    }
}

/// `text read_text`
pub fn text_read(tree: &[u8], trial: &mut Trial<'_>) -> Ended {
    let alloc = trial.alloc;
    trial.begin()?;
    let (wanted, answer) = answered(TreeFault::NoMemory, || read_text(alloc, tree));
    match answer {
        Ok(text) => {
            let vocabulary = text.vocabulary;
            let tree = listed(alloc, &text.rows)?;
            Ok(text_said(wanted, true, format!(in alloc; "{vocabulary:?} {tree}")?))
        }
        Err(fault) => answer_said(alloc, wanted, true, &fault),
    }
}

/// `text read_tree_input`, which says whether it is what there is to be read
pub fn input_read(tree: &[u8], trial: &mut Trial<'_>) -> Ended {
    let alloc = trial.alloc;
    trial.begin()?;
    let (wanted, answer) = answered(CliFault::NoMemory, || {
        read_tree_input(alloc, tree).map_err(CliFault::from)
    });
    let read = answer.map(|read| read.as_slice() == tree);
    answer_said(alloc, wanted, true, &read)
}

/// The fault of a text that is too long, of so many newlines.
fn too_long<T: Drop, E: Debug + Drop>(
    trial: &mut Trial<'_>,
    len: usize,
    read: impl Fn(&[u8]) -> Result<T, E>,
) -> Ended {
    let text = vec![in trial.alloc; b'\n'; len]?;
    trial.begin()?;
    answer_said(trial.alloc, false, true, &read(text.as_slice()).err())
}

/// `text read_long_tree`, of one byte more than a tree text has
pub fn long_tree_read(trial: &mut Trial<'_>) -> Ended {
    let alloc = trial.alloc;
    too_long(trial, 16_777_217, |text| read_tree(alloc, text))
}

/// `text read_op LINE`
pub fn operation_read(trial: &mut Trial<'_>) -> Ended {
    let alloc = trial.alloc;
    let line = trial.words.next()?.as_bytes();
    trial.begin()?;
    let (wanted, answer) = answered(LineFault::NoMemory, || read_op(alloc, line));
    answer_said(alloc, wanted, true, &answer)
}

/// `text read_op_in LINE`, of format 4
pub fn operation_read_in(trial: &mut Trial<'_>) -> Ended {
    let alloc = trial.alloc;
    let line = trial.words.next()?.as_bytes();
    trial.begin()?;
    let (wanted, answer) = answered(
        LineFault::NoMemory,
        || read_op_in(alloc, Vocabulary::Format4, line),
    );
    answer_said(alloc, wanted, true, &answer)
}

/// `text read_long_op`, of one byte more than a line has
pub fn long_operation_read(trial: &mut Trial<'_>) -> Ended {
    let alloc = trial.alloc;
    too_long(trial, 8193, |line| read_op(alloc, line))
}

/// `text op_text LINE`
pub fn operation_written(trial: &mut Trial<'_>) -> Ended {
    let alloc = trial.alloc;
    let op = operation(alloc, trial.words.next()?)?;
    written(trial, || op_text(alloc, &op))
}

/// `text outcome_text UID LINE ..`, of the outcome of the last line behind those before
pub fn outcome_written(tree: &[u8], trial: &mut Trial<'_>) -> Ended {
    let alloc = trial.alloc;
    let user = trial.words.user()?;
    let mut tree = read_tree(alloc, tree)?;
    let op = applied_before(alloc, &mut tree, &user, trial.words.rest())?;
    let outcome = apply(alloc, &mut tree, &user, &op)?;
    written(trial, || outcome_text(alloc, &op, &outcome))
}

/// `text answer_text UID SUBTREE`
pub fn answer_written(tree: &[u8], trial: &mut Trial<'_>) -> Ended {
    let alloc = trial.alloc;
    let user = trial.words.user()?;
    let subtree = trial.words.path(alloc)?;
    let tree = read_tree(alloc, tree)?;
    let answer = check(alloc, &tree, &user, &subtree)?;
    written(trial, || answer_text(alloc, &subtree, &answer))
}

/// `text verdict_text UID SUBTREE LINE ..`
pub fn verdict_written(tree: &[u8], trial: &mut Trial<'_>) -> Ended {
    let alloc = trial.alloc;
    let user = trial.words.user()?;
    let mut replay = Replay::start(alloc, read_tree(alloc, tree)?, trial.words.path(alloc)?)?;
    for line in trial.words.rest() {
        let _ = replay.step(alloc, &user, &operation(alloc, line.as_str())?)?;
    }
    let verdict = replay.verdict();
    written(trial, || verdict_text(alloc, &verdict))
}

/// `text fault_text UID SUBTREE`, of a check's fault
pub fn fault_written(tree: &[u8], trial: &mut Trial<'_>) -> Ended {
    let alloc = trial.alloc;
    let user = UserIds {
        uid: trial.words.id()?,
        gids: &[],
    };
    let mut out = Vec::new(alloc);
    let subtree = trial.words.next()?;
    let Err(fault) = check_bytes(alloc, tree, user, subtree, &mut None, &mut out) else {
        return Err(Stopped::BadWords);
    };
    written(trial, || fault_text(alloc, &fault))
}
