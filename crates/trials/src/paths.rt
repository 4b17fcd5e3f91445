//! Calls that make paths.
use crate::said::{fault_said, text_said};
use crate::trial::{Ended, Trial, answered};
use cg_cgroup::path::Path;
use cg_faults::fault::CliFault;
use std::alloc::Global;

/// Makes a call that gives a path; `is_kept` says whether what was lent to it is as before.
fn path_said(
    trial: &mut Trial<'_>,
    make: impl Fn() -> Result<Path, CliFault>,
    is_kept: impl Fn() -> bool,
) -> Ended {
    trial.begin()?;
    let (wanted, answer) = answered(CliFault::NoMemory, make);
    match answer {
        Ok(path) => {
            let text = path.prefix(path.depth());
            let text = format!(in trial.alloc; "{} {text}", path.depth())?;
            Ok(text_said(wanted, is_kept(), text))
        }
        Err(fault) => fault_said(trial.alloc, wanted, is_kept(), &fault),
    }
}

/// `path parse TEXT`
pub fn parsed(trial: &mut Trial<'_>) -> Ended {
    let alloc = trial.alloc;
    let text = trial.words.next()?;
    path_said(trial, || Ok(Path::parse(alloc, text)?), || true)
}

/// Makes a call on the path of a text.
fn made_of_path(
    trial: &mut Trial<'_>,
    text: &str,
    make: impl Fn(&Path) -> Result<Path, CliFault>,
) -> Ended {
    let path = Path::parse(trial.alloc, text)?;
    let is_kept = || path.prefix(path.depth()) == text;
    path_said(trial, || make(&path), is_kept)
}

/// `path try_clone PATH`
pub fn cloned(trial: &mut Trial<'_>) -> Ended {
    let alloc = trial.alloc;
    let text = trial.words.next()?;
    made_of_path(trial, text, |path| Ok(path.try_clone(alloc)?))
}

fn prefix(alloc: Global, path: &Path, len: usize) -> Result<Path, CliFault> {
    if len > path.depth() {
        return Err(CliFault::BadPath);
    }
    Ok(path.try_prefix(alloc, len)?)
}

/// `path try_prefix PATH LEN`
pub fn prefix_made(trial: &mut Trial<'_>) -> Ended {
    let alloc = trial.alloc;
    let text = trial.words.next()?;
    let len = trial.words.number()?;
    made_of_path(trial, text, |path| prefix(alloc, path, len))
}

fn child(alloc: Global, path: &Path, len: usize, name: &str) -> Result<Path, CliFault> {
    if len > path.depth() {
        return Err(CliFault::BadPath);
    }
    Ok(path.with_child(alloc, len, name)?)
}

/// `path with_child PATH LEN NAME`
pub fn child_made(trial: &mut Trial<'_>) -> Ended {
    let alloc = trial.alloc;
    let text = trial.words.next()?;
    let len = trial.words.number()?;
    let name = trial.words.next()?;
    made_of_path(trial, text, |path| child(alloc, path, len, name))
}
