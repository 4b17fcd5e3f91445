//! Calls of a tree.
use crate::begin::Stopped;
use crate::lent::{asked, reads_alike};
use crate::said::text_said;
use crate::trial::{Ended, Trial};
use cg_cgroup::cgroup::Cgroup;
use cg_cgroup::files::{Controller, ControllerSet};
use cg_cgroup::memory::NoMemory;
use cg_cgroup::path::Path;
use cg_cgroup::process::Pid;
use cg_cgroup::user::User;
use cg_indexed::indexed::Indexed;
use cg_model::hierarchy::Hierarchy;
use cg_rows::rows::Rows;
use cg_text::tree::read_tree;
use std::alloc::Global;

/// All paths and live PIDs of a tree.
pub fn listed<H: Hierarchy>(alloc: Global, tree: &H) -> Result<String, Stopped> {
    let mut text = String::new(alloc);
    let paths = tree.paths(alloc)?;
    for path in &paths {
        text.push_str(path.prefix(path.depth()))?;
        text.push_str(" ")?;
    }
    let pids = tree.pids(alloc)?;
    for pid in &pids {
        text.push_str(format!(in alloc; "{} ", pid.get())?.as_str())?;
    }
    Ok(text)
}

fn new_rows(alloc: Global, root: Cgroup) -> Result<Rows, NoMemory> {
    Rows::new(alloc, ControllerSet::none(), root)
}

fn new_indexed(alloc: Global, root: Cgroup) -> Result<Indexed, NoMemory> {
    Indexed::new(alloc, ControllerSet::none(), root)
}

/// `new rows` and `new indexed`
pub fn made_new(trial: &mut Trial<'_>) -> Ended {
    let alloc = trial.alloc;
    let kind = trial.words.next()?;
    let user = trial.words.user()?;
    let root = Cgroup {
        freeze: None,
        ..Cgroup::made_by(&user, ControllerSet::none())
    };
    trial.begin()?;
    match kind {
        "rows" => match new_rows(alloc, root) {
            Ok(tree) => Ok(text_said(false, true, listed(alloc, &tree)?)),
            Err(_) => Ok(text_said(true, true, listed(alloc, &new_rows(alloc, root)?)?)),
        },
        "indexed" => match new_indexed(alloc, root) {
            Ok(tree) => Ok(text_said(false, true, listed(alloc, &tree)?)),
            Err(_) => Ok(text_said(true, true, listed(alloc, &new_indexed(alloc, root)?)?)),
        },
        _ => Err(Stopped::BadWords),
    }
}

/// `from_rows`. The rows are given away, so they are read anew for a second call.
pub fn made_of_rows(tree: &[u8], trial: &mut Trial<'_>) -> Ended {
    let alloc = trial.alloc;
    let rows = read_tree(alloc, tree)?;
    let more = read_tree(alloc, tree)?;
    trial.begin()?;
    match Indexed::from_rows(alloc, rows) {
        Ok(tree) => Ok(text_said(false, true, listed(alloc, &tree)?)),
        Err(_) => {
            let tree = Indexed::from_rows(alloc, more)?;
            Ok(text_said(true, true, listed(alloc, &tree)?))
        }
    }
}

/// `paths`
pub fn paths_given<H: Hierarchy + Drop>(tree: H, trial: &mut Trial<'_>) -> Ended {
    let alloc = trial.alloc;
    asked(trial, &tree, NoMemory, || tree.paths(alloc))
}

/// `pids`
pub fn pids_given<H: Hierarchy + Drop>(tree: H, trial: &mut Trial<'_>) -> Ended {
    let alloc = trial.alloc;
    asked(trial, &tree, NoMemory, || tree.pids(alloc))
}

/// `try_clone`
pub fn cloned<H: Hierarchy + Drop>(tree: H, trial: &mut Trial<'_>) -> Ended {
    let alloc = trial.alloc;
    let copy = tree.try_clone(alloc)?;
    trial.begin()?;
    let (wanted, other) = match tree.try_clone(alloc) {
        Ok(other) => (false, other),
        Err(_) => (true, tree.try_clone(alloc)?),
    };
    let kept = reads_alike(alloc, &tree, &copy)? && reads_alike(alloc, &other, &copy)?;
    Ok(text_said(wanted, kept, listed(alloc, &other)?))
}

/// Makes a call that changes a tree. Whether it wanted memory first, and whether the tree was then as before.
fn changed<H: Hierarchy + Drop>(
    trial: &mut Trial<'_>,
    tree: &mut H,
    change: impl Fn(&mut H) -> Result<(), NoMemory>,
) -> Result<(bool, bool), Stopped> {
    let copy = tree.try_clone(trial.alloc)?;
    trial.begin()?;
    if change(tree).is_ok() {
        return Ok((false, true));
    }
    let kept = reads_alike(trial.alloc, tree, &copy)?;
    change(tree)?;
    Ok((true, kept))
}

/// Adds a cgroup. Nothing is done where it is there, or its parent isn't.
fn add<H: Hierarchy>(
    alloc: Global,
    tree: &mut H,
    path: &Path,
    user: &User,
) -> Result<(), NoMemory> {
    let len = path.depth();
    if len == 0 || tree.get(path, len).is_some() {
        return Ok(());
    }
    let Some(parent) = tree.get(path, path.parent_len()) else {
        return Ok(());
    };
    let cgroup = Cgroup::made_by(user, parent.enabled);
    tree.add(alloc, path, cgroup)
}

/// `add UID PATH`
pub fn added<H: Hierarchy + Drop>(mut tree: H, trial: &mut Trial<'_>) -> Ended {
    let alloc = trial.alloc;
    let user = trial.words.user()?;
    let path = trial.words.path(alloc)?;
    let change = |tree: &mut H| add(alloc, tree, &path, &user);
    let (wanted, kept) = changed(trial, &mut tree, change)?;
    Ok(text_said(wanted, kept, listed(alloc, &tree)?))
}

/// Whether a process may be placed at a cgroup.
fn may_hold<H: Hierarchy>(tree: &H, path: &Path) -> bool {
    match tree.get(path, path.depth()) {
        Some(cgroup) => cgroup.enabled.is_empty(),
        None => false,
    }
}

/// Makes a call that places a process at a cgroup, which the words tell both.
fn process_placed<H: Hierarchy + Drop>(
    mut tree: H,
    trial: &mut Trial<'_>,
    place: impl Fn(&mut H, Pid, &Path) -> Result<(), NoMemory>,
) -> Ended {
    let pid = trial.words.pid()?;
    let path = trial.words.path(trial.alloc)?;
    let change = |tree: &mut H| place(tree, pid, &path);
    let (wanted, kept) = changed(trial, &mut tree, change)?;
    Ok(text_said(wanted, kept, placed(trial.alloc, &tree, pid)?))
}

/// `add_process PID PATH`: nothing is done where the PID was used, or the process may not be placed there.
pub fn process_added<H: Hierarchy + Drop>(tree: H, trial: &mut Trial<'_>) -> Ended {
    let alloc = trial.alloc;
    process_placed(tree, trial, |tree, pid, path| {
        if !may_hold(tree, path) || tree.is_used(pid) {
            return Ok(());
        }
        tree.add_process(alloc, pid, 1000, path)
    })
}

/// Whose a process is, where it is, and whether its PID was used.
fn placed<H: Hierarchy>(alloc: Global, tree: &H, pid: Pid) -> Result<String, Stopped> {
    let owner = tree.owner(pid);
    let place = tree.place(pid);
    let is_used = tree.is_used(pid);
    Ok(format!(in alloc; "{owner:?} {place:?} {is_used}")?)
}

/// `set_place PID PATH`: nothing is done where the process isn't live, or may not be placed there.
pub fn process_moved<H: Hierarchy + Drop>(tree: H, trial: &mut Trial<'_>) -> Ended {
    let alloc = trial.alloc;
    process_placed(tree, trial, |tree, pid, path| {
        if !may_hold(tree, path) || tree.owner(pid).is_none() {
            return Ok(());
        }
        tree.set_place(alloc, pid, path)
    })
}

/// What a tree tells of a cgroup and a process without memory.
#[derive(Clone, Copy, Debug, PartialEq, Eq)]
struct Readings {
    cgroup: Option<Cgroup>,
    controllers: ControllerSet,
    counts: Option<(u64, u64)>,
    holds: Option<(bool, bool, bool)>,
    nearest_full: Option<usize>,
    owner: Option<u32>,
    is_used: bool,
    place: Option<usize>,
}

fn counts<H: Hierarchy>(tree: &H, path: &Path) -> Option<(u64, u64)> {
    let len = path.depth();
    tree.get(path, len)?;
    Some((tree.count_below(path, len), tree.depth_below(path, len)))
}

fn holds<H: Hierarchy>(tree: &H, path: &Path) -> Option<(bool, bool, bool)> {
    let len = path.depth();
    tree.get(path, len)?;
    let uses = tree.child_enables(path, len, Controller::Memory);
    Some((tree.has_child(path, len), tree.has_live(path, len), uses))
}

fn nearest_full<H: Hierarchy>(tree: &H, path: &Path) -> Option<usize> {
    let len = path.depth();
    tree.get(path, len)?;
    tree.nearest_full(path, len)
}

fn all_read<H: Hierarchy>(tree: &H, path: &Path, pid: Pid) -> Readings {
    Readings {
        cgroup: tree.get(path, path.depth()).copied(),
        controllers: tree.controllers(),
        counts: counts(tree, path),
        holds: holds(tree, path),
        nearest_full: nearest_full(tree, path),
        owner: tree.owner(pid),
        is_used: tree.is_used(pid),
        place: tree.place(pid).map(|place| place.common_len(path)),
    }
}

/// `readings PATH PID`: what is read before the call is what it has to read.
pub fn read<H: Hierarchy + Drop>(tree: H, trial: &mut Trial<'_>) -> Ended {
    let alloc = trial.alloc;
    let path = trial.words.path(alloc)?;
    let pid = trial.words.pid()?;
    let wanted = all_read(&tree, &path, pid);
    trial.begin()?;
    let read = all_read(&tree, &path, pid);
    let text = format!(in alloc;
        "{:?} {:?} {:?}",
        read.counts, read.holds, read.nearest_full
    )?;
    Ok(text_said(false, read == wanted, text))
}
