//! What any tree answers, compared with what is wanted.
use crate::tests::trees::fixtures::path;
use cg_cgroup::files::{Controller, ControllerSet, EntryName, Limit, LimitFile};
use cg_cgroup::memory::NoMemory;
use cg_cgroup::path::Path;
use cg_cgroup::process::Pid;
use cg_cgroup::user::Entry;
use cg_model::hierarchy::Hierarchy;
use std::alloc::Global;
use std::process::Abort;
use std::test::Fail;

/// How many cgroups lie below a cgroup, and how many levels down.
fn counts<H: Hierarchy>(tree: &H, path: &Path, len: usize) -> Option<(u64, u64)> {
    if len > path.depth() || tree.get(path, len).is_none() {
        return None;
    }
    Some((tree.count_below(path, len), tree.depth_below(path, len)))
}

/// Whether a cgroup has a child, and whether it has a process.
fn holds<H: Hierarchy>(tree: &H, path: &Path, len: usize) -> Option<(bool, bool)> {
    if len > path.depth() || tree.get(path, len).is_none() {
        return None;
    }
    Some((tree.has_child(path, len), tree.has_live(path, len)))
}

/// Whether a child of a cgroup enables a controller.
fn uses<H: Hierarchy>(tree: &H, path: &Path, controller: Controller) -> Option<bool> {
    if tree.get(path, path.depth()).is_none() {
        return None;
    }
    Some(tree.child_enables(path, path.depth(), controller))
}

/// What a cgroup enables.
fn enabled<H: Hierarchy>(tree: &H, path: &Path) -> Option<ControllerSet> {
    Some(tree.get(path, path.depth())?.enabled)
}

/// The texts of all paths, a space before each.
fn texts<H: Hierarchy>(alloc: Global, tree: &H) -> Result<String, Fail> {
    let paths = tree.paths(alloc)?;
    let mut text = String::new(alloc);
    for path in &paths {
        text.push(' ')?;
        text.push_str(path.prefix(path.depth()))?;
    }
    Ok(text)
}

/// The numbers of all processes.
fn numbers<H: Hierarchy>(alloc: Global, tree: &H) -> Result<Vec<u32>, NoMemory> {
    let pids = tree.pids(alloc)?;
    Ok(pids.iter().map(|pid| pid.get()).collect(alloc)?)
}

/// Whether a path has a text.
fn is_path(path: &Path, text: &str) -> bool {
    path.prefix(path.depth()) == text
}

/// What a tree says of the cgroup of a path; `None` for one, an entry or a limit that isn't there.
#[derive(Clone, Copy, Debug)]
pub enum Said {
    /// Of so many first names: how many cgroups lie below, and how many levels down.
    Counts(usize, u64, u64),
    /// Of so many first names: whether there is a child, and whether there is a process.
    Holds(usize, bool, bool),
    /// Whether a child enables a controller.
    Uses(Controller, Option<bool>),
    Enables(Option<ControllerSet>),
    EntryIs(EntryName, Option<Entry>),
    LimitIs(LimitFile, Option<Limit>),
}

/// Whether a tree says this of a path.
fn says<H: Hierarchy>(tree: &H, path: &Path, said: Said) -> bool {
    match said {
        Said::Counts(len, below, levels) => counts(tree, path, len) == Some((below, levels)),
        Said::Holds(len, child, live) => holds(tree, path, len) == Some((child, live)),
        Said::Uses(controller, is_used) => uses(tree, path, controller) == is_used,
        Said::Enables(controllers) => enabled(tree, path) == controllers,
        Said::EntryIs(name, entry) => match tree.get(path, path.depth()) {
            Some(cgroup) => cgroup.entry(name) == entry,
            None => false,
        },
        Said::LimitIs(file, limit) => match tree.get(path, path.depth()) {
            Some(cgroup) => cgroup.limit(file) == limit,
            None => false,
        },
    }
}

/// Compares what a tree says of the cgroups of paths.
pub fn check<H: Hierarchy>(
    rt: &impl Abort,
    alloc: Global,
    tree: &H,
    wanted: &[(&str, Said)],
) -> Result<(), Fail> {
    for (text, said) in wanted {
        let path = path(alloc, text)?;
        assert!(rt; says(tree, &path, *said), "{text} {said:?}");
    }
    Ok(())
}

/// Compares the controllers that the root has.
pub fn check_controllers<H: Hierarchy>(rt: &impl Abort, tree: &H, wanted: ControllerSet) {
    assert_eq!(rt; tree.controllers(), wanted);
}

/// Compares where a process is, and its uid. Its PID is used.
fn check_place<H: Hierarchy>(
    rt: &impl Abort,
    tree: &H,
    number: u32,
    uid: u32,
    text: &str,
) -> Result<(), Fail> {
    let pid = Pid::new(number).ok_or("no PID")?;
    let place = tree.place(pid).ok_or("no process")?;
    assert!(rt; is_path(place, text), "{number}");
    assert_eq!(rt; tree.owner(pid), Some(uid), "{number}");
    assert!(rt; tree.is_used(pid), "{number}");
    Ok(())
}

/// Compares where processes are, by number, uid and cgroup.
pub fn check_places<H: Hierarchy>(
    rt: &impl Abort,
    tree: &H,
    wanted: &[(u32, u32, &str)],
) -> Result<(), Fail> {
    for (number, uid, text) in wanted {
        check_place(rt, tree, *number, *uid, text)?;
    }
    Ok(())
}

/// Tests that a process isn't live, and compares whether its PID is used.
pub fn check_gone<H: Hierarchy>(
    rt: &impl Abort,
    tree: &H,
    number: u32,
    is_used: bool,
) -> Result<(), Fail> {
    let pid = Pid::new(number).ok_or("no PID")?;
    assert!(rt; tree.place(pid).is_none(), "{number}");
    assert!(rt; tree.owner(pid).is_none(), "{number}");
    assert_eq!(rt; tree.is_used(pid), is_used, "{number}");
    Ok(())
}

/// Compares the lists of paths and of processes.
pub fn check_lists<H: Hierarchy>(
    rt: &impl Abort,
    alloc: Global,
    tree: &H,
    paths: &str,
    pids: &[u32],
) -> Result<(), Fail> {
    assert_eq!(rt; texts(alloc, tree)?.as_str(), paths);
    assert_eq!(rt; numbers(alloc, tree)?.as_slice(), pids);
    Ok(())
}
