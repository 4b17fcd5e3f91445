//! Whole trees: every cgroup with its owners, modes and values, and every process.
use cg_cgroup::brought::BroughtFiles;
use cg_cgroup::cgroup::{Cgroup, LimitEntry};
use cg_cgroup::files::{Controller, ControllerSet, Limit, LimitFile};
use cg_cgroup::others::OtherFiles;
use cg_cgroup::path::Path;
use cg_cgroup::process::Pid;
use cg_cgroup::user::Entry;
use cg_model::hierarchy::Hierarchy;
use cg_rows::rows::Rows;
use cg_text::tree::read_tree;
use std::alloc::{AllocError, Global};
use std::process::Abort;
use std::str::from_utf8;
use std::test::Fail;
use test_trees::texts::{DELEGATION, PARENT_DELEGATED};

const MEMORY: ControllerSet = ControllerSet {
    flags: [false, false, false, true, false, false, false, false, false],
};

fn directory(uid: u32) -> Entry {
    Entry {
        uid,
        gid: 0,
        mode: 0o755,
    }
}

fn file(uid: u32) -> Entry {
    Entry {
        uid,
        gid: 0,
        mode: 0o644,
    }
}

fn limit(uid: u32, value: Limit) -> LimitEntry {
    LimitEntry {
        entry: file(uid),
        value,
    }
}

/// A cgroup of which a text says nothing, below a parent that enables nothing.
fn plain() -> Cgroup {
    Cgroup {
        dir: directory(0),
        procs: file(0),
        subtree_control: file(0),
        max_descendants: limit(0, Limit::Max),
        max_depth: limit(0, Limit::Max),
        freeze: Some(file(0)),
        files: BroughtFiles::none(),
        others: OtherFiles::none(),
        enabled: ControllerSet::none(),
    }
}

/// The cgroup below a parent that enables memory.
fn with_memory(cgroup: Cgroup, memory_max: Limit) -> Cgroup {
    let mut files = cgroup.files;
    for (place, file) in LimitFile::BROUGHT.iter().enumerate() {
        if file.controller() == Some(Controller::Memory) {
            let value = match file {
                LimitFile::MemoryMin | LimitFile::MemoryLow => Limit::At(0),
                LimitFile::MemoryMax => memory_max,
                _ => Limit::Max,
            };
            files.entries[place] = Some(limit(0, value));
        }
    }
    Cgroup {
        files,
        others: OtherFiles::under(MEMORY, file(0)),
        ..cgroup
    }
}

/// The cgroup with what is handed to user 1000 where a subtree is delegated to them.
fn delegated(cgroup: Cgroup) -> Cgroup {
    Cgroup {
        dir: directory(1000),
        procs: file(1000),
        subtree_control: file(1000),
        ..cgroup
    }
}

/// A cgroup in a delegated subtree, whose limits are user 1000's too.
fn inner() -> Cgroup {
    Cgroup {
        max_descendants: limit(1000, Limit::Max),
        max_depth: limit(1000, Limit::Max),
        ..delegated(plain())
    }
}

/// The paths of a tree, in its order, each with a newline.
fn paths_of(alloc: Global, tree: &Rows) -> Result<String, Fail> {
    let mut text = String::new(alloc);
    for path in tree.paths(alloc)? {
        text.push_str(path.prefix(path.depth()))?;
        text.push('\n')?;
    }
    Ok(text)
}

/// Fails where the tree has another cgroup at a path.
fn expect_cgroup(
    rt: &impl Abort,
    alloc: Global,
    tree: &Rows,
    path: &str,
    wanted: Cgroup,
) -> Result<(), Fail> {
    let at = Path::parse(alloc, path)?;
    assert_eq!(rt; tree.get(&at, at.depth()).copied(), Some(wanted), "{path}");
    Ok(())
}

/// Fails where the process of a PID is another's or somewhere else.
fn expect_process(
    rt: &impl Abort,
    tree: &Rows,
    pid: u32,
    uid: Option<u32>,
    place: Option<&str>,
) -> Result<(), Fail> {
    let pid = Pid::new(pid).ok_or("a PID")?;
    assert_eq!(rt; tree.owner(pid), uid);
    assert_eq!(rt; tree.place(pid).map(|at| at.prefix(at.depth())), place);
    assert_eq!(rt; tree.is_used(pid), uid.is_some());
    Ok(())
}

#[test]
fn the_delegation_example(rt: HostRuntime) -> Result<(), Fail> {
    let alloc = rt.alloc();
    let tree = read_tree(alloc, DELEGATION)?;
    let all = ControllerSet {
        flags: [false, true, false, true, false, true, false, false, false],
    };
    assert_eq!(rt; tree.controllers(), all);
    assert_eq!(rt;
        paths_of(alloc, &tree)?.as_str(),
        "/\n/c0\n/c0/c00\n/c0/c01\n/c1\n/c1/c10\n"
    );
    let limited = Cgroup {
        max_descendants: limit(0, Limit::At(4)),
        max_depth: limit(0, Limit::At(2)),
        ..delegated(with_memory(plain(), Limit::At(1073741824)))
    };
    for (path, wanted) in [
        (
            "/",
            Cgroup {
                freeze: None,
                enabled: MEMORY,
                ..plain()
            },
        ),
        ("/c0", limited),
        ("/c1", delegated(with_memory(plain(), Limit::Max))),
        ("/c0/c00", inner()),
        ("/c0/c01", inner()),
        ("/c1/c10", inner()),
    ] {
        expect_cgroup(&rt, alloc, &tree, path, wanted)?;
    }
    Ok(())
}

#[test]
fn the_processes_of_the_delegation_example(rt: HostRuntime) -> Result<(), Fail> {
    let tree = read_tree(rt.alloc(), DELEGATION)?;
    for (pid, uid, place) in [
        (10, Some(1000), Some("/c1/c10")),
        (11, Some(1000), Some("/c0/c00")),
        (9, None, None),
        (12, None, None),
        (1, None, None),
    ] {
        expect_process(&rt, &tree, pid, uid, place)?;
    }
    let pids = [Pid::new(10).ok_or("a PID")?, Pid::new(11).ok_or("a PID")?];
    assert_eq!(rt; tree.pids(rt.alloc())?.as_slice(), pids.as_slice());
    Ok(())
}

#[test]
fn a_delegated_parent(rt: HostRuntime) -> Result<(), Fail> {
    let alloc = rt.alloc();
    let tree = read_tree(alloc, PARENT_DELEGATED)?;
    assert_eq!(rt; tree.controllers(), MEMORY);
    assert_eq!(rt; paths_of(alloc, &tree)?.as_str(), "/\n/p\n/p/s\n");
    let below = with_memory(plain(), Limit::Max);
    let parent = Cgroup {
        procs: file(1000),
        enabled: MEMORY,
        ..below
    };
    for (path, wanted) in [
        (
            "/",
            Cgroup {
                freeze: None,
                enabled: MEMORY,
                ..plain()
            },
        ),
        ("/p", parent),
        ("/p/s", below),
    ] {
        expect_cgroup(&rt, alloc, &tree, path, wanted)?;
    }
    expect_process(&rt, &tree, 20, Some(1000), Some("/p/s"))?;
    let pids = [Pid::new(20).ok_or("a PID")?];
    assert_eq!(rt; tree.pids(alloc)?.as_slice(), pids.as_slice());
    Ok(())
}
