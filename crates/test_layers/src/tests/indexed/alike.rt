//! What two trees answer, held against each other.
use cg_cgroup::cgroup::Cgroup;
use cg_cgroup::files::{Controller, ControllerSet};
use cg_cgroup::memory::NoMemory;
use cg_cgroup::other_file::OtherFile;
use cg_cgroup::path::Path;
use cg_cgroup::process::Pid;
use cg_model::files::told_at;
use cg_model::hierarchy::Hierarchy;
use std::alloc::Global;
use std::process::Abort;
use std::test::Fail;

/// All that a tree answers about a cgroup.
#[derive(Clone, Copy, Debug, PartialEq)]
struct Answers {
    cgroup: Cgroup,
    has_child: bool,
    has_live: bool,
    /// What any of its children enables.
    enabled_below: ControllerSet,
    count_below: u64,
    depth_below: u64,
    nearest_full: Option<usize>,
}

/// What a tree answers about the cgroup of the first names of a path, where it is there.
fn answers_on<H: Hierarchy>(tree: &H, path: &Path, len: usize) -> Option<Answers> {
    if len > path.depth() {
        return None;
    }
    let cgroup = *tree.get(path, len)?;
    Some(Answers {
        cgroup,
        has_child: tree.has_child(path, len),
        has_live: tree.has_live(path, len),
        enabled_below: ControllerSet {
            flags: Controller::ALL.map(|controller| {
                controller.is_in_format_2() && tree.child_enables(path, len, controller)
            }),
        },
        count_below: tree.count_below(path, len),
        depth_below: tree.depth_below(path, len),
        nearest_full: tree.nearest_full(path, len),
    })
}

/// The text of a process's cgroup.
fn place<H: Hierarchy>(tree: &H, number: u32) -> Option<&str> {
    let path = tree.place(Pid::new(number)?)?;
    Some(path.prefix(path.depth()))
}

/// The uid of a process, and whether its PID was ever used.
fn owner<H: Hierarchy>(tree: &H, number: u32) -> Option<(Option<u32>, bool)> {
    let pid = Pid::new(number)?;
    Some((tree.owner(pid), tree.is_used(pid)))
}

/// Fails where two trees answer otherwise about a cgroup of the first names of a path, or about its files.
fn hold_paths<A: Hierarchy, B: Hierarchy>(rt: &impl Abort, one: &A, other: &B, path: &Path) {
    for len in 0..=path.depth() {
        assert_eq!(rt;
            answers_on(one, path, len),
            answers_on(other, path, len),
            "{path:?} {len}"
        );
        for file in OtherFile::ALL {
            assert_eq!(rt;
                told_at(one, path, len, file),
                told_at(other, path, len, file),
                "{path:?} {len}"
            );
        }
    }
}

/// Fails where two trees answer otherwise about a PID.
fn hold_pids<A: Hierarchy, B: Hierarchy>(rt: &impl Abort, one: &A, other: &B, number: u32) {
    assert_eq!(rt; place(one, number), place(other, number), "{number}");
    assert_eq!(rt; owner(one, number), owner(other, number), "{number}");
}

/// Fails where two trees list other paths.
fn hold_lists<A: Hierarchy, B: Hierarchy>(
    rt: &impl Abort,
    alloc: Global,
    one: &A,
    other: &B,
) -> Result<(), NoMemory> {
    assert_eq!(rt;
        one.paths(alloc)?.as_slice(),
        other.paths(alloc)?.as_slice()
    );
    assert_eq!(rt; one.pids(alloc)?.as_slice(), other.pids(alloc)?.as_slice());
    Ok(())
}

/// Fails where two trees answer otherwise to any reading call, on these paths and on the PIDs below a number.
pub fn hold<A: Hierarchy, B: Hierarchy>(
    rt: &impl Abort,
    alloc: Global,
    one: &A,
    other: &B,
    paths: &[Path],
    numbers: u32,
) -> Result<(), NoMemory> {
    assert_eq!(rt; one.controllers(), other.controllers());
    for path in paths {
        hold_paths(rt, one, other, path);
    }
    for number in 1..numbers {
        hold_pids(rt, one, other, number);
    }
    hold_lists(rt, alloc, one, other)
}
