//! Random runs on both kinds of trees.
use crate::tests::indexed::alike::hold;
use crate::tests::indexed::random::{PIDS, operation, paths};
use cg_cgroup::cgroup::Cgroup;
use cg_cgroup::files::ControllerSet;
use cg_cgroup::memory::NoMemory;
use cg_cgroup::path::Path;
use cg_cgroup::process::Pid;
use cg_cgroup::user::User;
use cg_indexed::indexed::Indexed;
use cg_model::hierarchy::Hierarchy;
use cg_model::operation::Op;
use cg_model::outcome::Outcome;
use cg_ops::apply;
use cg_rows::rows::Rows;
use std::alloc::Global;
use std::process::Abort;
use std::test::Fail;
use test_trees::random::Random;

/// The controllers that bring limit files.
const ALL: ControllerSet = ControllerSet {
    flags: [false, true, false, true, false, true, false, false, false],
};

/// Adds a process at the root, where the root may hold it.
fn populate<H: Hierarchy>(
    alloc: Global,
    tree: &mut H,
    number: u32,
    uid: u32,
) -> Result<(), NoMemory> {
    let root = Path::root(alloc);
    let (Some(pid), Some(cgroup)) = (Pid::new(number), tree.get(&root, 0)) else {
        return Ok(());
    };
    if !cgroup.enabled.is_empty() || tree.is_used(pid) {
        return Ok(());
    }
    tree.add_process(alloc, pid, uid, &root)
}

/// Carries an operation out on both trees, with the same outcome. Whether it was carried out.
fn step<A: Hierarchy, B: Hierarchy>(
    rt: &impl Abort,
    alloc: Global,
    one: &mut A,
    other: &mut B,
    user: &User,
    op: &Op,
) -> Result<bool, NoMemory> {
    let outcome = apply(alloc, one, user, op)?;
    assert_eq!(rt; outcome, apply(alloc, other, user, op)?, "{op:?}");
    Ok(outcome == Outcome::Done)
}

/// One of two users, three of four times the first.
fn one_of<'a>(users: &'a (User, User), random: &mut Random) -> &'a User {
    if random.below(4) > 0 {
        &users.0
    } else {
        &users.1
    }
}

/// Adds the same processes at the roots of both trees.
fn begin<A: Hierarchy, B: Hierarchy>(
    alloc: Global,
    one: &mut A,
    other: &mut B,
    uid: u32,
) -> Result<(), NoMemory> {
    for number in 1..4 {
        populate(alloc, one, number, uid)?;
        populate(alloc, other, number, uid)?;
    }
    Ok(())
}

/// Fails where a tree and a copy of another answer otherwise.
fn hold_copy<A: Hierarchy, B: Hierarchy + Drop>(
    rt: &impl Abort,
    alloc: Global,
    one: &A,
    other: &B,
    paths: &[Path],
) -> Result<(), NoMemory> {
    let copy = other.try_clone(alloc)?;
    hold(rt, alloc, one, &copy, paths, PIDS)
}

/// Random operations of two users on two trees, with the same outcomes. Both answer alike after each that is carried out, as does a
/// copy of the second. How many were carried out.
fn run<A: Hierarchy, B: Hierarchy + Drop>(
    rt: &impl Abort,
    alloc: Global,
    one: &mut A,
    other: &mut B,
    users: &(User, User),
    random: &mut Random,
    paths: &[Path],
) -> Result<u64, Fail> {
    let mut done: u64 = 0;
    for _step in 0..STEPS {
        let op = operation(alloc, random)?;
        if step(rt, alloc, one, other, one_of(users, random), &op)? {
            done = done.saturating_add(1);
            hold(rt, alloc, one, other, paths, PIDS)?;
            hold_copy(rt, alloc, one, other, paths)?;
        }
    }
    Ok(done)
}

/// How many operations a run has.
const STEPS: u64 = 600;

/// A run on a tree of each kind, from a root alone that is the first user's.
fn run_anew(
    rt: &impl Abort,
    alloc: Global,
    users: &(User, User),
    random: &mut Random,
    paths: &[Path],
) -> Result<u64, Fail> {
    let root = Cgroup {
        freeze: None,
        ..Cgroup::made_by(&users.0, ControllerSet::none())
    };
    let mut rows = Rows::new(alloc, ALL, root)?;
    let mut indexed = Indexed::new(alloc, ALL, root)?;
    begin(alloc, &mut rows, &mut indexed, users.0.uid())?;
    run(rt, alloc, &mut rows, &mut indexed, users, random, paths)
}

#[test]
fn both_answer_alike(rt: HostRuntime) -> Result<(), Fail> {
    let users = (
        User::with_groups(1000, &[5]).ok_or("uid")?,
        User::with_groups(1001, &[6, 5]).ok_or("uid")?,
    );
    let paths = paths(rt.alloc())?;
    let mut random = Random::new(20231123);
    let mut done: u64 = 0;
    for _run in 0..3 {
        let more = run_anew(&rt, rt.alloc(), &users, &mut random, &paths)?;
        done = done.saturating_add(more);
    }
    assert!(rt; done > 200, "{done}");
    Ok(())
}
