//! What a guarded user's step keeps it doesn't keep without the guard: for each guard a tree in which it alone fails, and
//! an operation after which a part of that is false.
use crate::tests::guards::trees::{
    MEMORY_MAX_OWNED, ROOM_FOR_ONE, ROOT_CONTROL_OWNED, ROOT_DIR_OWNED, ROOT_PROCS_OPEN,
    first_failed, tree_with,
};
use cg_cgroup::files::{Controller, EntryName, Limit, LimitFile};
use cg_cgroup::path::{Path, PathFault};
use cg_cgroup::process::Pid;
use cg_cgroup::user::User;
use cg_guards::failed::is_over;
use cg_model::changes::{Change, Changes};
use cg_model::guard::{Failed, Guard};
use cg_model::hierarchy::Hierarchy;
use cg_model::operation::Op;
use cg_model::outcome::Outcome;
use cg_ops::apply;
use cg_rows::rows::Rows;
use std::alloc::Global;
use std::process::Abort;
use std::test::Fail;
use test_trees::texts::{DELEGATION, EMPTY};

/// The tree after an operation of user 1000 that is accepted, where this guard of `/c0` failed before it.
fn after(
    rt: &impl Abort,
    alloc: Global,
    text: &[u8],
    change: (&str, &str),
    wanted: (Guard, usize),
    op: &Op,
) -> Result<Rows, Fail> {
    let mut tree = tree_with(alloc, text, change)?;
    let user = User::new(1000).ok_or("user")?;
    let (guard, len) = wanted;
    assert_eq!(rt;
        first_failed(alloc, tree.try_clone(alloc)?, &user, "/c0")?,
        Some(Failed { guard, len })
    );
    assert_eq!(rt; apply(alloc, &mut tree, &user, op)?, Outcome::Done);
    Ok(tree)
}

/// The path `/c0`.
fn c0(alloc: Global) -> Result<Path, PathFault> {
    Path::parse(alloc, "/c0")
}

#[test]
fn a_process_crosses(rt: HostRuntime) -> Result<(), Fail> {
    let alloc = rt.alloc();
    let pid = Pid::new(10).ok_or("pid")?;
    let (to, failed) = (c0(alloc)?, (Guard::CommonAncestor, 0));
    let op = Op::Move { pid, to };
    let tree = after(&rt, alloc, DELEGATION, ROOT_PROCS_OPEN, failed, &op)?;
    assert!(rt; *tree.place(pid).ok_or("place")? == c0(alloc)?);
    Ok(())
}

/// The value of a limit file of `/c0`.
fn limit_of_c0(alloc: Global, tree: &Rows, file: LimitFile) -> Result<Option<Limit>, Fail> {
    let c0 = c0(alloc)?;
    let cgroup = tree.get(&c0, c0.depth()).ok_or("no /c0")?;
    Ok(cgroup.limit(file))
}

#[test]
fn a_limit_is_set(rt: HostRuntime) -> Result<(), Fail> {
    let alloc = rt.alloc();
    let file = LimitFile::MemoryMax;
    let op = Op::Set {
        at: c0(alloc)?,
        file,
        value: Limit::Max,
    };
    let failed = (Guard::LimitFile(EntryName::File(file)), 1);
    let tree = after(&rt, alloc, DELEGATION, MEMORY_MAX_OWNED, failed, &op)?;
    assert_eq!(rt; limit_of_c0(alloc, &tree, file)?, Some(Limit::Max));
    Ok(())
}

#[test]
fn a_limit_file_appears(rt: HostRuntime) -> Result<(), Fail> {
    let alloc = rt.alloc();
    let mut changes = Changes::new(alloc);
    changes.push(Change {
        on: true,
        controller: Controller::Cpu,
    })?;
    let at = Path::parse(alloc, "/")?;
    let (op, failed) = (Op::Control { at, changes }, (Guard::ParentControl, 0));
    let tree = after(&rt, alloc, DELEGATION, ROOT_CONTROL_OWNED, failed, &op)?;
    let weight = limit_of_c0(alloc, &tree, LimitFile::CpuWeight)?;
    assert_eq!(rt; weight, Some(Limit::At(100)));
    Ok(())
}

#[test]
fn the_subtree_goes(rt: HostRuntime) -> Result<(), Fail> {
    let alloc = rt.alloc();
    let op = Op::Rmdir { path: c0(alloc)? };
    let failed = (Guard::ParentDir, 0);
    let tree = after(&rt, alloc, EMPTY, ROOT_DIR_OWNED, failed, &op)?;
    let c0 = c0(alloc)?;
    assert!(rt; tree.get(&c0, c0.depth()).is_none());
    Ok(())
}

#[test]
fn it_stays_over(rt: HostRuntime) -> Result<(), Fail> {
    let alloc = rt.alloc();
    let pid = Pid::new(11).ok_or("pid")?;
    let (op, over) = (Op::Exit { pid }, (Guard::AlreadyOver, 1));
    let tree = after(&rt, alloc, DELEGATION, ROOM_FOR_ONE, over, &op)?;
    let c0 = c0(alloc)?;
    assert!(rt; tree.get(&c0, c0.depth()).is_some() && is_over(&tree, &c0));
    Ok(())
}
