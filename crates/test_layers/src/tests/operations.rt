//! Operations on trees worked out by hand: the delegation example of the kernel's document, with uid 1 in place of uid 0.
use crate::tests::ops::{chmod, control, exit, fork, mkdir, moved, rmdir, set};
use crate::tests::trees::fixtures::{ALL, Owners, delegate, populate, root_alone};
use cg_cgroup::files::{Controller, EntryName, Limit, LimitFile};
use cg_cgroup::path::Path;
use cg_cgroup::process::Pid;
use cg_cgroup::user::User;
use cg_model::hierarchy::Hierarchy;
use cg_model::operation::Op;
use cg_model::outcome::{Outcome, Refusal};
use cg_ops::apply;
use cg_rows::rows::Rows;
use std::alloc::Global;
use std::process::Abort;
use std::test::Fail;

fn no_access(len: usize, entry: EntryName) -> Refusal {
    Refusal::NoAccess { len, entry }
}

fn not_available(controller: Controller) -> Refusal {
    Refusal::NotAvailable { controller }
}

/// A tree and who acts in it.
#[derive(Drop)]
struct Trial {
    alloc: Global,
    tree: Rows,
    user: User,
}

impl Trial {
    /// The delegation example, whose root is uid 1's, for a user without groups.
    fn new(rt: &impl Abort, alloc: Global, uid: u32) -> Result<Trial, Fail> {
        let user = User::new(uid).ok_or("uid")?;
        let mut tree = root_alone(alloc, ALL, Owners::ADMINISTRATOR)?;
        delegate(rt, alloc, &mut tree, &user)?;
        Ok(Trial { alloc, tree, user })
    }

    /// Carries an operation out and compares how it ended.
    fn ends(&mut self, rt: &impl Abort, op: Option<Op>, wanted: Outcome) -> Result<(), Fail> {
        let op = op.ok_or("operation")?;
        assert_eq!(rt;
            apply(self.alloc, &mut self.tree, &self.user, &op)?,
            wanted,
            "{op:?}"
        );
        Ok(())
    }

    fn done(&mut self, rt: &impl Abort, op: Option<Op>) -> Result<(), Fail> {
        self.ends(rt, op, Outcome::Done)
    }

    fn refused(&mut self, rt: &impl Abort, op: Option<Op>, refusal: Refusal) -> Result<(), Fail> {
        self.ends(rt, op, Outcome::Refused(refusal))
    }
}

#[test]
fn depth_is_limited_by_all_above(rt: HostRuntime) -> Result<(), Fail> {
    let a = rt.alloc();
    let mut t = Trial::new(&rt, a, 1000)?;
    t.done(&rt, mkdir(a, "/c0/c00/x"))?;
    t.refused(&rt, mkdir(a, "/c0/c00/x/y"), Refusal::DepthLimit { len: 1 })
}

#[test]
fn the_last_change_is_effective(rt: HostRuntime) -> Result<(), Fail> {
    let a = rt.alloc();
    let (memory, pids) = (Controller::Memory, Controller::Pids);
    let file = LimitFile::MemoryMax;
    let mut t = Trial::new(&rt, a, 1000)?;
    t.done(&rt, control(a, "/c0", &[(true, memory), (false, memory)]))?;
    t.refused(&rt, control(a, "/c0", &[(true, pids)]), not_available(pids))?;
    t.refused(
        &rt,
        control(a, "/c0", &[(true, memory), (true, pids)]),
        not_available(pids),
    )?;
    t.refused(
        &rt,
        set(a, "/c0/c00", file, Limit::At(0)),
        Refusal::NoSuchFile {
            entry: EntryName::File(file),
        },
    )
}

#[test]
fn processes_and_controllers_exclude_each_other(rt: HostRuntime) -> Result<(), Fail> {
    let a = rt.alloc();
    let internal = Refusal::InternalProcess { len: 1 };
    let enable = [(true, Controller::Memory)];
    let mut t = Trial::new(&rt, a, 1000)?;
    assert!(rt; populate(a, &mut t.tree, 13, 1000, "/c0")?);
    t.refused(&rt, control(a, "/c0", &enable), internal)?;
    t.done(&rt, moved(a, 13, "/c0/c00"))?;
    t.done(&rt, control(a, "/c0", &enable))?;
    t.refused(&rt, moved(a, 13, "/c0"), internal)
}

#[test]
fn moves_ask_the_common_ancestor(rt: HostRuntime) -> Result<(), Fail> {
    let a = rt.alloc();
    let procs = EntryName::Procs;
    let mut t = Trial::new(&rt, a, 1000)?;
    t.refused(&rt, moved(a, 10, "/c0/c00"), no_access(0, procs))?;
    t.done(&rt, moved(a, 11, "/c0/c01"))?;
    t.refused(
        &rt,
        moved(a, 99, "/c0/c01"),
        Refusal::NoSuchProcess {
            pid: Pid::new(99).ok_or("pid")?,
        },
    )?;
    t.refused(&rt, moved(a, 11, "/zz"), Refusal::NoSuchCgroup { len: 1 })?;
    t.user = User::new(1).ok_or("uid")?;
    t.done(&rt, chmod(a, "/", procs, 0o646))?;
    t.user = User::new(1000).ok_or("uid")?;
    t.done(&rt, moved(a, 10, "/"))
}

#[test]
fn pids_stay_used(rt: HostRuntime) -> Result<(), Fail> {
    let a = rt.alloc();
    let mut t = Trial::new(&rt, a, 1000)?;
    t.done(&rt, fork(11, 12))?;
    t.done(&rt, exit(12))?;
    t.refused(
        &rt,
        fork(11, 12),
        Refusal::PidUsed {
            pid: Pid::new(12).ok_or("pid")?,
        },
    )?;
    t.user = User::new(1001).ok_or("uid")?;
    t.refused(
        &rt,
        exit(11),
        Refusal::NotYours {
            pid: Pid::new(11).ok_or("pid")?,
        },
    )?;
    t.refused(
        &rt,
        fork(99, 12),
        Refusal::NoSuchProcess {
            pid: Pid::new(99).ok_or("pid")?,
        },
    )?;
    t.refused(
        &rt,
        exit(99),
        Refusal::NoSuchProcess {
            pid: Pid::new(99).ok_or("pid")?,
        },
    )
}

#[test]
fn removed_cgroups_count_no_more(rt: HostRuntime) -> Result<(), Fail> {
    let a = rt.alloc();
    let mut t = Trial::new(&rt, a, 1000)?;
    t.done(&rt, mkdir(a, "/c0/a"))?;
    t.done(&rt, mkdir(a, "/c0/b"))?;
    t.refused(&rt, mkdir(a, "/c0/c"), Refusal::DescendantLimit { len: 1 })?;
    t.done(&rt, rmdir(a, "/c0/a"))?;
    t.done(&rt, mkdir(a, "/c0/c"))
}

#[test]
fn directories_are_made_and_removed(rt: HostRuntime) -> Result<(), Fail> {
    let a = rt.alloc();
    let mut t = Trial::new(&rt, a, 1000)?;
    t.refused(&rt, rmdir(a, "/"), Refusal::RootCgroup)?;
    t.refused(&rt, rmdir(a, "/c0"), no_access(0, EntryName::Dir))?;
    t.refused(&rt, rmdir(a, "/c0/c00"), Refusal::HasProcesses)?;
    t.done(&rt, exit(11))?;
    t.done(&rt, rmdir(a, "/c0/c00"))?;
    t.refused(&rt, mkdir(a, "/c0/c01"), Refusal::Exists)?;
    t.refused(&rt, mkdir(a, "/c0/q/r"), Refusal::NoSuchCgroup { len: 2 })?;
    t.refused(&rt, mkdir(a, "/d"), no_access(0, EntryName::Dir))?;
    t.refused(&rt, mkdir(a, "/"), Refusal::Exists)?;
    t.done(&rt, mkdir(a, "/c0/c01/x"))?;
    t.refused(&rt, rmdir(a, "/c0/c01"), Refusal::HasChildren)
}

#[test]
fn children_are_asked_before_processes(rt: HostRuntime) -> Result<(), Fail> {
    let a = rt.alloc();
    let mut t = Trial::new(&rt, a, 1000)?;
    t.done(&rt, mkdir(a, "/c0/c00/x"))?;
    t.refused(&rt, rmdir(a, "/c0/c00"), Refusal::HasChildren)
}

#[test]
fn controllers_are_enabled_from_the_top_down(rt: HostRuntime) -> Result<(), Fail> {
    let a = rt.alloc();
    let memory = Controller::Memory;
    let file = LimitFile::MemoryMax;
    let mut t = Trial::new(&rt, a, 1000)?;
    t.done(&rt, control(a, "/c0", &[(true, memory)]))?;
    t.done(&rt, set(a, "/c0/c00", file, Limit::At(4096)))?;
    t.done(&rt, control(a, "/c0", &[(false, memory), (true, memory)]))?;
    t.done(&rt, control(a, "/c0/c01", &[(true, memory)]))?;
    t.refused(
        &rt,
        control(a, "/c0", &[(false, memory)]),
        Refusal::ChildUses { controller: memory },
    )?;
    t.refused(
        &rt,
        control(a, "/c0/c00", &[(true, memory)]),
        Refusal::InternalProcess { len: 2 },
    )?;
    let kept = Path::parse(a, "/c0/c00")?;
    assert_eq!(rt;
        t.tree.get(&kept, 2).and_then(|row| row.limit(file)),
        Some(Limit::At(4096))
    );
    Ok(())
}

#[test]
fn limits_take_what_their_files_accept(rt: HostRuntime) -> Result<(), Fail> {
    let a = rt.alloc();
    let (file, memory) = (LimitFile::MaxDepth, LimitFile::MemoryMax);
    let mut t = Trial::new(&rt, a, 1000)?;
    t.done(&rt, set(a, "/c0/c00", file, Limit::At(9223372036854775807)))?;
    t.refused(
        &rt,
        set(a, "/c0/c00", file, Limit::At(9223372036854775808)),
        Refusal::BadValue { file },
    )?;
    t.done(&rt, set(a, "/c0/c00", file, Limit::At(0)))?;
    t.refused(&rt, mkdir(a, "/c0/c00/x"), Refusal::DepthLimit { len: 2 })?;
    t.refused(
        &rt,
        set(a, "/c0", memory, Limit::Max),
        no_access(1, EntryName::File(memory)),
    )
}

#[test]
fn owners_set_modes(rt: HostRuntime) -> Result<(), Fail> {
    let a = rt.alloc();
    let dir = EntryName::Dir;
    let file = LimitFile::MemoryMax;
    let memory = EntryName::File(file);
    let mut t = Trial::new(&rt, a, 1000)?;
    t.done(&rt, chmod(a, "/c0", dir, 0o555))?;
    t.refused(&rt, mkdir(a, "/c0/a"), no_access(1, dir))?;
    t.done(&rt, chmod(a, "/c0", dir, 0o755))?;
    t.done(&rt, mkdir(a, "/c0/a"))?;
    t.refused(
        &rt,
        chmod(a, "/zz", dir, 0o755),
        Refusal::NoSuchCgroup { len: 1 },
    )?;
    t.refused(
        &rt,
        chmod(a, "/c0/c00", memory, 0o644),
        Refusal::NoSuchFile { entry: memory },
    )?;
    t.refused(
        &rt,
        chmod(a, "/c0", memory, 0o666),
        Refusal::NotOwner { entry: memory },
    )
}

#[test]
fn what_a_user_makes_is_of_his_primary_group(rt: HostRuntime) -> Result<(), Fail> {
    let a = rt.alloc();
    let dir = EntryName::Dir;
    let mut t = Trial::new(&rt, a, 1000)?;
    t.user = User::with_groups(1000, &[50, 60]).ok_or("gids")?;
    t.done(&rt, mkdir(a, "/c0/x"))?;
    t.done(&rt, chmod(a, "/c0/x", dir, 0o775))?;
    t.user = User::with_groups(1002, &[50]).ok_or("gids")?;
    t.done(&rt, mkdir(a, "/c0/x/y"))?;
    t.user = User::with_groups(1003, &[60]).ok_or("gids")?;
    t.refused(&rt, mkdir(a, "/c0/x/z"), no_access(2, EntryName::Dir))?;
    t.user = User::new(1004).ok_or("uid")?;
    t.refused(&rt, rmdir(a, "/c0/x/y"), no_access(2, EntryName::Dir))
}
