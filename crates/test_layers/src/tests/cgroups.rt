//! The entries and limits of one cgroup.
use cg_cgroup::cgroup::Cgroup;
use cg_cgroup::files::{Controller, ControllerSet, EntryName, Limit, LimitFile};
use cg_cgroup::user::{Entry, Mode, User};
use std::test::Fail;

#[test]
fn makes_and_refits(rt: HostRuntime) -> Result<(), Fail> {
    let maker = User::with_groups(1000, &[7]).ok_or("33 gids or uid 0")?;
    let other = User::new(1001).ok_or("uid 0")?;
    let memory = ControllerSet::none().with(Controller::Memory, true);
    let mut cgroup = Cgroup::made_by(&maker, memory);
    assert_eq!(rt;
        cgroup.dir,
        Entry {
            uid: 1000,
            gid: 7,
            mode: 0o755
        }
    );
    assert_eq!(rt; cgroup.limit(LimitFile::MemoryMin), Some(Limit::At(0)));
    assert_eq!(rt; cgroup.limit(LimitFile::CpuWeight), None);
    cgroup.set_value(LimitFile::MemoryMax, Limit::At(5));
    cgroup.refit(memory.with(Controller::Cpu, true), &other);
    assert_eq!(rt; cgroup.limit(LimitFile::MemoryMax), Some(Limit::At(5)));
    let weight = cgroup.file(LimitFile::CpuWeight).ok_or("no cpu.weight")?;
    assert_eq!(rt;
        weight.entry,
        Entry {
            uid: 1001,
            gid: 0,
            mode: 0o644
        }
    );
    cgroup.refit(ControllerSet::none(), &other);
    assert_eq!(rt; cgroup.file(LimitFile::MemoryMax), None);
    Ok(())
}

#[test]
fn other_files_come_and_go(rt: HostRuntime) -> Result<(), Fail> {
    let maker = User::with_groups(1000, &[7]).ok_or("33 gids or uid 0")?;
    let other = User::new(1001).ok_or("uid 0")?;
    let memory = ControllerSet::none().with(Controller::Memory, true);
    let mut cgroup = Cgroup::made_by(&maker, memory);
    let made = Entry::made_by(&maker, Mode::FILE);
    assert_eq!(rt; cgroup.freeze, Some(made));
    assert_eq!(rt; cgroup.other(Controller::Memory), Some(made));
    assert_eq!(rt; cgroup.other(Controller::Io), None);
    cgroup.refit(memory.with(Controller::Io, true), &other);
    assert_eq!(rt; cgroup.other(Controller::Memory), Some(made));
    let new = Entry::made_by(&other, Mode::FILE);
    assert_eq!(rt; cgroup.other(Controller::Io), Some(new));
    cgroup.refit(ControllerSet::none(), &other);
    assert_eq!(rt; cgroup.other(Controller::Memory), None);
    Ok(())
}

#[test]
fn sets_modes(rt: HostRuntime) -> Result<(), Fail> {
    let maker = User::new(1000).ok_or("uid 0")?;
    let mode = Mode::new(0o600).ok_or("over 0o777")?;
    let before = Cgroup::made_by(&maker, ControllerSet::none());
    for name in [EntryName::Procs, EntryName::File(LimitFile::MaxDepth)] {
        let mut cgroup = before;
        cgroup.set_mode(name, mode);
        assert_eq!(rt; cgroup.entry(name).ok_or("no entry")?.mode, 0o600);
        assert_eq!(rt; cgroup.entry(EntryName::Dir), before.entry(EntryName::Dir));
    }
    Ok(())
}
