//! Users, entries and modes.
use cg_cgroup::user::{Entry, Mode, User};
use std::test::Fail;

#[test]
fn first_class_decides(rt: HostRuntime) -> Result<(), Fail> {
    let user = User::with_groups(1000, &[5, 6]).ok_or("33 gids or uid 0")?;
    for (uid, gid, mode) in [(1000, 5, 0o200), (0, 5, 0o020), (0, 0, 0o002)] {
        let entry = Entry { uid, gid, mode };
        assert!(rt; user.may_write(&entry), "{uid} {gid} {mode}");
    }
    for (uid, gid, mode) in [(1000, 5, 0o577), (0, 6, 0o757), (0, 0, 0o775)] {
        let entry = Entry { uid, gid, mode };
        assert!(rt; !user.may_write(&entry), "{uid} {gid} {mode}");
    }
    Ok(())
}

#[test]
fn makes_users(rt: HostRuntime) -> Result<(), Fail> {
    let user = User::with_groups(1000, &[7, 5]).ok_or("33 gids or uid 0")?;
    assert_eq!(rt; user.uid(), 1000);
    assert_eq!(rt; user.primary(), Some(7));
    assert!(rt; user.in_group(5) && !user.in_group(6));
    assert_eq!(rt; user.gids().len(), 2);
    assert!(rt; User::new(0).is_none());
    assert!(rt; User::with_groups(1, &[9; 32]).is_some());
    assert!(rt; User::with_groups(1, &[9; 33]).is_none());
    let alone = User::new(7).ok_or("uid 0")?;
    assert_eq!(rt; alone.primary(), None);
    assert!(rt;
        alone.owns(&Entry {
            uid: 7,
            gid: 1,
            mode: 0
        }) && alone != user
    );
    let made = Entry::made_by(&user, Mode::FILE);
    assert_eq!(rt;
        made,
        Entry {
            uid: 1000,
            gid: 7,
            mode: 0o644
        }
    );
    Ok(())
}

#[test]
fn makes_modes(rt: HostRuntime) -> Result<(), Fail> {
    assert_eq!(rt; Mode::new(0o777).ok_or("over 0o777")?.get(), 0o777);
    assert!(rt; Mode::new(0o1000).is_none());
    assert_eq!(rt; Mode::DIRECTORY.get(), 0o755);
    Ok(())
}
