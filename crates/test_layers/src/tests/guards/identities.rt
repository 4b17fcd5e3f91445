//! Which entries are out of reach by the uids and gids of users.
use cg_cgroup::user::{Entry, User};
use cg_guards::identities::Identities;
use std::test::Fail;

/// Uids, gids and modes of entries.
const REACHED: [(u32, u32, u16); 5] = [
    (1000, 0, 0o444),
    (1001, 0, 0o444),
    (0, 50, 0o775),
    (0, 51, 0o464),
    (0, 52, 0o757),
];

const OUT_OF_REACH: [(u32, u32, u16); 4] = [
    (0, 0, 0o755),
    (50, 1000, 0o775),
    (0, 51, 0o755),
    (0, 52, 0o775),
];

#[test]
fn entries_are_out_of_reach_by_owner_group_and_mode(rt: HostRuntime) -> Result<(), Fail> {
    let mut users = Vec::new(rt.alloc());
    users.push(User::new(1000).ok_or("user")?)?;
    users.push(User::with_groups(1001, &[50, 51]).ok_or("user")?)?;
    let identities = Identities::of(rt.alloc(), users.as_slice())?;
    for (entries, may) in [(REACHED.as_slice(), true), (OUT_OF_REACH.as_slice(), false)] {
        for (uid, gid, mode) in entries {
            let (uid, gid, mode) = (*uid, *gid, *mode);
            let entry = Entry { uid, gid, mode };
            assert_eq!(rt; identities.may_reach(&entry), may, "{uid} {gid} {mode}");
        }
    }
    Ok(())
}
