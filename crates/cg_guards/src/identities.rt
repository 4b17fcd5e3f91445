//! The uids and gids of some users, by which an entry that none of them reaches is passed over without asking it of each.
ghost use Rattle.std.specs.Prelude.{◌≡◌, Some, IfOk};
ghost use Rattle.cg_guards.specs.Reach.{AreIdentitiesOf, may_reach, AreCovered};

use cg_cgroup::memory::NoMemory;
use cg_cgroup::user::{Entry, User};
use std::alloc::Global;
use std::collections::BTreeSet;

/// The uids and the gids of some users.
#[derive(Drop)]
pub struct Identities {
    uids: BTreeSet<u32>,
    gids: BTreeSet<u32>,
}

impl Identities {
    /// Those of these users. Fails where memory is wanted.
    pub fn of(alloc: Global, users: &[User]) -> Result<Identities, NoMemory>
        ensures of { IfOk result (λ identities. AreIdentitiesOf identities users.now) }
        ensures covered { IfOk result (λ identities. AreCovered (Some identities) users.now) }
    {
        let mut identities = Identities {
            uids: BTreeSet::new(alloc),
            gids: BTreeSet::new(alloc),
        };
        for user in users {
            identities.uids.insert(user.uid())?;
            identities.gids.extend(user.gids())?;
        }
        Ok(identities)
    }

    /// Whether one of the users may reach an entry. Where all others write it that isn't looked into.
    pub fn may_reach(&self, entry: &Entry) -> bool
        ensures { result ≡ may_reach self.now entry.now }
    {
        entry.mode & 0o002 == 0o002
            || self.uids.contains(&entry.uid)
            || entry.mode & 0o020 == 0o020 && self.gids.contains(&entry.gid)
    }
}
