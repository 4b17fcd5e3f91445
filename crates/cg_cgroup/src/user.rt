//! Users, and who owns and writes an entry.
ghost use Rattle.std.specs.Prelude.{◌≡◌, ◌≤◌, []};
ghost use Rattle.cg_cgroup.specs.Numbers.{mode_of};
ghost use Rattle.cg_cgroup.specs.Users.{IsUser, in_group, primary, owns, writes, reaches, user_of, entry_made_by};

use arrayvec::ArrayVec;
use std::marker::Model;

/// The owner, the group and the mode of a directory or a file.
#[derive(Clone, Copy, Debug, PartialEq, Eq)]
pub struct Entry {
    pub uid: u32,
    pub gid: u32,
    pub mode: u16,
}

impl Entry {
    /// The entry of a file of which nothing is said: root's, with mode 0o644.
    pub const ROOT_FILE: Entry = Entry {
        uid: 0,
        gid: 0,
        mode: 0o644,
    };

    /// The entry of what a user makes: it is theirs, and their primary group's, or group 0's where they have none.
    pub fn made_by(user: &User, mode: Mode) -> Entry
        ensures { result ≡ entry_made_by user.now mode }
    {
        Entry {
            uid: user.uid(),
            gid: user.primary().unwrap_or(0),
            mode: mode.get(),
        }
    }
}

/// The permission bits of an entry, 0 to 0o777.
#[derive(Clone, Copy, Debug, PartialEq, Eq)]
pub struct Mode {
    bits: u16,
}

impl Model for Mode {
    ghost use Rattle.std.specs.Prelude.{ℕ, ◌≤◌};

    ghost Value = { ℕ };

    ghost view = { λ m. m.bits };

    ghost invariant = { λ m. m.bits ≤ 511 };

    ghost inverse = { λ n. record { bits = n } };
}

impl Mode {
    /// The mode of a directory that has just been made.
    pub const DIRECTORY: Mode = Mode { bits: 0o755 };
    /// The mode of a file that has just been made.
    pub const FILE: Mode = Mode { bits: 0o644 };

    /// The mode of these bits; `None` over 0o777.
    pub fn new(bits: u16) -> Option<Mode>
        ensures { result ≡ mode_of bits }
    {
        if bits > 0o777 {
            return None;
        }
        Some(Mode { bits })
    }

    /// The bits.
    pub fn get(self) -> u16
        ensures value { result ≡ self }
        ensures range { result ≤ 511 }
    {
        self.bits
    }
}

/// A user: a uid other than 0, and up to 32 gids, of which the first is the primary one.
#[derive(Debug, Drop, PartialEq, Eq)]
pub struct User {
    uid: u32,
    gids: ArrayVec<u32, 32>,
}

impl Model for User {
    ghost use Rattle.cg_cgroup.specs.Identity.{Identity};
    ghost use Rattle.cg_cgroup.specs.Users.{IsUser};

    ghost Value = { Identity };

    ghost view = { λ u. record { uid = u.uid; gids = u.gids.items } };

    ghost invariant = { λ u. IsUser (record { uid = u.uid; gids = u.gids.items }) };

    ghost inverse = { λ i. record { uid = i.uid; gids = record { items = i.gids } } };
}

impl User {
    /// A user who is in no group; `None` for uid 0.
    pub fn new(uid: u32) -> Option<User>
        ensures { result ≡ user_of uid [] }
    {
        User::with_groups(uid, &[])
    }

    /// A user who is in these groups, of which the first is their primary one; `None` for uid 0 or over 32 gids.
    pub fn with_groups(uid: u32, gids: &[u32]) -> Option<User>
        ensures { result ≡ user_of uid gids.now }
    {
        if uid == 0 {
            return None;
        }
        let gids = ArrayVec::try_from(gids).ok()?;
        Some(User { uid, gids })
    }

    /// The uid, which isn't 0.
    pub fn uid(&self) -> u32
        ensures uid { result ≡ self.now.uid }
        ensures user { IsUser self.now }
    {
        self.uid
    }

    /// The gids, at most 32, as they were given.
    pub fn gids(&self) -> &[u32]
        ensures gids { result.now ≡ self.now.gids }
        ensures user { IsUser self.now }
    {
        self.gids.as_slice()
    }

    /// Whether a gid is among the user's.
    pub fn in_group(&self, gid: u32) -> bool
        ensures { result ≡ in_group self.now gid }
    {
        self.gids().contains(&gid)
    }

    /// The first gid, where there is one.
    pub fn primary(&self) -> Option<u32>
        ensures { result ≡ primary self.now }
    {
        self.gids().first().copied()
    }

    /// Whether the entry's uid is the user's.
    pub fn owns(&self, entry: &Entry) -> bool
        ensures { result ≡ owns self.now entry.now }
    {
        entry.uid == self.uid
    }

    /// Whether the user writes an entry: the first of owner, group and others that they belong to decides.
    #[tactic(auto, unfolding(crate::specs::Users::writes))]
    pub fn may_write(&self, entry: &Entry) -> bool
        ensures { result ≡ writes self.now entry.now }
    {
        let bit = if self.owns(entry) {
            0o200
        } else if self.in_group(entry.gid) {
            0o020
        } else {
            0o002
        };
        entry.mode & bit == bit
    }

    /// Whether the user writes or owns an entry.
    pub fn reaches(&self, entry: &Entry) -> bool
        ensures { result ≡ reaches self.now entry.now }
    {
        self.may_write(entry) || self.owns(entry)
    }
}
