//! By what users get in at an entry.
ghost use Rattle.std.specs.Prelude.{◌≡◌};
ghost use Rattle.cg_advice.specs.WayLines.{has_way};
ghost use Rattle.cg_advice.specs.Ways.{no_ways, ways_with, tells};

use cg_cgroup::user::{Entry, User};
use cg_model::mend::Class;

/// By what users get in at an entry: the classes by which they reach it, and on which sides of its group they stand.
#[derive(Clone, Copy, Debug, PartialEq, Eq)]
pub struct Ways {
    /// One owns it.
    pub owner: bool,
    /// One who doesn't own it is in its group.
    pub group: bool,
    /// One neither owns it nor is in its group.
    pub others: bool,
    /// One is in its group, an owner too.
    pub inside: bool,
    /// One isn't in its group, an owner too.
    pub outside: bool,
}

impl Ways {
    /// Those of no user.
    pub fn none() -> Ways
        ensures { result ≡ no_ways }
    {
        Ways {
            owner: false,
            group: false,
            others: false,
            inside: false,
            outside: false,
        }
    }

    /// These, and those of one more user.
    #[must_use]
    pub fn with(self, user: &User, entry: &Entry) -> Ways
        ensures { result ≡ ways_with self user.now entry.now }
    {
        let owns = user.owns(entry);
        let inside = user.in_group(entry.gid);
        Ways {
            owner: self.owner || owns,
            group: self.group || !owns && inside,
            others: self.others || !owns && !inside,
            inside: self.inside || inside,
            outside: self.outside || !inside,
        }
    }

    /// Whether these say all of an entry that one more user would add.
    pub fn tells(self, user: &User, entry: &Entry) -> bool
        ensures { result ≡ tells self user.now entry.now }
    {
        let inside = user.in_group(entry.gid);
        let class = if user.owns(entry) {
            self.owner
        } else if inside {
            self.group
        } else {
            self.others
        };
        let side = if inside { self.inside } else { self.outside };
        class && side
    }

    /// Whether one gets in by a class.
    pub fn has(self, class: Class) -> bool
        ensures { result ≡ has_way self class }
    {
        match class {
            Class::Owner => self.owner,
            Class::Group => self.group,
            Class::Others => self.others,
        }
    }
}
