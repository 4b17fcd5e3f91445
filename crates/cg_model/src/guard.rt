//! The guards of a subtree against a user.
ghost use Rattle.std.specs.Prelude.{◌≡◌};
ghost use Rattle.cg_model.specs.GuardNames.{guard_name};

use cg_cgroup::files::EntryName;
use cg_cgroup::user::Entry;

/// What containment of a subtree against a user stands on, in the order in which it is asked.
#[derive(Clone, Copy, Debug, PartialEq, Eq)]
pub enum Guard {
    /// The user neither writes nor owns the `cgroup.procs` of a proper ancestor of the subtree, the nearest first.
    CommonAncestor,
    /// The user neither writes nor owns a limit file that stands at the subtree.
    LimitFile(EntryName),
    /// The user neither writes nor owns the `cgroup.subtree_control` of the subtree's parent.
    ParentControl,
    /// The user neither writes nor owns the directory of the subtree's parent.
    ParentDir,
    /// The subtree is within its own limits of descendants and depth.
    AlreadyOver,
}

impl Guard {
    /// The name in reports.
    pub fn name(self) -> &'static str
        ensures { result.now ≡ guard_name self }
    {
        match self {
            Guard::CommonAncestor => "common-ancestor",
            Guard::LimitFile(_) => "limit-file",
            Guard::ParentControl => "parent-control",
            Guard::ParentDir => "parent-dir",
            Guard::AlreadyOver => "already-over",
        }
    }
}

/// A guard that fails, and the cgroup at which it does: that of the first `len` names of the subtree's path.
#[derive(Clone, Copy, Debug, PartialEq, Eq)]
pub struct Failed {
    pub guard: Guard,
    pub len: usize,
}

/// An entry that is there, and the guard on it: that of this name at the first `len` names of the subtree's path.
#[derive(Clone, Copy, Debug, PartialEq, Eq)]
pub struct GuardedEntry {
    pub guard: Guard,
    pub len: usize,
    pub name: EntryName,
    pub entry: Entry,
}
