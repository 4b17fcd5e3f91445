//! What is wrong with a tree text.
ghost use Rattle.std.specs.Prelude.{◌≡◌};
ghost use Rattle.cg_format.specs.declared.fault.TreeFault.TheVariants.{NoMemory as OutOfMemory};

use cg_cgroup::memory::NoMemory;
use std::alloc::{AllocError, AllocFailed};

/// Where in a tree text a fault is. Rows are numbered from 1 within their array.
#[derive(Clone, Copy, Debug, PartialEq, Eq)]
pub enum Place {
    Top,
    Cgroup(u32),
    Process(u32),
}

/// The first fault of a tree text, in the order in which texts are tested.
#[derive(Clone, Copy, Debug, PartialEq, Eq)]
pub enum TreeFault {
    /// Over 16777216 bytes, and none of format 4 that says at its beginning that it is large, or over 67108864.
    TooLong,
    /// The bytes are no TOML document.
    NotToml,
    /// A key is missing, unknown or of the wrong type.
    Shape(Place),
    /// The format is neither 1 nor 2 nor 4.
    Format,
    /// Over 4096 cgroups or over 4096 processes; in format 4 over 65536.
    TooMany,
    /// A text that should name a controller names none that the format has.
    BadController(Place),
    /// `path` is no path.
    BadPath(Place),
    /// A uid, a gid or a mode is out of range.
    BadEntry(Place),
    /// A limit file doesn't accept its value.
    BadValue(Place),
    /// The path is that of an earlier row.
    Duplicate(Place),
    /// No row is the root.
    NoRoot,
    /// The parent is no row.
    NoParent(Place),
    /// A row enables what its parent doesn't, or the root what there isn't.
    TopDown(Place),
    /// `files` names a limit file that doesn't stand at the cgroup.
    NoSuchFile(Place),
    /// A PID is out of range.
    BadPid(Place),
    /// The PID is that of an earlier row.
    DuplicatePid(Place),
    /// `at` is the path of no row.
    NoSuchPlace(Place),
    /// `at` names a cgroup that isn't the root and has something enabled.
    InternalProcess(Place),
    /// An allocation was refused.
    NoMemory,
}

impl From<NoMemory> for TreeFault {
    ghost from_gives = { λ _ fault. fault ≡ OutOfMemory };

    fn from(_error: NoMemory) -> TreeFault {
        TreeFault::NoMemory
    }
}

impl From<AllocError> for TreeFault {
    ghost from_gives = { λ _ fault. fault ≡ OutOfMemory };

    fn from(_error: AllocError) -> TreeFault {
        TreeFault::NoMemory
    }
}

impl<T: Drop> From<AllocFailed<T>> for TreeFault {
    ghost from_gives = { λ _ fault. fault ≡ OutOfMemory };

    fn from(_error: AllocFailed<T>) -> TreeFault {
        TreeFault::NoMemory
    }
}
