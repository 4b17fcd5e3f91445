//! Why no operation was read.
ghost use Rattle.std.specs.Prelude.{◌≡◌};
ghost use Rattle.cg_cgroup.specs.declared.path.PathFault.{PathFault};
ghost use Rattle.cg_lines.specs.declared.lines.fault.LineFault.{LineFault};
ghost use Rattle.cg_lines.specs.LineFaults.{lifted};

use cg_cgroup::memory::NoMemory;
use cg_cgroup::path::PathFault;

/// Why a line gave no operation.
#[derive(Clone, Copy, Debug, PartialEq, Eq)]
pub enum LineFault {
    /// The line has over 8192 bytes.
    TooLong = 1,
    /// The line is no operation's.
    BadWord = 2,
    /// The line's newline is missing. Only a replay, which sees where its input ends, answers this.
    Cut = 3,
    /// An allocation was refused.
    NoMemory = 4,
}

impl From<NoMemory> for LineFault {
    ghost from_gives = { λ _ fault. fault ≡ LineFault.NoMemory };

    fn from(_error: NoMemory) -> LineFault {
        LineFault::NoMemory
    }
}

impl From<PathFault> for LineFault {
    ghost from_gives = { λ path_fault fault. fault ≡ lifted path_fault };

    fn from(fault: PathFault) -> LineFault {
        match fault {
            PathFault::BadPath => LineFault::BadWord,
            PathFault::NoMemory => LineFault::NoMemory,
        }
    }
}
