//! Why words are no request.
ghost use Rattle.std.specs.Prelude.{◌≡◌, ◌≢◌, ◌⊎◌};
ghost use Rattle.clap.specs.Values.{kind_of};
ghost use Rattle.clap.specs.declared.error.kind.ErrorKind.TheVariants.{OutOfMemory};
ghost use Rattle.arguments.specs.declared.fault.ArgumentsFault.TheVariants.{Usage, NoMemory as MemoryFault};

use clap::error::ErrorKind;
use std::alloc::{AllocError, AllocFailed};

/// Why words are no request: they aren't as `--help` says, or an allocation was refused.
#[derive(Clone, Copy, Debug, PartialEq, Eq)]
pub enum ArgumentsFault {
    Usage,
    NoMemory,
}

impl From<AllocError> for ArgumentsFault {
    ghost from_gives = { λ _ fault. fault ≡ MemoryFault };

    fn from(_failed: AllocError) -> ArgumentsFault {
        ArgumentsFault::NoMemory
    }
}

impl<T: Drop> From<AllocFailed<T>> for ArgumentsFault {
    ghost from_gives = { λ _ fault. fault ≡ MemoryFault };

    fn from(_failed: AllocFailed<T>) -> ArgumentsFault {
        ArgumentsFault::NoMemory
    }
}

impl From<clap::Error> for ArgumentsFault {
    ghost from_gives = { λ error fault. ((fault ≡ Usage) × (kind_of error ≢ OutOfMemory))
        ⊎ ((fault ≡ MemoryFault) × (kind_of error ≡ OutOfMemory)) };

    fn from(error: clap::Error) -> ArgumentsFault {
        if error.kind() == ErrorKind::OutOfMemory {
            ArgumentsFault::NoMemory
        } else {
            ArgumentsFault::Usage
        }
    }
}
