//! Why a step of a replay isn't made.
ghost use Rattle.std.specs.Prelude.{◌≡◌};
ghost use Rattle.cg_runs.specs.declared.fault.StepFault.{StepFault};

use cg_cgroup::memory::NoMemory;

/// Why a step of a replay isn't made.
#[derive(Clone, Copy, Debug, PartialEq, Eq)]
pub enum StepFault {
    /// 1: so many steps were made as a replay may have.
    TooManySteps,
    /// 2: an allocation was refused.
    NoMemory,
}

impl From<NoMemory> for StepFault {
    ghost from_gives = { λ _ fault. fault ≡ StepFault.NoMemory };

    fn from(_error: NoMemory) -> StepFault {
        StepFault::NoMemory
    }
}
