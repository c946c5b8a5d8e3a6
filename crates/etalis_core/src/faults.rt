// Why an engine doesn't start or go on.
use std::alloc::AllocError;
use thiserror::Error;

/// Why an engine isn't made.
#[derive(Clone, Copy, Debug, PartialEq, Eq, Error)]
pub enum StartFault {
    /// The plan of the rules would have more than 65,536 steps.
    #[error("over 65536 steps")]
    TooMany,
    #[error("out of memory")]
    Memory,
}

impl From<AllocError> for StartFault {
    ghost use Rattle.std.specs.Prelude.{◌≡◌};
    ghost use Rattle.etalis_core.specs.declared.faults.StartFault.TheVariants.{Memory};

    ghost from_gives = { λ _ f. f ≡ Memory };

    fn from(_error: AllocError) -> StartFault {
        StartFault::Memory
    }
}

/// Why an engine doesn't go on: there is no memory, or an earlier call found none.
#[derive(Clone, Copy, Debug, PartialEq, Eq, Error)]
pub enum EngineFault {
    #[error("out of memory")]
    Memory,
    #[error("an earlier call was out of memory")]
    Spent,
}

impl From<AllocError> for EngineFault {
    ghost use Rattle.std.specs.Prelude.{◌≡◌};
    ghost use Rattle.etalis_core.specs.declared.faults.EngineFault.TheVariants.{Memory};

    ghost from_gives = { λ _ f. f ≡ Memory };

    fn from(_error: AllocError) -> EngineFault {
        EngineFault::Memory
    }
}
