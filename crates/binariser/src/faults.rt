// Why no plan is made.
use std::alloc::{AllocError, AllocFailed};
use thiserror::Error;

/// The most steps of a plan.
pub const MOST_STEPS: usize = 65_536;

/// Why no plan is made.
#[derive(Debug, Drop, Error)]
pub enum PlanFault {
    /// There would be more than 65,536 steps.
    #[error("over 65536 steps")]
    TooMany,
    #[error("out of memory")]
    Memory,
}

impl From<AllocError> for PlanFault {
    ghost use Rattle.std.specs.Prelude.{◌≡◌};
    ghost use Rattle.binariser.specs.declared.faults.PlanFault.TheVariants.{Memory};

    ghost from_gives = { λ _ r. r ≡ Memory };

    fn from(_error: AllocError) -> PlanFault {
        PlanFault::Memory
    }
}

impl<T: Drop> From<AllocFailed<T>> for PlanFault {
    ghost use Rattle.std.specs.Prelude.{◌≡◌};
    ghost use Rattle.binariser.specs.declared.faults.PlanFault.TheVariants.{Memory};

    ghost from_gives = { λ _ r. r ≡ Memory };

    fn from(_error: AllocFailed<T>) -> PlanFault {
        PlanFault::Memory
    }
}
