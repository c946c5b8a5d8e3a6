// Why nothing is watched.
use etalis_core::EngineFault;
use rule_check::CheckFault;
use rule_parser::Which;
use std::alloc::AllocError;
use thiserror::Error;

/// Why nothing is watched.
#[derive(Debug, Drop, Error)]
pub enum WatchFault {
    #[error("rules: syntax at {0}")]
    Syntax(usize),
    #[error("rules: limit {0:?} at {1}")]
    Limit(Which, usize),
    #[error("rules: {0}")]
    Unsound(CheckFault),
    #[error("rules: over 65536 steps")]
    TooMany,
    #[error("out of memory")]
    Memory,
}

impl From<AllocError> for WatchFault {
    ghost use Rattle.std.specs.Prelude.{◌≡◌};
    ghost use Rattle.parcel_watch.specs.declared.faults.WatchFault.TheVariants.{Memory};

    ghost from_gives = { λ _ f. f ≡ Memory };

    fn from(_error: AllocError) -> WatchFault {
        WatchFault::Memory
    }
}

impl From<EngineFault> for WatchFault {
    ghost use Rattle.std.specs.Prelude.{◌≡◌};
    ghost use Rattle.parcel_watch.specs.declared.faults.WatchFault.TheVariants.{Memory};

    ghost from_gives = { λ _ f. f ≡ Memory };

    fn from(_fault: EngineFault) -> WatchFault {
        WatchFault::Memory
    }
}
