// Why a text is no rule file.
use rule_grammar::{Fault, Which};
use std::alloc::{AllocError, AllocFailed};
use thiserror::Error;

/// Why a text is no rule file. A place is that of a token's first byte, of a place where no token begins, or the length of the
/// text.
#[derive(Debug, Drop, Error)]
pub enum ParseFault {
    /// No text of the grammar goes on so.
    #[error("syntax at {0}")]
    Syntax(usize),
    /// The token there passes a limit.
    #[error("limit {0:?} at {1}")]
    Limit(Which, usize),
    #[error("out of memory")]
    Memory,
}

/// Why the reading of tokens stopped.
#[derive(Drop)]
pub enum Stop {
    Fault(Fault),
    Memory,
}

impl From<AllocError> for ParseFault {
    ghost use Rattle.std.specs.Prelude.{◌≡◌};
    ghost use Rattle.rule_parser.specs.declared.faults.ParseFault.TheVariants.{Memory};

    ghost from_gives = { λ _ r. r ≡ Memory };

    fn from(_error: AllocError) -> ParseFault {
        ParseFault::Memory
    }
}

impl From<AllocError> for Stop {
    ghost use Rattle.std.specs.Prelude.{◌≡◌};
    ghost use Rattle.rule_parser.specs.declared.faults.Stop.TheVariants.{Memory};

    ghost from_gives = { λ _ r. r ≡ Memory };

    fn from(_error: AllocError) -> Stop {
        Stop::Memory
    }
}

impl<T: Drop> From<AllocFailed<T>> for Stop {
    ghost use Rattle.std.specs.Prelude.{◌≡◌};
    ghost use Rattle.rule_parser.specs.declared.faults.Stop.TheVariants.{Memory};

    ghost from_gives = { λ _ r. r ≡ Memory };

    fn from(_error: AllocFailed<T>) -> Stop {
        Stop::Memory
    }
}
