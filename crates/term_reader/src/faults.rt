// Why no term or atom is read.
use std::alloc::AllocError;
use thiserror::Error;

/// Why no term or atom is read. A place is that of the first byte with which none goes on, or the length where the bytes end
/// too early.
#[derive(Debug, Drop, Error)]
pub enum TermFault {
    #[error("syntax at {0}")]
    Syntax(usize),
    /// At the `(` that would give a term a depth over `MOST_DEPTH`.
    #[error("too deep at {0}")]
    TooDeep(usize),
    /// At the `,` behind `MOST_ARGUMENTS` arguments.
    #[error("too wide at {0}")]
    TooWide(usize),
    /// At the digit that leaves an `i64`.
    #[error("a number out of range at {0}")]
    NumberRange(usize),
    #[error("out of memory")]
    Memory,
}

impl From<AllocError> for TermFault {
    ghost use Rattle.std.specs.Prelude.{◌≡◌};
    ghost use Rattle.term_reader.specs.declared.faults.TermFault.TheVariants.{Memory};

    ghost from_gives = { λ _ r. r ≡ Memory };

    fn from(_error: AllocError) -> TermFault {
        TermFault::Memory
    }
}
