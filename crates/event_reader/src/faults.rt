// Why a line isn't read.
use std::alloc::AllocError;
use term_reader::TermFault;
use thiserror::Error;

/// Why a line isn't read.
#[derive(Debug, Drop, Error)]
pub enum LineFault {
    /// From this place on no line of the grammar goes so, or here begins a second time that is less than the first.
    #[error("syntax at {0}")]
    Syntax(usize),
    #[error("out of memory")]
    Memory,
}

impl From<AllocError> for LineFault {
    ghost use Rattle.std.specs.Prelude.{◌≡◌};
    ghost use Rattle.event_reader.specs.declared.faults.LineFault.TheVariants.{Memory};

    ghost from_gives = { λ _ r. r ≡ Memory };

    fn from(_error: AllocError) -> LineFault {
        LineFault::Memory
    }
}

impl From<TermFault> for LineFault {
    ghost use Rattle.std.specs.Prelude.{◌≡◌};
    ghost use Rattle.event_reader.specs.Faults.{line_fault};

    ghost from_gives = { λ fault r. r ≡ line_fault fault };

    fn from(fault: TermFault) -> LineFault {
        match fault {
            TermFault::Syntax(at) => LineFault::Syntax(at),
            TermFault::TooDeep(at) => LineFault::Syntax(at),
            TermFault::TooWide(at) => LineFault::Syntax(at),
            TermFault::NumberRange(at) => LineFault::Syntax(at),
            TermFault::Memory => LineFault::Memory,
        }
    }
}
