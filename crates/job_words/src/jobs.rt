// Jobs, and why words say none.
use event_model::TIME_LIMIT;
use std::alloc::AllocError;
use thiserror::Error;

/// The most ticks of a lateness.
pub const MOST_LATE: u64 = TIME_LIMIT - 1;
/// The greatest seed.
pub const MOST_SEED: u64 = 4_294_967_295;
/// The most lines of a drill.
pub const MOST_LINES: u64 = 1_000_000;
/// The seed of a job whose words name none.
pub const SEED_UNSAID: u64 = 1;
/// The number of lines of a job whose words name none.
pub const LINES_UNSAID: u64 = 1000;

/// What the program does.
#[derive(Clone, Copy, Debug, PartialEq, Eq)]
pub enum Mode {
    Run,
    Check,
    Scratch,
    Held,
    Drill,
}

/// What the words ask for. The seed and the number of lines are for the mode `Drill`.
#[derive(Drop)]
pub struct Job {
    pub mode: Mode,
    pub rules: String,
    /// In ticks, below `TIME_LIMIT`.
    pub late: Option<u64>,
    pub seed: u64,
    pub lines: u64,
}

/// Why the words give no job.
#[derive(Clone, Copy, Debug, PartialEq, Eq, Error)]
pub enum WordsFault {
    #[error("the words are out of form")]
    Usage,
    #[error("no memory is left")]
    Memory,
}

impl From<AllocError> for WordsFault {
    ghost use Rattle.std.specs.Prelude.{◌≡◌};
    ghost use Rattle.job_words.specs.declared.jobs.WordsFault.TheVariants.{Memory};

    ghost from_gives = { λ _ f. f ≡ Memory };

    fn from(_error: AllocError) -> WordsFault {
        WordsFault::Memory
    }
}
