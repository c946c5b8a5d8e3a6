//! The job that the words of a command line say.
#![tactic(auto)]

mod jobs;
mod laws;
mod requests;
#[cfg(test)]
mod tests;
mod words;

pub use jobs::{
    Job, LINES_UNSAID, MOST_LATE, MOST_LINES, MOST_SEED, Mode, SEED_UNSAID, WordsFault,
};
pub use laws::{accounts_are_as_written, no_words_say_two_jobs};
pub use words::run_words;
