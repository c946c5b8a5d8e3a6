//! How often each step has each row, and how many copies of each event there are.
#![tactic(auto)]

mod copies;
mod keeping;
mod kept;
mod supports;
mod times;

pub use copies::{Copies, MOST_COPIES};
pub use kept::Supports;
pub use supports::Change;

#[cfg(test)]
mod tests;
