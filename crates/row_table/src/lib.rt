//! Rows under numbers, found by their hashes; each has a value at some steps.
#![tactic(auto)]

mod keys;
mod rows;
mod slack;
mod steps;

pub use keys::{Entry, KeyTable};
pub use rows::RowTable;
pub use steps::StepList;
