//! Lines of events made of a number, so that a rule file can be tried on a large input that is the same each time.
#![tactic(auto)]

mod draws;
mod kinds;
mod lines;

pub use lines::{MOST_LINES, drill_lines};

#[cfg(test)]
mod tests;
