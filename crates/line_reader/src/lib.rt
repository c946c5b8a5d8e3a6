//! Cuts bytes that come in pieces into lines.
#![tactic(auto)]

mod cutting;
mod reading;

pub use cutting::{first_lines_are_cut_off, given_lines_are_the_lines};
pub use reading::{Line, LineReader};
