//! The grammar of rule files: which tokens are a text of it, what the text says, and where its limits are.
#![tactic(auto)]

mod faults;
mod laws;
mod limits;

pub use faults::{Fault, Which};
pub use laws::texts_are_shaped;
pub use limits::{MOST_BRACKETS, MOST_PARTS};
