//! Reads ground terms and atoms from bytes, with the exact place of each fault.
#![tactic(auto)]

mod faults;
mod numbers;
mod peeking;
mod reading;
pub mod signs;
mod texts;
mod trees;
mod words;

pub use faults::TermFault;
pub use numbers::NUMBER_LIMIT;
pub use reading::{read_atom, read_ground};
