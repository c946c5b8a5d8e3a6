//! Reads lines of the input, with the exact place of each fault.
#![tactic(auto)]

mod events;
mod faults;
mod parts;
mod peeking;
mod reading;
mod times;
mod whens;
mod words;

pub use event_model::{Input, Judgement};
pub use faults::LineFault;
pub use line_reader::{Line, LineReader};
pub use reading::{lines_are_heard_exactly, parse_line};
