//! The lines of replies, appended to a buffer. Where memory fails, nothing is appended.
#![tactic(auto)]

mod lines;

pub use event_model::Refusal;
pub use lines::{change_text, drill_text, end_text, held_text, ok_text, refusal_text};
