//! Rules written as canonical text.
#![tactic(auto)]

mod conditions;
mod heads;
mod patterns;
mod round_trip;
mod statements;
mod terms;
mod texts;

pub use round_trip::rule_files_are_read_back;
pub use statements::rules_text;
