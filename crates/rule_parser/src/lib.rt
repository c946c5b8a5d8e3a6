//! Rules from the text of a rule file, and back.
#![tactic(auto)]

mod conditions;
mod faults;
mod heads;
mod ledger;
mod parsing;
mod patterns;
mod signs;
mod statements;
mod terms;

pub use faults::ParseFault;
pub use parsing::{one_meaning, parse};
pub use rule_grammar::Which;
pub use rule_writer::rules_text;
