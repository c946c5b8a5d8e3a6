//! Rules as trees: patterns, conditions, rules and the statements of a file; and plans of binary steps.
#![tactic(auto)]

mod conditions;
mod limits;
mod patterns;
mod plans;
mod statements;
mod vars;

pub use conditions::{Calc, Cmp, Cond};
pub use limits::{MOST_STATEMENTS, MOST_TICKS};
pub use patterns::Pattern;
pub use plans::{Index, IndexId, Plan, Step, StepId};
pub use statements::{Rule, RuleSet, Statement};
pub use vars::{vars_of, vars_of_atom};
