//! The values of conditions under a binding.
#![tactic(auto)]

mod conditions;
mod laws;
mod numbers;
mod same;
mod values;

pub use conditions::{holds, value_of};
pub use laws::arguments_are_exact;
pub use values::Value;
