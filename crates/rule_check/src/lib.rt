//! Whether a file of rules is sound: each variable is bound where it is used, each shown name heads a rule, and no name stands
//! on itself.
#![tactic(auto)]

mod checked;
mod checking;
mod dependencies;
mod faults;
mod gathering;
mod graph;
mod marking;
mod numbers;
mod offenders;
mod outside;
mod variables;

pub use checked::Checked;
pub use checking::check;
pub use faults::CheckFault;
