//! The plan of checked rules: binary steps, with the indexes that they use.
#![tactic(auto)]

mod binarising;
mod bodies;
mod faults;
mod heads;
mod indexes;
mod laws;
mod names;
mod places;
mod ranks;
mod rules;
mod sharing;

pub use binarising::binarise;
pub use faults::{MOST_STEPS, PlanFault};
pub use laws::plans_have_each_index_once;
