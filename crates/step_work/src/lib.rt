//! The work on one step of a plan, as far as some units go.
#![tactic(auto)]

mod given;
mod keys;
mod reading;
mod spots;
mod ways;

pub use reading::Reading;
pub use spots::Spot;
pub use ways::{StepWay, ways_of};
