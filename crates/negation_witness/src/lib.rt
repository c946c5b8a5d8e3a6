//! Negation: joined rows are tested for a chain that gives them.
#![tactic(auto)]

mod blocking;
mod looking;
mod places;
mod settling;
mod subtracting;
mod ways;
mod witnesses;

pub use blocking::blocked;
pub use places::TestPlace;
pub use settling::settle_tests;
pub use subtracting::MinusStep;
pub use ways::MinusWay;
pub use witnesses::Witnesses;
