//! An example of a program that uses the engine: it watches parcels by rules, and reports of each event what that changes.
#![tactic(auto)]

mod faults;
mod resting;
#[cfg(test)]
mod tests;
mod watch;

pub use faults::WatchFault;
pub use resting::Resting;
pub use watch::{DAY, Report, Watch};
