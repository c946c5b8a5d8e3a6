//! How a set of events changes, what that changes of the detections, and how far the work on it is.
#![tactic(auto)]

mod changes;
mod events;

pub use changes::{Changed, Changes, Progress, Sign};
pub use events::EventChange;
