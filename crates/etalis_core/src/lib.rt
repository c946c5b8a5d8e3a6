//! An engine over rules: it takes inputs one at a time, and tells after each that settles something what changed of the detections
//! that stand.
#![tactic(auto)]

mod apart;
mod engine;
mod faults;
mod held;
mod judging;
mod ledger;
mod present;
mod roll;

pub use apart::EngineParts;
pub use engine::Engine;
pub use faults::{EngineFault, StartFault};
pub use held::Held;
pub use present::MOST_COPIES;
pub use roll::Roll;
