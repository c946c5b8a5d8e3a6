//! The work on changes of events: they go through all steps of a plan, in turns.
#![tactic(auto)]

mod apart;
mod applying;
mod expiring;
mod idling;
mod limits;
mod lists;
mod making;
mod parts;
mod telling;
mod work;

pub use apart::WorkParts;
pub use event_changes::{Changed, Changes, EventChange, Progress, Sign};
pub use work::Work;
