//! The partners of changed rows at a join, one after the other, with pauses.
#![tactic(auto)]

mod joining;
mod matches;
mod meeting;
mod seekers;
mod ways;

pub use joining::{JoinStep, Place};
pub use matches::{MatchMark, Matches};
pub use ways::JoinWay;
