//! How long the rows of each step of a plan count, in one pass up over the steps and one down; and the rows that count no more go.
#![tactic(auto)]

mod caps;
mod expiries;
mod purging;
mod ticks;

pub use caps::{caps_of, lengths};
pub use expiries::Expiries;
pub use purging::purge;
