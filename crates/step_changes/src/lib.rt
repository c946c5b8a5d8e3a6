//! What a step adds and takes away while a change goes through it, and how that changes its rows.
#![tactic(auto)]

mod deltas;
mod finishing;
mod noting;
mod pending;
mod pushing;

pub use deltas::{Delta, Hint};
pub use finishing::finish;
pub use noting::{fits, note_each, note_item};
pub use pending::{Pending, Tally};
