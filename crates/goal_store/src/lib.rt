//! The rows that the steps of a plan have, each as old, fresh or dying, and their indexes.
#![tactic(auto)]

mod built;
mod calls;
mod cursors;
mod goals;
mod held;
mod indexes;
mod kept;
mod marks;
mod places;
mod steps;
mod sweeping;
mod walks;

pub use cursors::Cursor;
pub use kept::GoalStore;
pub use marks::{Mark, When};
pub use row_changes::{CapList, Reach};
pub use walks::RowsFrom;
