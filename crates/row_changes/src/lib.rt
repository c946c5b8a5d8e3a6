//! How the rows of a step change, which rows are partners of a row, what visits of partners give, and which rows are kept at a bound.
#![tactic(auto)]

mod caps;

pub use caps::{CapList, Reach, is_kept};
