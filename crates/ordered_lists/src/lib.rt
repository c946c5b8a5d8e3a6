//! Lists in a total order with each element once, as the sets of their elements.
#![tactic(auto)]

mod missing;
mod sorted;

pub use missing::push_all_missing;
pub use sorted::{insert_unique, is_member, sort_unique};
