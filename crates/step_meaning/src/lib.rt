//! What the rows of the steps of a plan are, which plan the rules of a file have, and what holds of it.
#![tactic(auto)]

mod laws;

pub use laws::{
    past_rows_stay, rows_depend_on_the_events_of_their_span, steps_have_the_rows_of_names,
};
