//! How long and how far back the rows of each step of a plan count, which rows are kept at a bound, and that nothing else is needed.
#![tactic(auto)]

mod laws;

pub use laws::{
    accepted_inputs_change_what_is_recent, caps_are_sound, caps_are_those_of_users,
    kept_rows_renew_themselves, kept_rows_suffice_alone, listed_caps_keep_the_same,
    no_row_is_longer, nothing_that_counts_is_lost, operands_serve_users, past_rows_stay_kept,
    reaches_are_sums, sweeping_is_not_noticed,
};
