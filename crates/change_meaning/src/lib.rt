//! What a list of changes of events does to each step of a plan: definitions and laws, for an evaluator that works by changes.
#![tactic(auto)]

mod laws;

pub use laws::{
    chains_are_found, changes_lead_to_the_events_after, kept_rows_have_a_course,
    plans_are_workable, shown_rows_are_what_changes, steps_get_and_lose_supports,
    turns_answer_by_their_units, visits_are_counted,
};
