//! The operators between two spans: which spans pair, on which span, and in which range the partners of a span lie.
#![tactic(auto)]

mod laws;
mod pairs;
mod ranges;

pub use laws::{pairs_span_both, partners_lie_in_range, ranges_are_exact, windows_cut_pairs};
pub use pairs::pair;
pub use ranges::{Range, Side, in_range, partner_range};

#[cfg(test)]
mod tests;
