//! Bindings of variables to terms, rows, and the matching of atoms.
#![tactic(auto)]

mod bindings;
mod hashing;
mod instances;
mod laws;
mod matching;
mod pairs;
mod projections;
mod rows;
mod unions;

pub use bindings::Binding;
pub use instances::{instance_atom, instance_of};
pub use laws::{extensions_are_exact, matches_are_exact, unions_are_exact};
pub use matching::{match_atom, match_values, number_values};
pub use rows::{Row, cmp_rows};
