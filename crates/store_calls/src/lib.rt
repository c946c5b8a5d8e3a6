//! Tests: public calls of the crates of plans, of the stores of rows, and of the partners of a row.
#![tactic(auto)]

#[cfg(test)]
mod counts;
#[cfg(test)]
mod fixtures;
#[cfg(test)]
mod plans;
#[cfg(test)]
mod stores;
#[cfg(test)]
mod tables;
