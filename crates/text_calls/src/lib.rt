//! Tests: public calls of the crates that read lines and that read and write rules.
#![tactic(auto)]

#[cfg(test)]
mod parses;
#[cfg(test)]
mod reads;
#[cfg(test)]
mod tokens;
#[cfg(test)]
mod writes;
