//! Tests: runs in each of the program's modes, and runs over random rules and lines beside the plain evaluator.
#![tactic(auto)]

#[cfg(test)]
mod agreement;
#[cfg(test)]
mod fixtures;
#[cfg(test)]
mod modes;
