//! Tests: public calls of the engine.
#![tactic(auto)]

#[cfg(test)]
mod fixtures;
#[cfg(test)]
mod turns;
