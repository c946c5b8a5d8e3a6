//! Tests: runs of the program's top call over objects in memory, and the paths by which callers name the library's parts.
#![tactic(auto)]

#[cfg(test)]
mod failing;
#[cfg(test)]
mod fixtures;
#[cfg(test)]
mod limits;
pub mod paths;
#[cfg(test)]
mod runs;
