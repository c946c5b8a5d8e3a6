//! Tests: public calls of the crates that say what terms, bindings, conditions and rules mean, and of the replies.
#![tactic(auto)]

#[cfg(test)]
mod bindings;
#[cfg(test)]
mod checks;
#[cfg(test)]
mod conditions;
#[cfg(test)]
mod finds;
#[cfg(test)]
mod fixtures;
#[cfg(test)]
mod replies;
#[cfg(test)]
mod slots;
#[cfg(test)]
mod terms;
