// How much an engine keeps.

/// How many rows and how many events an engine keeps.
#[derive(Clone, Copy, Debug, PartialEq, Eq)]
pub struct Held {
    /// The rows of all steps that can still matter.
    pub rows: usize,
    /// The events that are present with a time of at least the bound.
    pub events: usize,
}
