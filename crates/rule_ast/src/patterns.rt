// Patterns of events.
use crate::conditions::Cond;
use event_model::{Op, PatAtom};

/// A pattern of events: its rows are bindings with spans.
#[derive(Drop)]
pub enum Pattern {
    Atom(PatAtom),
    Both(Op, Box<Pattern>, Box<Pattern>),
    Either(Box<Pattern>, Box<Pattern>),
    Where(Box<Pattern>, Cond),
    /// The rows of exactly this length in ticks.
    Exact(Box<Pattern>, u64),
    /// The rows of at most this length in ticks.
    Within(Box<Pattern>, u64),
    /// The rows of `before SEQ after` that no `before SEQ inner SEQ after` has.
    Not {
        inner: Box<Pattern>,
        before: Box<Pattern>,
        after: Box<Pattern>,
    },
}
