// Rows that have come or gone.
use ev_bind::Row;
use event_changes::Sign;

/// The numbers under which stores may have a row. They save a look-up where they are right, and nothing rests on them.
#[derive(Clone, Copy, Drop)]
pub struct Hint {
    pub goal: usize,
    pub support: usize,
}

/// A row of a step that has come or gone.
#[derive(Drop)]
pub struct Delta {
    pub sign: Sign,
    pub row: Row,
    pub hint: Hint,
}

impl Hint {
    /// Numbers under which hardly any row is.
    pub fn none() -> Hint {
        Hint {
            goal: usize::MAX,
            support: usize::MAX,
        }
    }
}
