// Inputs, how they are judged, and why a line is refused.
use crate::events::Event;

/// The most bytes of a line, without its line feed and one carriage return before that.
pub const MOST_LINE_BYTES: usize = 65_536;

/// What a line says: a copy of an event comes, a copy is taken back, no event before a time comes any more, nothing, or that a
/// batch begins or is whole.
#[derive(Drop)]
pub enum Input {
    Add(Event),
    Take(Event),
    Advance(u64),
    Nothing,
    Begin,
    Commit,
}

/// How an input is judged after those that were accepted before it.
#[derive(Clone, Copy, Debug, PartialEq, Eq)]
pub enum Judgement {
    Fine,
    Batch,
    Below { bound: u64 },
    Absent,
}

/// Why a line is refused: it says nothing from this place on, it begins a batch in a batch or ends one where there is none, its
/// time is below this bound, or the event that it takes back isn't there.
#[derive(Clone, Copy, Debug, PartialEq, Eq)]
pub enum Refusal {
    Syntax(u64),
    Batch,
    Below(u64),
    Absent,
}
