// How lines are answered, and what is counted of the answers.

/// How the lines of an input are answered.
#[derive(Clone, Copy, Debug, PartialEq, Eq)]
pub enum Voice {
    /// Each line by its reply, and then the end.
    Replies,
    /// As `Replies`, and behind each `ok N` stands how many rows and events are held then.
    Held,
    /// A line that is refused by its refusal; behind the last line stands what stands then, and the end.
    Refusals,
    /// No line; behind the last one stands how many detections were told and withdrawn, how many visits of rows that took, and the
    /// most rows that were held.
    Counts,
}

/// How many detections were told and withdrawn, how many visits of rows were made, and how many rows were held at most.
#[derive(Clone, Copy, Debug, PartialEq, Eq)]
pub struct Tally {
    pub told: u128,
    pub withdrawn: u128,
    /// It stays at 2^128 - 1 once it is there.
    pub visits: u128,
    /// The most rows that were held behind a line that is told as accepted.
    pub held: u64,
}
