// The operators between two patterns, and the two edges of a span.

/// How the spans of two patterns lie to one another.
#[derive(Clone, Copy, Debug, PartialEq, Eq)]
pub enum Op {
    Seq,
    And,
    Par,
    Equals,
    Meets,
    During,
    Starts,
    Finishes,
}

#[derive(Clone, Copy, Debug, PartialEq, Eq)]
pub enum Edge {
    Start,
    End,
}
