//! Why tokens are no text of the grammar.

/// The limits of a rule file, in the order in which they are looked at.
#[derive(Clone, Copy, PartialEq, Eq, Debug)]
pub enum Which {
    /// `MOST_STATEMENTS` of a file.
    Statements,
    /// `MOST_PARTS` of a rule.
    Parts,
    /// `MOST_BRACKETS` open ones.
    Depth,
    /// `MOST_SLOTS` of a rule.
    Variables,
    /// `MOST_DEPTH` of a term.
    TermDepth,
    /// `MOST_ARGUMENTS` of an atom or a compound.
    TermWidth,
    /// `MOST_TICKS` of a length.
    Length,
}

/// A fault, with the number of tokens that are left from it on.
#[derive(Clone, Copy, PartialEq, Eq, Debug)]
pub enum Fault {
    /// No text of the grammar goes on with the next token, or ends where none is left.
    Syntax(usize),
    /// The next token passes a limit.
    Limit(Which, usize),
}
