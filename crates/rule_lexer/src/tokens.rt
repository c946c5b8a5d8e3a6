use thiserror::Error;

/// The greatest value of a number, 2^63, which only a minus sign makes a term.
pub const NUMBER_LIMIT: u64 = 1 << 63;

/// A reserved word.
#[derive(Clone, Copy, PartialEq, Eq, Debug)]
pub enum Word {
    Seq,
    And,
    Par,
    Or,
    Equals,
    Meets,
    During,
    Starts,
    Finishes,
    Not,
    Where,
    Within,
    Show,
}

/// A sign. The last three are the uses of a stop.
#[derive(Clone, Copy, PartialEq, Eq, Debug)]
pub enum Mark {
    OpenRound,
    CloseRound,
    OpenSquare,
    CloseSquare,
    Comma,
    Arrow,
    Plus,
    Minus,
    Star,
    Slash,
    Percent,
    Equal,
    NotEqual,
    Less,
    LessEqual,
    Greater,
    GreaterEqual,
    Both,
    Either,
    Bang,
    Limits,
    Length,
    End,
}

#[derive(Clone, Copy, PartialEq, Eq, Debug)]
pub enum TokenKind {
    Name,
    Var,
    Word(Word),
    Wild,
    Number(u64),
    Text,
    Mark(Mark),
}

/// A token at its place: its lexeme is the slice of the text from `from` to `to`.
#[derive(Clone, Copy, PartialEq, Eq, Debug)]
pub struct Token {
    pub kind: TokenKind,
    pub from: usize,
    pub to: usize,
}

/// Why no token begins at a place.
#[derive(Clone, Copy, PartialEq, Eq, Debug)]
pub enum LexKind {
    Byte,
    OpenText,
    BadEscape,
    NumberRange,
}

/// A place where no token begins.
#[derive(Clone, Copy, PartialEq, Eq, Debug, Error)]
#[error("no token begins at byte {at}: {kind:?}")]
pub struct LexFault {
    pub at: usize,
    pub kind: LexKind,
}
