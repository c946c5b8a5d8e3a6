// What a byte is to the grammars of terms and lines, and which bytes are a character.
ghost use Rattle.std.specs.Prelude.{◌≡◌};
ghost use Rattle.term_reader.specs.Signs.{sign_of, DigitFits, status_first, status_more, status_next, needs};

/// Bytes from here on are parts of characters of several bytes.
pub const ASCII_LIMIT: u8 = 128;

/// What a byte is to the grammar; `_` is among the upper letters, and a digit has its value.
#[derive(Clone, Copy)]
pub enum Sign {
    Space,
    Tab,
    Digit(u8),
    Lower(u8),
    Upper(u8),
    Open,
    Close,
    Comma,
    Quote,
    Backslash,
    Minus,
    Plus,
    Control(u8),
    High(u8),
    Other(u8),
}

/// How a character goes on: with a byte from `low` to `high`, and then with `more` bytes from 0x80 to 0xBF.
#[derive(Clone, Copy)]
pub struct Need {
    pub low: u8,
    pub high: u8,
    pub more: u8,
}

/// How far bytes from 0x80 on are a character of UTF-8.
#[derive(Clone, Copy)]
pub enum Status {
    Wrong,
    Whole,
    Needs(Need),
}

/// The sign of a byte.
pub fn classify(byte: u8) -> Sign
    ensures sign { result ≡ sign_of byte }
    ensures digit { DigitFits result }
{
    match byte {
        b' ' => Sign::Space,
        b'\t' => Sign::Tab,
        b'(' => Sign::Open,
        b')' => Sign::Close,
        b',' => Sign::Comma,
        b'"' => Sign::Quote,
        b'\\' => Sign::Backslash,
        b'-' => Sign::Minus,
        b'+' => Sign::Plus,
        b'_' => Sign::Upper(byte),
        _ => {
            if byte < b' ' {
                Sign::Control(byte)
            } else if byte >= ASCII_LIMIT {
                Sign::High(byte)
            } else if byte >= b'0' && byte <= b'9' {
                Sign::Digit(byte - b'0')
            } else if byte >= b'a' && byte <= b'z' {
                Sign::Lower(byte)
            } else if byte >= b'A' && byte <= b'Z' {
                Sign::Upper(byte)
            } else {
                Sign::Other(byte)
            }
        }
    }
}

// A character that goes on so.
fn needs(low: u8, high: u8, more: u8) -> Status
    ensures { result ≡ needs low high more }
{
    Status::Needs(Need { low, high, more })
}

/// The status of a first byte.
pub fn status_first(byte: u8) -> Status
    ensures { result ≡ status_first byte }
{
    if byte < 0xC2 {
        Status::Wrong
    } else if byte < 0xE0 {
        needs(0x80, 0xBF, 0)
    } else if byte < 0xE1 {
        needs(0xA0, 0xBF, 1)
    } else if byte < 0xED {
        needs(0x80, 0xBF, 1)
    } else if byte < 0xEE {
        needs(0x80, 0x9F, 1)
    } else if byte < 0xF0 {
        needs(0x80, 0xBF, 1)
    } else if byte < 0xF1 {
        needs(0x90, 0xBF, 2)
    } else if byte < 0xF4 {
        needs(0x80, 0xBF, 2)
    } else if byte < 0xF5 {
        needs(0x80, 0x8F, 2)
    } else {
        Status::Wrong
    }
}

/// The status with one more byte.
pub fn status_more(status: Status, byte: u8) -> Status
    ensures { result ≡ status_more status byte }
{
    match status {
        Status::Needs(need) => next_status(need, byte),
        _ => Status::Wrong,
    }
}

pub(crate) fn next_status(need: Need, byte: u8) -> Status
    ensures { result ≡ status_more (Status.Needs need) byte }
{
    if byte < need.low || byte > need.high {
        Status::Wrong
    } else if need.more == 0 {
        Status::Whole
    } else {
        needs(0x80, 0xBF, need.more - 1)
    }
}
