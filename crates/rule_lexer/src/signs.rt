//! Signs and the wildcard.

ghost use Rattle.std.specs.Prelude.{◌≡◌, true};
ghost use Rattle.rule_lexer.specs.Sorts.{is_sign, is_underscore, begins};
ghost use Rattle.rule_lexer.specs.Reading.{pair_mark, single_mark, stop_mark, two_mark, lone_mark, Scanned};

use crate::sorts::{begins_with_digit, begins_with_word};
use crate::tokens::{LexKind, Mark, TokenKind};

fn pair_mark(first: u8, second: u8) -> Option<Mark>
    ensures { result ≡ pair_mark first second }
{
    match second {
        b'-' if first == b'<' => Some(Mark::Arrow),
        b'=' if first == b'!' => Some(Mark::NotEqual),
        b'=' if first == b'<' => Some(Mark::LessEqual),
        b'=' if first == b'>' => Some(Mark::GreaterEqual),
        b'[' if first == b'.' => Some(Mark::Limits),
        _ => None,
    }
}

// The use of a stop by itself, where this stands behind it.
fn stop_mark(behind: &[u8]) -> Option<Mark>
    ensures { result ≡ stop_mark behind.now }
{
    if begins_with_digit(behind) {
        return Some(Mark::Length);
    }
    match behind.first() {
        Some(b'[') => None,
        _ => Some(Mark::End),
    }
}

fn single_mark(first: u8) -> Option<Mark>
    ensures { result ≡ single_mark first }
{
    match first {
        b'(' => Some(Mark::OpenRound),
        b')' => Some(Mark::CloseRound),
        b'[' => Some(Mark::OpenSquare),
        b']' => Some(Mark::CloseSquare),
        b',' => Some(Mark::Comma),
        b'+' => Some(Mark::Plus),
        b'-' => Some(Mark::Minus),
        b'*' => Some(Mark::Star),
        b'/' => Some(Mark::Slash),
        b'%' => Some(Mark::Percent),
        b'=' => Some(Mark::Equal),
        b'<' => Some(Mark::Less),
        b'>' => Some(Mark::Greater),
        b'&' => Some(Mark::Both),
        b'|' => Some(Mark::Either),
        b'!' => Some(Mark::Bang),
        _ => None,
    }
}

// A sign of two bytes.
fn two_mark(first: u8, behind: &[u8]) -> Option<Mark>
    ensures { result ≡ two_mark first behind.now }
{
    match behind.first() {
        Some(second) => pair_mark(first, *second),
        None => None,
    }
}

// A sign of one byte, where this stands behind it.
fn lone_mark(first: u8, behind: &[u8]) -> Option<Mark>
    ensures { result ≡ lone_mark first behind.now }
{
    if first == b'.' {
        return stop_mark(behind);
    }
    single_mark(first)
}

/// The sign that the bytes begin with, and how long it is.
pub fn mark_at(bytes: &[u8]) -> Result<(TokenKind, usize), LexKind>
    requires { begins is_sign bytes.now ≡ true }
    ensures { Scanned bytes.now result }
{
    let first = bytes[0];
    let behind = &bytes[1..];
    if let Some(mark) = two_mark(first, behind) {
        return Ok((TokenKind::Mark(mark), 2));
    }
    if let Some(mark) = lone_mark(first, behind) {
        return Ok((TokenKind::Mark(mark), 1));
    }
    Err(LexKind::Byte)
}

/// The wildcard that the bytes begin with, and how long it is.
pub fn wild_at(bytes: &[u8]) -> Result<(TokenKind, usize), LexKind>
    requires { begins is_underscore bytes.now ≡ true }
    ensures { Scanned bytes.now result }
{
    if begins_with_word(&bytes[1..]) {
        return Err(LexKind::Byte);
    }
    Ok((TokenKind::Wild, 1))
}
