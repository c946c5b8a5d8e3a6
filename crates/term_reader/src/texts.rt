// Texts between quotes.
ghost use Rattle.std.specs.Prelude.{◌≡◌, ◌≤◌, ◌<◌, ◌++◌, ◌∷◌, [], true, false, length, drop, IfOk, OnOk, MatchOption, IsUtf8};
ghost use Rattle.term_reader.specs.Signs.{is_plain, is_escape, escaped, status_first};
ghost use Rattle.term_reader.specs.Readings.{SignAt, LetterAt, TextAt, MaybeHigh, MaybeEscape, MaybeNeed, begins, is_high, is_quote, is_special};

use crate::faults::TermFault;
use crate::peeking::sign_at;
use crate::signs::{Need, Sign, Status, next_status, status_first};
use event_model::Name;
use std::alloc::{AllocError, Global};

// The text of these bytes.
fn text_of(alloc: Global, bytes: Vec<u8>) -> Result<Name, AllocError>
    requires { IsUtf8 bytes.items }
    ensures { IfOk result (λ n. n ≡ bytes.items) }
{
    match String::from_utf8(bytes) {
        Ok(text) => Name::from_string(alloc, text),
        Err(_) => unreachable!(),
    }
}

// One more byte.
fn keep(text: &mut Vec<u8>, byte: u8) -> Result<(), AllocError>
    ensures { OnOk result (text.new.items ≡ text.old.items ++ byte ∷ []) }
{
    text.push(byte)?;
    Ok(())
}

fn is_plain(sign: Sign) -> bool
    ensures { result ≡ is_plain sign }
{
    match sign {
        Sign::Tab | Sign::Quote | Sign::Backslash | Sign::Control(_) | Sign::High(_) => false,
        _ => true,
    }
}

// A character that stands for itself.
fn plain_at(bytes: &[u8], at: usize, sign: Sign, text: &mut Vec<u8>) -> Result<usize, TermFault>
    requires sign { SignAt bytes.now at sign }
    requires other { is_special sign ≡ false }
    ensures { LetterAt bytes.now at text.old.items text.new.items result }
{
    if !is_plain(sign) {
        return Err(TermFault::Syntax(at));
    }
    keep(text, bytes[at])?;
    Ok(at + 1)
}

// What an escape stands for.
fn escape_of(sign: Sign) -> Option<u8>
    ensures { MaybeEscape sign result }
{
    match sign {
        Sign::Quote => Some(b'"'),
        Sign::Backslash => Some(b'\\'),
        Sign::Lower(b'n') => Some(b'\n'),
        Sign::Lower(b't') => Some(b'\t'),
        _ => None,
    }
}

// An escape, whose backslash stands at the place.
fn escape_at(bytes: &[u8], at: usize, text: &mut Vec<u8>) -> Result<usize, TermFault>
    requires { SignAt bytes.now at Sign.Backslash }
    ensures { LetterAt bytes.now at text.old.items text.new.items result }
{
    let Some(sign) = sign_at(bytes, at + 1) else {
        return Err(TermFault::Syntax(at + 1));
    };
    let Some(byte) = escape_of(sign) else {
        return Err(TermFault::Syntax(at + 1));
    };
    keep(text, byte)?;
    Ok(at + 2)
}

// How a character goes on behind its first byte.
fn need_of(first: u8) -> Option<Need>
    ensures { MaybeNeed (status_first first) result }
{
    match status_first(first) {
        Status::Needs(need) => Some(need),
        _ => None,
    }
}

fn high_at(bytes: &[u8], at: usize) -> Option<u8>
    requires { at ≤ length bytes.now }
    ensures { MaybeHigh bytes.now at result }
{
    match sign_at(bytes, at) {
        Some(Sign::High(byte)) => Some(byte),
        _ => None,
    }
}

// A character of two to four bytes.
fn wide_at(bytes: &[u8], at: usize, first: u8, text: &mut Vec<u8>) -> Result<usize, TermFault>
    requires { SignAt bytes.now at (Sign.High first) }
    ensures { LetterAt bytes.now at text.old.items text.new.items result }
{
    let Some(first_need) = need_of(first) else {
        return Err(TermFault::Syntax(at));
    };
    let mut need = first_need;
    let mut end = at + 1;
    while let Some(byte) = high_at(bytes, end) {
        match next_status(need, byte) {
            Status::Wrong => return Err(TermFault::Syntax(end)),
            Status::Whole => {
                text.extend_from_slice(&bytes[at..end + 1])?;
                return Ok(end + 1);
            }
            Status::Needs(next) => need = next,
        }
        end += 1;
    }
    Err(TermFault::Syntax(end))
}

// A character of a text, other than its last quote.
fn letter_at(bytes: &[u8], at: usize, sign: Sign, text: &mut Vec<u8>) -> Result<usize, TermFault>
    requires sign { SignAt bytes.now at sign }
    requires other { is_quote sign ≡ false }
    ensures { LetterAt bytes.now at text.old.items text.new.items result }
{
    match sign {
        Sign::Backslash => escape_at(bytes, at, text),
        Sign::High(first) => wide_at(bytes, at, first, text),
        _ => plain_at(bytes, at, sign, text),
    }
}

fn is_quote(sign: Sign) -> bool
    ensures { result ≡ is_quote sign }
{
    match sign {
        Sign::Quote => true,
        _ => false,
    }
}

/// The text whose first quote stands before the place, and the place behind its last quote.
pub(crate) fn text_at(alloc: Global, bytes: &[u8], at: usize) -> Result<(Name, usize), TermFault>
    requires { at ≤ length bytes.now }
    ensures { TextAt bytes.now at result }
{
    let mut text = Vec::new(alloc);
    let mut end = at;
    while let Some(sign) = sign_at(bytes, end) {
        if is_quote(sign) {
            return Ok((text_of(alloc, text)?, end + 1));
        }
        end = letter_at(bytes, end, sign, &mut text)?;
    }
    Err(TermFault::Syntax(end))
}
