//! Texts between quotes.

ghost use Rattle.std.specs.Prelude.{◌≡◌, true, false, ◌≤◌, IfOk, length};
ghost use Rattle.rule_lexer.specs.Sorts.{is_quote, begins};
ghost use Rattle.rule_lexer.specs.Spelling.{is_character, opens_escape};
ghost use Rattle.rule_lexer.specs.Reading.{text_end, text_stop, Scanned};

use crate::tokens::{LexKind, TokenKind};

fn is_character(escaped: bool, byte: u8) -> bool
    ensures { result ≡ is_character escaped byte }
{
    if escaped {
        byte == b'"' || byte == b'\\' || byte == b'n' || byte == b't'
    } else {
        byte >= b' ' && byte != b'"'
    }
}

// What a byte that is no character means, where so many characters stand before it.
fn text_stop(escaped: bool, before: usize, byte: u8) -> Result<usize, LexKind>
    ensures { result ≡ text_stop escaped before byte }
{
    if escaped {
        return Err(LexKind::BadEscape);
    }
    if byte == b'"' {
        return Ok(before);
    }
    Err(LexKind::OpenText)
}

// How many bytes stand between the quotes, behind the first of them.
fn text_end(inside: &[u8]) -> Result<usize, LexKind>
    ensures { result ≡ text_end false 0 inside.now }
{
    let mut escaped = false;
    for (index, byte) in inside.iter().enumerate() {
        if !is_character(escaped, *byte) {
            return text_stop(escaped, index, *byte);
        }
        escaped = !escaped && *byte == b'\\';
    }
    if escaped {
        return Err(LexKind::BadEscape);
    }
    Err(LexKind::OpenText)
}

/// The text that the bytes begin with, and how long it is with its quotes.
pub fn text_at(bytes: &[u8]) -> Result<(TokenKind, usize), LexKind>
    requires { begins is_quote bytes.now ≡ true }
    ensures { Scanned bytes.now result }
{
    let len = text_end(&bytes[1..])?;
    Ok((TokenKind::Text, len + 2))
}
