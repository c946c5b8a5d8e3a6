//! The next token of a text.

ghost use Rattle.std.specs.Prelude.{◌≡◌, ℕ, List, Ok, Err, Some, None, false, ◌+◌, ◌<◌, ◌≤◌, length, drop, IfErr, IsErr, ◌↔◌, IsCharBoundary};
ghost use Rattle.rule_lexer.specs.Spelling.{IsToken};
ghost use Rattle.rule_lexer.specs.Places.{IfToken, IsLongest, NoneFrom, Faulty, skipped, first_place};
ghost use Rattle.rule_lexer.specs.Reading.{Scanned};
ghost use Rattle.rule_lexer.specs.declared.tokens.TokenKind.{TokenKind};

use crate::numbers::number_at;
use crate::signs::{mark_at, wild_at};
use crate::sorts::is_blank;
use crate::texts::text_at;
use crate::tokens::{LexFault, LexKind, Token, TokenKind};
use crate::words::word_at;

// How many bytes the blanks and comments take that the bytes begin with.
fn skipped(bytes: &[u8]) -> usize
    ensures value { result ≡ skipped false bytes.now }
    ensures within { result ≤ length bytes.now }
{
    let mut in_comment = false;
    for (index, byte) in bytes.iter().enumerate() {
        if !in_comment && *byte != b'#' && !is_blank(*byte) {
            return index;
        }
        in_comment = if in_comment {
            *byte != b'\n'
        } else {
            *byte == b'#'
        };
    }
    bytes.len()
}

// The token that the bytes begin with, and how long it is.
fn token_at(bytes: &[u8]) -> Result<(TokenKind, usize), LexKind>
    requires { 0 < length bytes.now }
    ensures { Scanned bytes.now result }
{
    match bytes[0] {
        b'a'..=b'z' | b'A'..=b'Z' => Ok(word_at(bytes)),
        b'0'..=b'9' => number_at(bytes),
        b'"' => text_at(bytes),
        b'_' => wild_at(bytes),
        _ => mark_at(bytes),
    }
}

/// The token that stands next in a text, behind blanks and comments.
pub fn next_token(text: &str, at: usize) -> Result<Option<Token>, LexFault>
    requires { IsCharBoundary text.now at }
    // None exactly where only blanks and comments follow.
    ensures none { (result ≡ Ok None) ↔ (first_place text.now at ≡ length text.now) }

    // A token is the longest at the first place that is neither blank nor comment.
    ensures place { IfToken result (λ t. t.from ≡ first_place text.now at) }
    ensures longest { IfToken result (λ t. IsLongest text.now t.kind t.from t.to) }
    ensures some { IfToken result (λ t. t.from < t.to) }
    ensures ends { IfToken result (λ t. IsCharBoundary text.now t.from × IsCharBoundary text.now t.to) }

    // A fault comes exactly where no token begins at that place.
    ensures exact { IsErr result ↔ ((first_place text.now at < length text.now) × NoneFrom text.now (first_place text.now at)) }
    ensures fault { IfErr result (λ f. f.at ≡ first_place text.now at) }
    ensures kind { IfErr result (λ f. Faulty f.kind (drop f.at text.now)) }
{
    let bytes = text.as_bytes();
    let from = at + skipped(&bytes[at..]);
    if from == bytes.len() {
        return Ok(None);
    }
    match token_at(&bytes[from..]) {
        Ok((kind, len)) => Ok(Some(Token {
            kind,
            from,
            to: from + len,
        })),
        Err(kind) => Err(LexFault { at: from, kind }),
    }
}

/// No bytes are tokens of two kinds before the same bytes, and no place has two longest tokens.
pub fn one_kind()
    ensures kind { (j k : TokenKind) (bytes rest : List ℕ) → IsToken j bytes rest → IsToken k bytes rest → j ≡ k }
    ensures token { (j k : TokenKind) (text : List ℕ) (from m n : ℕ)
        → IsLongest text j from m → IsLongest text k from n → (j ≡ k) × (m ≡ n) }
{}

#[cfg(test)]
mod tests;
