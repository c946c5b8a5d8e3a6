//! Numbers.

ghost use Rattle.std.specs.Prelude.{◌≡◌, true, ◌≤◌, ◌<◌, MatchOption};
ghost use Rattle.std.specs.Char.{is_ascii_digit};
ghost use Rattle.std.specs.List.{list_all, prefix_len};
ghost use Rattle.rule_lexer.specs.Sorts.{begins};
ghost use Rattle.rule_lexer.specs.Spelling.{number_of};
ghost use Rattle.rule_lexer.specs.Reading.{Scanned};

use crate::tokens::{LexKind, NUMBER_LIMIT, TokenKind};

fn digits_len(bytes: &[u8]) -> usize
    ensures { result ≡ prefix_len is_ascii_digit bytes.now }
{
    bytes
        .iter()
        .take_while(|byte| byte.is_ascii_digit())
        .count()
}

fn number_of(digits: &[u8]) -> Option<u64>
    requires { list_all is_ascii_digit digits.now ≡ true }
    ensures { MatchOption result (NUMBER_LIMIT < number_of digits.now) (λ n. (n ≡ number_of digits.now) × (n ≤ NUMBER_LIMIT)) }
{
    let mut value: u64 = 0;
    for byte in digits {
        let digit = u64::from(*byte - b'0');
        if value > (NUMBER_LIMIT - digit) / 10 {
            return None;
        }
        value = value * 10 + digit;
    }
    Some(value)
}

/// The number that the bytes begin with, and how long it is.
pub fn number_at(bytes: &[u8]) -> Result<(TokenKind, usize), LexKind>
    requires { begins is_ascii_digit bytes.now ≡ true }
    ensures { Scanned bytes.now result }
{
    let len = digits_len(bytes);
    let digits = &bytes[..len];
    match number_of(digits) {
        Some(value) => Ok((TokenKind::Number(value), len)),
        None => Err(LexKind::NumberRange),
    }
}
