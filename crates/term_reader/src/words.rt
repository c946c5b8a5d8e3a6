// Names.
ghost use Rattle.std.specs.Prelude.{◌≡◌, ◌≤◌, ◌<◌, true, false, length, drop, IfOk, IsUtf8};
ghost use Rattle.term_reader.specs.Grammar.{between};
ghost use Rattle.term_reader.specs.Readings.{WordRead, NameRead, begins, is_word, is_lower};

use crate::peeking::sign_at;
use crate::signs::Sign;
use event_model::Name;
use std::alloc::{AllocError, Global};

// The place behind the rest of a word.
fn word_end(bytes: &[u8], at: usize) -> usize
    requires { at ≤ length bytes.now }
    ensures read { WordRead bytes.now at result }
    ensures over { begins is_word (drop result bytes.now) ≡ false }
{
    let mut end = at;
    while let Some(sign) = sign_at(bytes, end) {
        match sign {
            Sign::Lower(_) | Sign::Upper(_) | Sign::Digit(_) => end += 1,
            _ => return end,
        }
    }
    end
}

/// The text between two places.
pub(crate) fn text_between(
    alloc: Global,
    bytes: &[u8],
    at: usize,
    end: usize,
) -> Result<Name, AllocError>
    requires ordered { at ≤ end }
    requires inside { end ≤ length bytes.now }
    requires text { IsUtf8 (between at end bytes.now) }
    ensures { IfOk result (λ n. n ≡ between at end bytes.now) }
{
    match str::from_utf8(&bytes[at..end]) {
        Ok(text) => Name::new(alloc, text),
        Err(_) => unreachable!(),
    }
}

/// The name at a place, and the place behind it.
pub(crate) fn name_at(alloc: Global, bytes: &[u8], at: usize) -> Result<(Name, usize), AllocError>
    requires inside { at < length bytes.now }
    requires lower { begins is_lower (drop at bytes.now) ≡ true }
    ensures { IfOk result (λ x. NameRead bytes.now at x.0 x.1) }
{
    let end = word_end(bytes, at + 1);
    Ok((text_between(alloc, bytes, at, end)?, end))
}
