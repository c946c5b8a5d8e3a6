// The sign at a place of the bytes.
ghost use Rattle.std.specs.Prelude.{◌≡◌, ◌≤◌, ◌<◌, IsTrue, false, length, drop};
ghost use Rattle.term_reader.specs.Readings.{MaybeSign, MaybeMark, BlanksRead, begins, is_open, is_blank, is_lower};

use crate::signs::{Sign, classify};

/// What stands behind an argument: there is one more, or it was the last.
#[derive(Clone, Copy)]
pub(crate) enum Mark {
    More,
    Last,
}

pub(crate) fn sign_at(bytes: &[u8], at: usize) -> Option<Sign>
    requires { at ≤ length bytes.now }
    ensures { MaybeSign bytes.now at result }
{
    if at == bytes.len() {
        return None;
    }
    Some(classify(bytes[at]))
}

/// Whether an open bracket stands at the place.
pub(crate) fn opens(bytes: &[u8], at: usize) -> bool
    requires { at ≤ length bytes.now }
    ensures { result ≡ begins is_open (drop at bytes.now) }
{
    match sign_at(bytes, at) {
        Some(Sign::Open) => true,
        _ => false,
    }
}

pub(crate) fn is_blank_at(bytes: &[u8], at: usize) -> bool
    requires { at ≤ length bytes.now }
    ensures { result ≡ begins is_blank (drop at bytes.now) }
{
    match sign_at(bytes, at) {
        Some(Sign::Space) | Some(Sign::Tab) => true,
        _ => false,
    }
}

/// Whether a name begins at the place.
pub(crate) fn is_name_at(bytes: &[u8], at: usize) -> bool
    requires { at ≤ length bytes.now }
    ensures lower { result ≡ begins is_lower (drop at bytes.now) }
    ensures inside { IsTrue result → at < length bytes.now }
{
    match sign_at(bytes, at) {
        Some(Sign::Lower(_)) => true,
        _ => false,
    }
}

pub(crate) fn mark_at(bytes: &[u8], at: usize) -> Option<Mark>
    requires { at ≤ length bytes.now }
    ensures { MaybeMark bytes.now at result }
{
    match sign_at(bytes, at) {
        Some(Sign::Comma) => Some(Mark::More),
        Some(Sign::Close) => Some(Mark::Last),
        _ => None,
    }
}

/// The place behind the blanks that stand at a place.
pub(crate) fn blanks_end(bytes: &[u8], at: usize) -> usize
    requires { at ≤ length bytes.now }
    ensures read { BlanksRead bytes.now at result }
    ensures over { begins is_blank (drop result bytes.now) ≡ false }
{
    let mut end = at;
    while let Some(sign) = sign_at(bytes, end) {
        match sign {
            Sign::Space | Sign::Tab => end += 1,
            _ => return end,
        }
    }
    end
}
