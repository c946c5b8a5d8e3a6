// The part at a place of the line, and blanks.
ghost use Rattle.std.specs.Prelude.{◌≡◌, ◌≤◌, false, length, drop};
ghost use Rattle.event_reader.specs.Reads.{MaybePart, MaybeByte, MaybeDigit, BlanksRead, MaybeGap, begins, is_blank_part};

use crate::parts::{Part, classify};

/// The part that stands at the place, or none at the end.
pub(crate) fn part_at(line: &[u8], at: usize) -> Option<Part>
    requires { at ≤ length line.now }
    ensures { MaybePart line.now at result }
{
    if at == line.len() {
        return None;
    }
    Some(classify(line[at]))
}

/// Whether the byte stands at the place.
pub(crate) fn stands_at(line: &[u8], at: usize, byte: u8) -> bool
    requires { at ≤ length line.now }
    ensures { MaybeByte line.now at byte result }
{
    at < line.len() && line[at] == byte
}

/// The value of the digit that stands at the place.
pub(crate) fn digit_at(line: &[u8], at: usize) -> Option<u8>
    requires { at ≤ length line.now }
    ensures { MaybeDigit line.now at result }
{
    match part_at(line, at) {
        Some(Part::Digit(digit)) => Some(digit),
        _ => None,
    }
}

/// The place behind the blanks that stand at a place.
pub(crate) fn blanks_end(line: &[u8], at: usize) -> usize
    requires { at ≤ length line.now }
    ensures read { BlanksRead line.now at result }
    ensures over { begins is_blank_part (drop result line.now) ≡ false }
{
    let mut end = at;
    while let Some(Part::Blank) = part_at(line, end) {
        end += 1;
    }
    end
}

/// The place behind a gap that stands at a place.
pub(crate) fn gap_end(line: &[u8], at: usize) -> Option<usize>
    requires { at ≤ length line.now }
    ensures { MaybeGap line.now at result }
{
    match part_at(line, at) {
        Some(Part::Blank) => Some(blanks_end(line, at + 1)),
        _ => None,
    }
}
