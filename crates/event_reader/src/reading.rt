// Lines.
ghost use Rattle.std.specs.Prelude.{◌≡◌, ◌≤◌, ℕ, List, length};
ghost use Rattle.event_model.specs.Presence.{Said};
ghost use Rattle.event_reader.specs.EventLines.{Hears};
ghost use Rattle.event_reader.specs.Machine.{heard};
ghost use Rattle.event_reader.specs.Reads.{Heard, LineRead};

use crate::events::event_at;
use crate::faults::LineFault;
use crate::parts::Part;
use crate::peeking::{blanks_end, part_at};
use crate::times::advance_at;
use crate::words::word_at;
use event_model::{Input, MOST_LINE_BYTES};
use std::alloc::Global;

// The input of a line of any length.
fn line_input(alloc: Global, line: &[u8]) -> Result<Input, LineFault>
    ensures { LineRead line.now result }
{
    let start = blanks_end(line, 0);
    match part_at(line, start) {
        None => Ok(Input::Nothing),
        Some(Part::Hash) => Ok(Input::Nothing),
        Some(Part::Plus) => Ok(Input::Add(event_at(alloc, line, start + 1)?)),
        Some(Part::Minus) => Ok(Input::Take(event_at(alloc, line, start + 1)?)),
        Some(Part::Bang) => Ok(Input::Advance(advance_at(line, start + 1)?)),
        Some(Part::Other) => word_at(line, start),
        Some(_) => Err(LineFault::Syntax(start)),
    }
}

/// Reads a line, which comes without its line feed: the input that it says, or the place from which on no line goes so. Where its first
/// time is greater than the second, the fault is at the second.
pub fn parse_line(alloc: Global, line: &[u8]) -> Result<Input, LineFault>
    requires { length line.now ≤ MOST_LINE_BYTES }
    ensures { Heard line.now result }
{
    line_input(alloc, line)
}

/// Each line says exactly what is heard of it: so no line says two things, and no bad line has two places.
pub fn lines_are_heard_exactly()
    ensures heard { (line : List ℕ) → Hears line (heard line) }
    ensures one { (line : List ℕ) (x y : Said) → Hears line x → Hears line y → x ≡ y }
{}
