// Events.
ghost use Rattle.std.specs.Prelude.{◌≡◌, ◌≤◌, false, length, drop};
ghost use Rattle.event_reader.specs.Reads.{AtomAt, EventAt, begins, is_blank_part};

use crate::faults::LineFault;
use crate::peeking::gap_end;
use crate::times::end_at;
use crate::whens::times_at;
use event_model::{Atom, Event};
use std::alloc::Global;
use term_reader::read_atom;

// The atom that stands at a place, and the place behind it.
fn atom_at(alloc: Global, line: &[u8], at: usize) -> Result<(Atom, usize), LineFault>
    requires inside { at ≤ length line.now }
    requires dark { begins is_blank_part (drop at line.now) ≡ false }
    ensures { AtomAt line.now at result }
{
    match read_atom(alloc, line, at) {
        Ok(read) => Ok(read),
        Err(fault) => Err(LineFault::from(fault)),
    }
}

/// The event behind the mark of a line that says an event.
pub(crate) fn event_at(alloc: Global, line: &[u8], at: usize) -> Result<Event, LineFault>
    requires { at ≤ length line.now }
    ensures { EventAt line.now at result }
{
    let (times, end) = times_at(line, at)?;
    let Some(start) = gap_end(line, end) else {
        return Err(LineFault::Syntax(end));
    };
    let (atom, end) = atom_at(alloc, line, start)?;
    end_at(line, end)?;
    let span = times.span()?;
    Ok(Event { span, atom })
}
