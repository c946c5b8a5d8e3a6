// When an event happened.
ghost use Rattle.std.specs.Prelude.{◌≤◌, length};
ghost use Rattle.event_reader.specs.Reads.{AreTimes, SpanOf, TimesAt};

use crate::faults::LineFault;
use crate::peeking::stands_at;
use crate::times::{marked_time_at, time_at};
use event_model::Span;

/// When an event happened, as it is written: at a time, or from a time to a second one, which begins at the place.
#[derive(Clone, Copy)]
pub(crate) enum Times {
    One(u64),
    Two { start: u64, end: u64, place: usize },
}

impl Times {
    /// The span, where the first time isn't greater than the second.
    pub(crate) fn span(self) -> Result<Span, LineFault>
        requires { AreTimes self }
        ensures { SpanOf self result }
    {
        match self {
            Times::One(time) => Ok(Span::instant(time)),
            Times::Two { start, end, place } => {
                if start > end {
                    return Err(LineFault::Syntax(place));
                }
                Ok(Span::new(start, end))
            }
        }
    }
}

/// The times behind the mark of an event, and the place behind them.
pub(crate) fn times_at(line: &[u8], at: usize) -> Result<(Times, usize), LineFault>
    requires { at ≤ length line.now }
    ensures { TimesAt line.now at result }
{
    let (start, end) = marked_time_at(line, at)?;
    if !stands_at(line, end, b'.') {
        return Ok((Times::One(start), end));
    }
    let middle = end + 1;
    if !stands_at(line, middle, b'.') {
        return Err(LineFault::Syntax(middle));
    }
    let place = middle + 1;
    let (second, end) = time_at(line, place)?;
    Ok((
        Times::Two {
            start,
            end: second,
            place,
        },
        end,
    ))
}
