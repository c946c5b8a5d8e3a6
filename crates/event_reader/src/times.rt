// Times.
ghost use Rattle.std.specs.Prelude.{◌≡◌, ◌≤◌, ◌<◌, length};
ghost use Rattle.event_reader.specs.Reads.{DigitsAt, TimeAt, MarkedTimeAt, EndAt, AdvanceAt};

use crate::faults::LineFault;
use crate::peeking::{blanks_end, digit_at, gap_end};
use event_model::TIME_LIMIT;

// The rest of a time, whose digits so far have this value.
fn digits_at(line: &[u8], at: usize, so_far: u64) -> Result<(u64, usize), LineFault>
    requires inside { at ≤ length line.now }
    requires small { so_far < TIME_LIMIT }
    ensures { DigitsAt line.now so_far at result }
{
    let mut time = so_far;
    let mut end = at;
    while let Some(digit) = digit_at(line, end) {
        if time > (TIME_LIMIT - 1 - u64::from(digit)) / 10 {
            return Err(LineFault::Syntax(end));
        }
        time = time * 10 + u64::from(digit);
        end += 1;
    }
    Ok((time, end))
}

/// The time that stands at a place, and the place behind it.
pub(crate) fn time_at(line: &[u8], at: usize) -> Result<(u64, usize), LineFault>
    requires { at ≤ length line.now }
    ensures { TimeAt line.now at result }
{
    let Some(first) = digit_at(line, at) else {
        return Err(LineFault::Syntax(at));
    };
    digits_at(line, at + 1, u64::from(first))
}

/// The time behind a mark, and the place behind it.
pub(crate) fn marked_time_at(line: &[u8], at: usize) -> Result<(u64, usize), LineFault>
    requires { at ≤ length line.now }
    ensures { MarkedTimeAt line.now at result }
{
    let Some(start) = gap_end(line, at) else {
        return Err(LineFault::Syntax(at));
    };
    time_at(line, start)
}

/// Nothing but blanks stands from the place on.
pub(crate) fn end_at(line: &[u8], at: usize) -> Result<(), LineFault>
    requires { at ≤ length line.now }
    ensures { EndAt line.now at result }
{
    let end = blanks_end(line, at);
    if end < line.len() {
        return Err(LineFault::Syntax(end));
    }
    Ok(())
}

/// The time behind the mark of a line that says a time.
pub(crate) fn advance_at(line: &[u8], at: usize) -> Result<u64, LineFault>
    requires { at ≤ length line.now }
    ensures { AdvanceAt line.now at result }
{
    let (time, end) = marked_time_at(line, at)?;
    end_at(line, end)?;
    Ok(time)
}
