// The words of batches.
ghost use Rattle.std.specs.Prelude.{◌≤◌, length};
ghost use Rattle.event_reader.specs.Reads.{SpelledAt, AloneAt, WordAt};

use crate::faults::LineFault;
use crate::peeking::stands_at;
use crate::times::end_at;
use event_model::Input;

// The place behind a word that stands at a place.
fn word_end(line: &[u8], at: usize, word: &[u8]) -> Result<usize, LineFault>
    requires { at ≤ length line.now }
    ensures { SpelledAt line.now at word.now result }
{
    let mut end = at;
    for letter in word {
        if !stands_at(line, end, *letter) {
            return Err(LineFault::Syntax(end));
        }
        end += 1;
    }
    Ok(end)
}

// A word stands at a place, and nothing but blanks behind it.
fn alone_at(line: &[u8], at: usize, word: &[u8]) -> Result<(), LineFault>
    requires { at ≤ length line.now }
    ensures { AloneAt line.now at word.now result }
{
    let end = word_end(line, at, word)?;
    end_at(line, end)
}

/// The word of batches that stands alone from the place on.
pub(crate) fn word_at(line: &[u8], at: usize) -> Result<Input, LineFault>
    requires { at ≤ length line.now }
    ensures { WordAt line.now at result }
{
    if stands_at(line, at, b'c') {
        alone_at(line, at, b"commit")?;
        Ok(Input::Commit)
    } else {
        alone_at(line, at, b"begin")?;
        Ok(Input::Begin)
    }
}
