// The lines of a source, to their replies.
ghost use Rattle.std.specs.Prelude.{◌≡◌, ◌<◌, ◌≤◌, ℕ, List, length, OnOk, OnErr, IsErrOf};
ghost use Rattle.flow_ports.specs.Flow.{Rose, Gives, GivesPart};
ghost use Rattle.etalis_cli.specs.Output.{Talk, start, out_text};
ghost use Rattle.etalis_cli.specs.StandsFor.{StandsFor, setting_of};
ghost use Rattle.etalis_cli.specs.Feeds.{Between};
ghost use Rattle.etalis_cli.specs.Outcome.{Served, Written, Counted, tail};
ghost use Rattle.etalis_core.specs.declared.present.TheConstants.{MOST_COPIES};

use crate::feeding::feed;
use crate::sending::FeedFault;
use crate::session::Session;
use flow_ports::{Failed, Sink, Source, write_whole};
use line_reader::LineReader;
use std::alloc::{AllocError, Global};
use thiserror::Error;

/// Why the lines weren't served to their end.
#[derive(Clone, Copy, Debug, PartialEq, Eq, Error)]
pub enum ServeFault {
    #[error("the input failed")]
    Read,
    #[error("the output failed")]
    Write,
    #[error("no memory is left")]
    Memory,
    #[error("the input is too long")]
    TooLong,
}

impl From<AllocError> for ServeFault {
    ghost use Rattle.etalis_cli.specs.declared.serving.ServeFault.TheVariants.{Memory};

    ghost from_gives = { λ _ f. f ≡ Memory };

    fn from(_error: AllocError) -> ServeFault {
        ServeFault::Memory
    }
}

/// Input is too long from so many bytes on.
pub const INPUT_LIMIT: u64 = 1 << 60;

/// A call asks the source for at most so many bytes.
pub const MOST_PIECE_BYTES: usize = 8192;

// The reply to a last line without a line feed, and the end. Nothing was gathered before it, so nothing goes out.
fn last_text<O: Sink>(
    session: &mut Session,
    reader: &mut LineReader,
    text: &mut Vec<u8>,
    out: &mut O,
) -> Result<(), FeedFault>
    requires { (t : Talk) × (part : List ℕ) × Between session.old reader.old t part × (t.state.count < MOST_COPIES) }
    ensures text { (t : Talk) (part : List ℕ) → Between session.old reader.old t part
        → OnOk result (text.new.items ≡ tail t part) }
    ensures unsent { O.got out.new ≡ O.got out.old }
    ensures write { IsErrOf result FeedFault.Write → Rose (O.faults out.old) (O.faults out.new) }
    ensures memory { IsErrOf result FeedFault.Memory → O.faults out.new ≡ O.faults out.old }
    ensures count { OnOk result (O.faults out.new ≡ O.faults out.old) }
{
    text.clear();
    match reader.finish() {
        Some(line) => {
            session.answer(line, text, out)?;
            session.close(text)?;
            Ok(())
        }
        None => {
            session.close(text)?;
            Ok(())
        }
    }
}

// Writes what stands behind the replies to all lines that a line feed ends.
fn finish<O: Sink>(
    session: &mut Session,
    reader: &mut LineReader,
    text: &mut Vec<u8>,
    out: &mut O,
) -> Result<(), ServeFault>
    requires { (t : Talk) × (part : List ℕ) × Between session.old reader.old t part × (t.state.count < MOST_COPIES) }
    ensures ok { (t : Talk) (part : List ℕ) → Between session.old reader.old t part
        → OnOk result (Gives (O.got out.old) (O.got out.new) (tail t part)) }
    ensures err { (t : Talk) (part : List ℕ) → Between session.old reader.old t part
        → OnErr result (GivesPart (O.got out.old) (O.got out.new) (tail t part)) }
    ensures write { IsErrOf result ServeFault.Write → Rose (O.faults out.old) (O.faults out.new) }
    ensures memory { IsErrOf result ServeFault.Memory → O.faults out.new ≡ O.faults out.old }
    ensures count { OnOk result (O.faults out.new ≡ O.faults out.old) }
    ensures read { IsErrOf result ServeFault.Read → ⊥ }
    ensures too_long { IsErrOf result ServeFault.TooLong → ⊥ }
{
    match last_text(session, reader, text, out) {
        Ok(()) => {}
        Err(FeedFault::Memory) => return Err(ServeFault::Memory),
        Err(FeedFault::Write) => return Err(ServeFault::Write),
    }
    match write_whole(out, text) {
        Ok(()) => Ok(()),
        Err(Failed) => Err(ServeFault::Write),
    }
}

/// Writes what an input of these bytes comes to, from a session to which no line came.
pub fn serve_bytes<O: Sink>(
    alloc: Global,
    session: &mut Session,
    bytes: &[u8],
    out: &mut O,
) -> Result<(), ServeFault>
    requires stands { StandsFor session.old (start (setting_of session.old)) }
    ensures written { Written result (O.got out.old) (O.got out.new) (out_text (setting_of session.old) bytes.now) }
    ensures counts { (n : ℕ) → Counted result n n (O.faults out.old) (O.faults out.new) }
{
    let mut reader = LineReader::new(alloc);
    let mut text = Vec::new(alloc);
    match feed(session, &mut reader, &mut text, out, bytes) {
        Ok(()) => {}
        Err(FeedFault::Memory) => return Err(ServeFault::Memory),
        Err(FeedFault::Write) => return Err(ServeFault::Write),
    }
    finish(session, &mut reader, &mut text, out)
}

/// Reads the source to its end, and writes the replies to the lines of each piece as soon as it is
/// there, from a session to which no line came.
pub fn serve<I: Source, O: Sink>(
    alloc: Global,
    session: &mut Session,
    input: &mut I,
    out: &mut O,
) -> Result<(), ServeFault>
    requires { StandsFor session.old (start (setting_of session.old)) }
    ensures served { (done : List ℕ)
        × Served (setting_of session.old) result (I.left input.old) (I.left input.new)
        (O.got out.old) (O.got out.new) (Rose (O.faults out.old) (O.faults out.new)) done }
    ensures counts { Counted result (I.faults input.old) (I.faults input.new) (O.faults out.old) (O.faults out.new) }
{
    let mut reader = LineReader::new(alloc);
    let mut text = Vec::new(alloc);
    let mut buf = [0u8; MOST_PIECE_BYTES];
    let mut taken: u64 = 0;
    while taken < INPUT_LIMIT {
        let n = match input.read(&mut buf) {
            Ok(n) => n,
            Err(Failed) => return Err(ServeFault::Read),
        };
        if n == 0 {
            return finish(session, &mut reader, &mut text, out);
        }
        taken += n as u64;
        match feed(session, &mut reader, &mut text, out, &buf[..n]) {
            Ok(()) => {}
            Err(FeedFault::Memory) => return Err(ServeFault::Memory),
            Err(FeedFault::Write) => {
                if taken < INPUT_LIMIT {
                    return Err(ServeFault::Write);
                }
                return Err(ServeFault::TooLong);
            }
        }
    }
    Err(ServeFault::TooLong)
}
