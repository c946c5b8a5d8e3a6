// Pieces of the input to lines, and lines to replies.
ghost use Rattle.std.specs.Prelude.{◌≡◌, ◌+◌, ◌<◌, ◌≤◌, ℕ, List, length, OnOk, OnErr, IsErrOf};
ghost use Rattle.flow_ports.specs.Flow.{Rose};
ghost use Rattle.etalis_core.specs.declared.present.TheConstants.{MOST_COPIES};
ghost use Rattle.etalis_cli.specs.Output.{Talk};
ghost use Rattle.etalis_cli.specs.Feeds.{Between, FedTo, FeedsPart};

use crate::sending::{FeedFault, send_full};
use crate::session::Session;
use flow_ports::{Sink, write_whole};
use line_reader::LineReader;

/// Reads a piece of the input. The replies to the lines that it ends are gathered in the buffer `text`. They go out once they are
/// `MOST_GATHERED_BYTES`, where a later line takes more than one turn of the engine, and at the end of the piece.
pub fn feed<O: Sink>(
    session: &mut Session,
    reader: &mut LineReader,
    text: &mut Vec<u8>,
    out: &mut O,
    piece: &[u8],
) -> Result<(), FeedFault>
    requires { (t : Talk) × (part : List ℕ) × Between session.old reader.old t part
        × (t.state.count + length piece.now < MOST_COPIES) }
    ensures ok { (t : Talk) (part : List ℕ) → Between session.old reader.old t part → OnOk result (FedTo
        record { talk = t; part = part; got = O.got out.old }
        session.new reader.new (O.got out.new) piece.now) }
    ensures err { (t : Talk) (part : List ℕ) → Between session.old reader.old t part → OnErr result (FeedsPart
        record { talk = t; part = part; got = O.got out.old } (O.got out.new) piece.now) }
    ensures write { IsErrOf result FeedFault.Write → Rose (O.faults out.old) (O.faults out.new) }
    ensures memory { IsErrOf result FeedFault.Memory → O.faults out.new ≡ O.faults out.old }
    ensures count { OnOk result (O.faults out.new ≡ O.faults out.old) }
{
    text.clear();
    reader.feed(piece)?;
    while let Some(line) = reader.next_line() {
        session.answer(line, text, out)?;
        send_full(text, out)?;
    }
    write_whole(out, text)?;
    Ok(())
}
