// Replies that are gathered, and when they go out.
ghost use Rattle.std.specs.Prelude.{◌≡◌, ◌<◌, [], vec_len, OnOk, OnErr};
ghost use Rattle.flow_ports.specs.Flow.{CountsFaults, Gives, GivesPart};
ghost use Rattle.etalis_cli.specs.Feeds.{Sends};

use flow_ports::{Failed, Sink, write_whole};
use std::alloc::AllocError;
use thiserror::Error;

/// Why a piece wasn't answered to its end.
#[derive(Clone, Copy, Debug, PartialEq, Eq, Error)]
pub enum FeedFault {
    #[error("the output failed")]
    Write,
    #[error("no memory is left")]
    Memory,
}

impl From<AllocError> for FeedFault {
    ghost use Rattle.etalis_cli.specs.declared.sending.FeedFault.TheVariants.{Memory};

    ghost from_gives = { λ _ f. f ≡ Memory };

    fn from(_error: AllocError) -> FeedFault {
        FeedFault::Memory
    }
}

impl From<Failed> for FeedFault {
    ghost use Rattle.etalis_cli.specs.declared.sending.FeedFault.TheVariants.{Write};

    ghost from_gives = { λ _ f. f ≡ Write };

    fn from(_fault: Failed) -> FeedFault {
        FeedFault::Write
    }
}

/// Replies are gathered up to so many bytes.
pub const MOST_GATHERED_BYTES: usize = 65_536;

/// Sends all that was gathered.
pub fn send_all<O: Sink>(text: &mut Vec<u8>, out: &mut O) -> Result<(), Failed>
    ensures ok { OnOk result (Gives (O.got out.old) (O.got out.new) text.old.items) }
    ensures none { OnOk result (text.new.items ≡ []) }
    ensures err { OnErr result (GivesPart (O.got out.old) (O.got out.new) text.old.items) }
    ensures count { CountsFaults (O.faults out.old) (O.faults out.new) result }
{
    write_whole(out, text)?;
    text.clear();
    Ok(())
}

/// Sends what was gathered once it is so much.
pub fn send_full<O: Sink>(text: &mut Vec<u8>, out: &mut O) -> Result<(), Failed>
    ensures ok { OnOk result (Sends (O.got out.old) (O.got out.new) text.old.items text.new.items) }
    ensures err { OnErr result (GivesPart (O.got out.old) (O.got out.new) text.old.items) }
    ensures few { OnOk result (vec_len text.new < MOST_GATHERED_BYTES) }
    ensures count { CountsFaults (O.faults out.old) (O.faults out.new) result }
{
    if text.len() >= MOST_GATHERED_BYTES {
        send_all(text, out)?;
    }
    Ok(())
}
