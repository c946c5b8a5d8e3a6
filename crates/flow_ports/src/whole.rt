// A whole piece written, and a whole file read.
ghost use Rattle.std.specs.Prelude.{◌≡◌, ◌<◌, ◌≤◌, ◌⊎◌, [], length, IsOk, IsErr, take, drop, vec_len, IsTrue, IfOk, IfSome, OnOk, OnErr, IsErrOf};
ghost use Rattle.flow_ports.specs.Flow.{CountsFaults, Rose, Gives, GivesPart};

use crate::ports::{Failed, Shelf, Sink};
use std::alloc::Global;
use thiserror::Error;

/// Writes over the first bytes, and leaves the others.
pub(crate) fn copy_front(buf: &mut [u8], front: &[u8])
    requires { length front.now ≤ length buf.old }
    ensures front { take (length front.now) buf.new ≡ front.now }
    ensures rest { drop (length front.now) buf.new ≡ drop (length front.now) buf.old }
{
    buf[..front.len()].copy_from_slice(front);
}

/// Writes all the bytes, in as many calls as the sink wants.
pub fn write_whole<K: Sink>(sink: &mut K, bytes: &[u8]) -> Result<(), Failed>
    ensures ok { OnOk result (Gives (K.got sink.old) (K.got sink.new) bytes.now) }
    ensures err { OnErr result (GivesPart (K.got sink.old) (K.got sink.new) bytes.now) }
    ensures count { CountsFaults (K.faults sink.old) (K.faults sink.new) result }

    // An empty piece is written without a call.
    ensures empty { bytes.now ≡ [] → IsOk result × (sink.new ≡ sink.old) }
{
    let mut at = 0;
    while at < bytes.len() {
        match sink.write(&bytes[at..]) {
            Ok(n) => at += n,
            Err(Failed) => return Err(Failed),
        }
    }
    Ok(())
}

/// Why a whole file couldn't be read.
#[derive(Clone, Copy, Debug, PartialEq, Eq, Error)]
pub enum WholeFault {
    #[error("the device failed")]
    Failed,
    #[error("the file is too long")]
    TooLong,
    #[error("no memory is left")]
    Memory,
}

const CHUNK: usize = 4096;

/// Reads all that a name holds, up to a limit.
pub fn read_whole<S: Shelf>(
    alloc: Global,
    shelf: &mut S,
    name: &str,
    limit: usize,
) -> Result<Vec<u8>, WholeFault>
    requires { IsTrue (S.serves shelf.old name.now) }
    ensures ok { IfOk result (λ bytes.
        IfSome (S.holds shelf.old name.now) (λ held. bytes.items ≡ held)) }
    ensures small { IfOk result (λ bytes. vec_len bytes ≤ limit) }
    ensures within { OnOk result
        (IfSome (S.holds shelf.old name.now) (λ held. length held ≤ limit)) }
    ensures failed { IsErrOf result WholeFault.Failed
        → Rose (S.faults shelf.old) (S.faults shelf.new) }
    ensures too_long { IsErrOf result WholeFault.TooLong
        → IfSome (S.holds shelf.old name.now) (λ held. limit < length held) }
    ensures count { OnOk result (S.faults shelf.new ≡ S.faults shelf.old) }
    ensures unfailed { IsErr result
        → IsErrOf result WholeFault.Failed ⊎ (S.faults shelf.new ≡ S.faults shelf.old) }
    ensures later { S.faults shelf.old ≤ S.faults shelf.new }
    ensures serves { S.serves shelf.new ≡ S.serves shelf.old }
    ensures holds { S.holds shelf.new ≡ S.holds shelf.old }
{
    let mut bytes = Vec::new(alloc);
    let mut buf = [0u8; CHUNK];
    loop {
        let n = match shelf.read_at(name, bytes.len() as u64, &mut buf) {
            Ok(n) => n,
            Err(Failed) => return Err(WholeFault::Failed),
        };
        if n == 0 {
            return Ok(bytes);
        }
        if n > limit - bytes.len() {
            return Err(WholeFault::TooLong);
        }
        if bytes.extend_from_slice(&buf[..n]).is_err() {
            return Err(WholeFault::Memory);
        }
    }
}
