// The lines of replies.
ghost use Rattle.std.specs.Prelude.{◌≡◌, ◌++◌, OnOk, OnErr, take};
ghost use Rattle.std.specs.Io.{StartsWith};
ghost use Rattle.detect_writer.specs.Signs.{sign_byte};
ghost use Rattle.pattern_meaning.specs.Replies.{change_text, ok_text, refusal_text, end_text, held_text, drill_text};

use event_changes::Sign;
use event_model::{Detection, Refusal, atom_text};
use itoa::{Buffer, Integer};
use std::alloc::AllocError;

fn push_number<I: Integer>(number: I, out: &mut Vec<u8>) -> Result<(), AllocError>
    ensures ok { OnOk result (out.new.items ≡ out.old.items ++ I.text number) }
    ensures err { OnErr result (out.new.items ≡ out.old.items) }
{
    let mut buffer = Buffer::new();
    out.extend_from_slice(buffer.format(number).as_bytes())
}

// What was written, or nothing of it where memory failed.
fn whole(
    before: usize,
    written: Result<(), AllocError>,
    out: &mut Vec<u8>,
) -> Result<(), AllocError>
    ensures answer { result ≡ written }
    ensures ok { OnOk result (out.new.items ≡ out.old.items) }
    ensures err { OnErr result (out.new.items ≡ take before out.old.items) }
{
    if written.is_err() {
        out.truncate(before);
    }
    written
}

fn push_between<I: Integer>(
    front: &[u8],
    number: I,
    back: &[u8],
    out: &mut Vec<u8>,
) -> Result<(), AllocError>
    ensures ok { OnOk result (out.new.items ≡ out.old.items ++ front.now ++ I.text number ++ back.now) }
    ensures err { OnErr result (StartsWith out.new.items out.old.items) }
{
    out.extend_from_slice(front)?;
    push_number(number, out)?;
    out.extend_from_slice(back)
}

// A number between words.
fn push_numbered<I: Integer>(
    front: &[u8],
    number: I,
    back: &[u8],
    out: &mut Vec<u8>,
) -> Result<(), AllocError>
    ensures ok { OnOk result (out.new.items ≡ out.old.items ++ front.now ++ I.text number ++ back.now) }
    ensures err { OnErr result (out.new.items ≡ out.old.items) }
{
    let before = out.len();
    let written = push_between(front, number, back, out);
    whole(before, written, out)
}

fn sign_byte(sign: Sign) -> u8
    ensures { result ≡ sign_byte sign }
{
    match sign {
        Sign::Plus => b'+',
        Sign::Minus => b'-',
    }
}

/// Appends the line of a detection that has come or gone: `+ START END ATOM` or `- START END ATOM`.
pub fn change_text(sign: Sign, detection: &Detection, out: &mut Vec<u8>) -> Result<(), AllocError>
    ensures ok { OnOk result (out.new.items ≡ out.old.items ++ change_text (sign_byte sign) detection.now) }
    ensures err { OnErr result (out.new.items ≡ out.old.items) }
{
    let before = out.len();
    let written = push_change(sign, detection, out);
    whole(before, written, out)
}

fn push_change(sign: Sign, detection: &Detection, out: &mut Vec<u8>) -> Result<(), AllocError>
    ensures ok { OnOk result (out.new.items ≡ out.old.items ++ change_text (sign_byte sign) detection.now) }
    ensures err { OnErr result (StartsWith out.new.items out.old.items) }
{
    out.push(sign_byte(sign))?;
    push_numbered(b" ", detection.span.start(), b" ", out)?;
    push_numbered(b"", detection.span.end(), b" ", out)?;
    atom_text(&detection.atom, out)?;
    out.push(b'\n')?;
    Ok(())
}

/// Appends `ok N`, which closes the reply to line N, one that is accepted.
pub fn ok_text(line: u64, out: &mut Vec<u8>) -> Result<(), AllocError>
    ensures ok { OnOk result (out.new.items ≡ out.old.items ++ ok_text line) }
    ensures err { OnErr result (out.new.items ≡ out.old.items) }
{
    push_numbered(b"ok ", line, b"\n", out)
}

/// Appends the reply to line N, one that is refused: `no N syntax AT`, `no N batch`, `no N below BOUND` or `no N absent`.
pub fn refusal_text(line: u64, refusal: Refusal, out: &mut Vec<u8>) -> Result<(), AllocError>
    ensures ok { OnOk result (out.new.items ≡ out.old.items ++ refusal_text line refusal) }
    ensures err { OnErr result (out.new.items ≡ out.old.items) }
{
    let before = out.len();
    let written = push_refusal(line, refusal, out);
    whole(before, written, out)
}

fn push_refusal(line: u64, refusal: Refusal, out: &mut Vec<u8>) -> Result<(), AllocError>
    ensures ok { OnOk result (out.new.items ≡ out.old.items ++ refusal_text line refusal) }
    ensures err { OnErr result (StartsWith out.new.items out.old.items) }
{
    match refusal {
        Refusal::Syntax(at) => {
            push_numbered(b"no ", line, b" syntax ", out)?;
            push_numbered(b"", at, b"\n", out)
        }
        Refusal::Batch => push_numbered(b"no ", line, b" batch\n", out),
        Refusal::Below(bound) => {
            push_numbered(b"no ", line, b" below ", out)?;
            push_numbered(b"", bound, b"\n", out)
        }
        Refusal::Absent => push_numbered(b"no ", line, b" absent\n", out),
    }
}

/// Appends the last line of the output, after N lines: `end N`, or `end N open` where a batch is open.
pub fn end_text(lines: u64, open_batch: bool, out: &mut Vec<u8>) -> Result<(), AllocError>
    ensures ok { OnOk result (out.new.items ≡ out.old.items ++ end_text lines open_batch) }
    ensures err { OnErr result (out.new.items ≡ out.old.items) }
{
    if open_batch {
        return push_numbered(b"end ", lines, b" open\n", out);
    }
    push_numbered(b"end ", lines, b"\n", out)
}

/// Appends `held ROWS EVENTS`, how many rows and how many events are held.
pub fn held_text(rows: u64, events: u64, out: &mut Vec<u8>) -> Result<(), AllocError>
    ensures ok { OnOk result (out.new.items ≡ out.old.items ++ held_text rows events) }
    ensures err { OnErr result (out.new.items ≡ out.old.items) }
{
    let before = out.len();
    let written = push_held(rows, events, out);
    whole(before, written, out)
}

fn push_held(rows: u64, events: u64, out: &mut Vec<u8>) -> Result<(), AllocError>
    ensures ok { OnOk result (out.new.items ≡ out.old.items ++ held_text rows events) }
    ensures err { OnErr result (StartsWith out.new.items out.old.items) }
{
    push_numbered(b"held ", rows, b" ", out)?;
    push_numbered(b"", events, b"\n", out)
}

/// Appends `drill D W V H`: how many detections were told over a drill, how many were withdrawn, how many visits were made, and the
/// most rows held.
pub fn drill_text(
    told: u128,
    withdrawn: u128,
    visits: u128,
    held: u64,
    out: &mut Vec<u8>,
) -> Result<(), AllocError>
    ensures ok { OnOk result (out.new.items ≡ out.old.items ++ drill_text told withdrawn visits held) }
    ensures err { OnErr result (out.new.items ≡ out.old.items) }
{
    let before = out.len();
    let written = push_drill(told, withdrawn, visits, held, out);
    whole(before, written, out)
}

fn push_drill(
    told: u128,
    withdrawn: u128,
    visits: u128,
    held: u64,
    out: &mut Vec<u8>,
) -> Result<(), AllocError>
    ensures ok { OnOk result (out.new.items ≡ out.old.items ++ drill_text told withdrawn visits held) }
    ensures err { OnErr result (StartsWith out.new.items out.old.items) }
{
    push_numbered(b"drill ", told, b" ", out)?;
    push_numbered(b"", withdrawn, b" ", out)?;
    push_numbered(b"", visits, b" ", out)?;
    push_numbered(b"", held, b"\n", out)
}
