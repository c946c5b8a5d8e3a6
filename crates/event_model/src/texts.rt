// The canonical text of terms and atoms.
ghost use Rattle.std.specs.Prelude.{◌≡◌, ◌++◌, ◌∷◌, [], OnOk, OnErr, map};
ghost use Rattle.std.specs.Io.{StartsWith};
ghost use Rattle.std.specs.List.{join_with_byte, flat_map};
ghost use Rattle.event_model.specs.Bytes.{comma};
ghost use Rattle.event_model.specs.Text.{escape, quoted, applied, written, term_text, atom_text};

use crate::atoms::Atom;
use crate::terms::Term;
use itoa::Buffer;
use std::alloc::AllocError;

// A text between quotes, with its escapes.
fn push_quoted(text: &[u8], out: &mut Vec<u8>) -> Result<(), AllocError>
    ensures ok { OnOk result (out.new.items ≡ out.old.items ++ quoted text.now) }
    ensures err { OnErr result (StartsWith out.new.items out.old.items) }
{
    out.push(b'"')?;
    push_escaped(text, out)?;
    out.push(b'"')?;
    Ok(())
}

fn push_escaped(text: &[u8], out: &mut Vec<u8>) -> Result<(), AllocError>
    ensures ok { OnOk result (out.new.items ≡ out.old.items ++ flat_map escape text.now) }
    ensures err { OnErr result (StartsWith out.new.items out.old.items) }
{
    for byte in text {
        push_escape(*byte, out)?;
    }
    Ok(())
}

fn push_escape(byte: u8, out: &mut Vec<u8>) -> Result<(), AllocError>
    ensures ok { OnOk result (out.new.items ≡ out.old.items ++ escape byte) }
    ensures err { OnErr result (out.new.items ≡ out.old.items) }
{
    if byte == b'"' {
        return out.extend_from_slice(b"\\\"");
    }
    if byte == b'\\' {
        return out.extend_from_slice(b"\\\\");
    }
    if byte == b'\n' {
        return out.extend_from_slice(b"\\n");
    }
    if byte == b'\t' {
        return out.extend_from_slice(b"\\t");
    }
    out.push(byte)?;
    Ok(())
}

/// Appends the canonical text of a term: a number in decimal, a symbol as its name, a text between quotes with the escapes
/// `\"`, `\\`, `\n` and `\t`, a compound as `name(arg,arg)` without blanks. Where memory fails, nothing is appended.
pub fn term_text(t: &Term, out: &mut Vec<u8>) -> Result<(), AllocError>
    ensures ok { OnOk result (out.new.items ≡ out.old.items ++ term_text t.now) }
    ensures err { OnErr result (out.new.items ≡ out.old.items) }
{
    let before = out.len();
    let written = push_term(t, out);
    if written.is_err() {
        out.truncate(before);
    }
    written
}

#[cycle(text)]
#[tactic(auto, using(crate::specs::Text::texts))]
fn push_term(t: &Term, out: &mut Vec<u8>) -> Result<(), AllocError>
    ensures ok { OnOk result (out.new.items ≡ out.old.items ++ term_text t.now) }
    ensures err { OnErr result (StartsWith out.new.items out.old.items) }
{
    match t {
        Term::Num(n) => {
            let mut buffer = Buffer::new();
            out.extend_from_slice(buffer.format(*n).as_bytes())
        }
        Term::Sym(name) => out.extend_from_slice(name.as_str().as_bytes()),
        Term::Text(text) => push_quoted(text.as_str().as_bytes(), out),
        Term::Comp(name, args) => {
            out.extend_from_slice(name.as_str().as_bytes())?;
            out.push(b'(')?;
            push_args(args.as_slice(), out)?;
            out.push(b')')?;
            Ok(())
        }
    }
}

// The texts of arguments, with a comma between each two.
#[cycle(text)]
fn push_args(args: &[Term], out: &mut Vec<u8>) -> Result<(), AllocError>
    ensures ok { OnOk result (out.new.items ≡ out.old.items ++ join_with_byte comma (map term_text args.now)) }
    ensures err { OnErr result (StartsWith out.new.items out.old.items) }
{
    if args.is_empty() {
        return Ok(());
    }
    push_term(&args[0], out)?;
    for i in 1..args.len() {
        out.push(b',')?;
        push_term(&args[i], out)?;
    }
    Ok(())
}

/// Appends the canonical text of an atom: `name(arg,arg)`, or the name alone where it has no arguments. Where memory
/// fails, nothing is appended.
pub fn atom_text(a: &Atom, out: &mut Vec<u8>) -> Result<(), AllocError>
    ensures ok { OnOk result (out.new.items ≡ out.old.items ++ atom_text a.now) }
    ensures err { OnErr result (out.new.items ≡ out.old.items) }
{
    let before = out.len();
    let written = push_atom(a, out);
    if written.is_err() {
        out.truncate(before);
    }
    written
}

fn push_atom(a: &Atom, out: &mut Vec<u8>) -> Result<(), AllocError>
    ensures ok { OnOk result (out.new.items ≡ out.old.items ++ atom_text a.now) }
    ensures err { OnErr result (StartsWith out.new.items out.old.items) }
{
    let args = a.args.as_slice();
    out.extend_from_slice(a.name.as_str().as_bytes())?;
    if args.is_empty() {
        return Ok(());
    }
    out.push(b'(')?;
    push_args(args, out)?;
    out.push(b')')?;
    Ok(())
}
