// The two calls.
ghost use Rattle.std.specs.Prelude.{◌≡◌, ◌≤◌, length};
ghost use Rattle.term_reader.specs.Grammar.{TermRead, AtomRead};
ghost use Rattle.term_reader.specs.Limits.{TermBack, AtomBack, TermFound, AtomFound};
ghost use Rattle.term_reader.specs.Readings.{TermGiven, AtomGiven};

use crate::faults::TermFault;
use crate::peeking::{is_blank_at, is_name_at, opens};
use crate::trees::{args_at, tree_at};
use crate::words::name_at;
use event_model::{Atom, Shared, Term};
use std::alloc::Global;

/// Reads the term that stands at a place, and gives the place behind it. A name and a number take as many bytes as they can,
/// and a name that is followed at once by `(` begins a compound.
pub fn read_ground(alloc: Global, bytes: &[u8], at: usize) -> Result<(Term, usize), TermFault>
    requires { at ≤ length bytes.now }
    ensures read { TermRead bytes.now at result }
    ensures found { TermFound bytes.now at result }
    ensures canonical { TermBack bytes.now at result }
{
    term_at(alloc, bytes, at)
}

fn term_at(alloc: Global, bytes: &[u8], at: usize) -> Result<(Term, usize), TermFault>
    requires { at ≤ length bytes.now }
    ensures { TermGiven bytes.now at result }
{
    if is_blank_at(bytes, at) {
        return Err(TermFault::Syntax(at));
    }
    tree_at(alloc, bytes, at, 1)
}

/// Reads the atom that stands at a place, and gives the place behind it. Its arguments may be `MOST_DEPTH` deep.
pub fn read_atom(alloc: Global, bytes: &[u8], at: usize) -> Result<(Atom, usize), TermFault>
    requires { at ≤ length bytes.now }
    ensures read { AtomRead bytes.now at result }
    ensures found { AtomFound bytes.now at result }
    ensures canonical { AtomBack bytes.now at result }
    ensures steps { AtomGiven bytes.now at result }
{
    atom_at(alloc, bytes, at)
}

fn atom_at(alloc: Global, bytes: &[u8], at: usize) -> Result<(Atom, usize), TermFault>
    requires { at ≤ length bytes.now }
    ensures { AtomGiven bytes.now at result }
{
    if !is_name_at(bytes, at) {
        return Err(TermFault::Syntax(at));
    }
    let (name, end) = name_at(alloc, bytes, at)?;
    if !opens(bytes, end) {
        let args = Shared::new(alloc, Vec::new(alloc))?;
        return Ok((Atom { name, args }, end));
    }
    let (args, close) = args_at(alloc, bytes, end, 0)?;
    let args = Shared::new(alloc, args)?;
    Ok((Atom { name, args }, close))
}
