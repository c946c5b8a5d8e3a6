// Terms, and names with arguments.
ghost use Rattle.std.specs.Prelude.{◌≡◌, ℕ, ◌++◌, OnOk};
ghost use Rattle.std.specs.List.{fold};
ghost use Rattle.rule_writer.specs.Forms.{name_at};
ghost use Rattle.rule_writer.specs.Writes.{Appends, slot_form_at, any_form_at, form_at, term_tokens, compound_at, all_arguments};

use crate::texts::{write_quoted, write_signed, write_str};
use event_model::{Name, Pat, Slot};
use std::alloc::AllocError;

/// Where a term stands: in an atom of a pattern, in a condition, or in a head.
#[derive(Clone, Copy)]
pub enum Place {
    Argument,
    Operand,
    Ground,
}

pub(crate) fn write_slot_name(
    out: &mut Vec<u8>,
    names: &[Name],
    slot: Slot,
) -> Result<(), AllocError>
    ensures { OnOk result (out.new.items ≡ out.old.items ++ name_at names.now slot) }
{
    match names.get(slot.number() as usize) {
        Some(name) => write_str(out, name.as_str()),
        None => Ok(()),
    }
}

fn write_slot(out: &mut Vec<u8>, names: &[Name], place: Place, slot: Slot) -> Result<(), AllocError>
    ensures { OnOk result ((d : ℕ) → Appends out.old.items out.new.items (term_tokens place d (slot_form_at place names.now slot))) }
{
    match place {
        Place::Argument | Place::Operand => write_slot_name(out, names, slot)?,
        Place::Ground => write_str(out, "0")?,
    }
    Ok(())
}

fn write_any(out: &mut Vec<u8>, place: Place) -> Result<(), AllocError>
    ensures { OnOk result ((d : ℕ) → Appends out.old.items out.new.items (term_tokens place d (any_form_at place))) }
{
    match place {
        Place::Argument => write_str(out, "_")?,
        Place::Operand | Place::Ground => write_str(out, "0")?,
    }
    Ok(())
}

#[cycle(term)]
pub(crate) fn write_term(
    out: &mut Vec<u8>,
    names: &[Name],
    place: Place,
    pat: &Pat,
) -> Result<(), AllocError>
    ensures { OnOk result ((d : ℕ) → Appends out.old.items out.new.items (term_tokens place d (form_at place names.now pat.now))) }
{
    match pat {
        Pat::Var(slot) => write_slot(out, names, place, *slot)?,
        Pat::Any => write_any(out, place)?,
        Pat::Num(n) => write_signed(out, *n)?,
        Pat::Sym(name) => write_str(out, name.as_str())?,
        Pat::Text(text) => write_quoted(out, text)?,
        Pat::Comp(name, args) => write_compound(out, names, place, name, args.as_slice())?,
    }
    Ok(())
}

// A name, and its arguments in brackets if there are any.
#[cycle(term)]
pub(crate) fn write_compound(
    out: &mut Vec<u8>,
    names: &[Name],
    place: Place,
    name: &Name,
    args: &[Pat],
) -> Result<(), AllocError>
    ensures { OnOk result ((d : ℕ)
        → Appends out.old.items out.new.items (term_tokens place d (compound_at place names.now name.now args.now))) }
{
    write_str(out, name.as_str())?;
    if args.is_empty() {
        return Ok(());
    }
    write_str(out, "(")?;
    write_arguments(out, names, place, args)?;
    write_str(out, ")")?;
    Ok(())
}

// Arguments, with a comma between each two.
#[cycle(term)]
fn write_arguments(
    out: &mut Vec<u8>,
    names: &[Name],
    place: Place,
    args: &[Pat],
) -> Result<(), AllocError>
    ensures { OnOk result ((d : ℕ) → Appends out.old.items out.new.items (all_arguments place names.now args.now d)) }
{
    if args.is_empty() {
        return Ok(());
    }
    write_term(out, names, place, &args[0])?;
    for i in 1..args.len() {
        write_str(out, ",")?;
        write_term(out, names, place, &args[i])?;
    }
    Ok(())
}
