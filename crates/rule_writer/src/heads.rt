// Heads.
ghost use Rattle.std.specs.Prelude.{◌≡◌, ℕ, OnOk};
ghost use Rattle.rule_grammar.specs.Tokens.{head_term, heading};
ghost use Rattle.rule_writer.specs.Forms.{head_term_form, heading_form};
ghost use Rattle.rule_writer.specs.Writes.{Appends, all_head_terms};

use crate::terms::{Place, write_slot_name, write_term};
use crate::texts::write_str;
use event_model::{Name, Pat, PatAtom};
use std::alloc::AllocError;

fn write_head_term(out: &mut Vec<u8>, names: &[Name], pat: &Pat) -> Result<(), AllocError>
    ensures { OnOk result (Appends out.old.items out.new.items (head_term (head_term_form names.now pat.now))) }
{
    match pat {
        Pat::Var(slot) => write_slot_name(out, names, *slot)?,
        _ => write_term(out, names, Place::Ground, pat)?,
    }
    Ok(())
}

// The terms of a head, with a comma between each two.
fn write_head_terms(out: &mut Vec<u8>, names: &[Name], args: &[Pat]) -> Result<(), AllocError>
    ensures { OnOk result (Appends out.old.items out.new.items (all_head_terms names.now args.now)) }
{
    if args.is_empty() {
        return Ok(());
    }
    write_head_term(out, names, &args[0])?;
    for i in 1..args.len() {
        write_str(out, ",")?;
        write_head_term(out, names, &args[i])?;
    }
    Ok(())
}

pub(crate) fn write_head(
    out: &mut Vec<u8>,
    names: &[Name],
    head: &PatAtom,
) -> Result<(), AllocError>
    ensures { OnOk result ((n : ℕ) → Appends out.old.items out.new.items (heading n (heading_form names.now head.now))) }
{
    let args = head.args.as_slice();
    write_str(out, head.name.as_str())?;
    if args.is_empty() {
        return Ok(());
    }
    write_str(out, "(")?;
    write_head_terms(out, names, args)?;
    write_str(out, ")")?;
    Ok(())
}
