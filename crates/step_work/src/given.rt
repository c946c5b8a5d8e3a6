// What a step makes of one row or event. It gives a row only where that is no longer than the cap of the step.
ghost use Rattle.std.specs.Prelude.{◌≡◌, ◌+◌, ◌-◌, ◌∷◌, [], map, Some, IfOk, OnOk};
ghost use Rattle.event_changes.specs.declared.changes.Sign.{Sign as SignOf};
ghost use Rattle.ev_bind.specs.Matching.{instance};
ghost use Rattle.ev_bind.specs.declared.rows.Row.{Row as RowOf};
ghost use Rattle.rule_ast.specs.Plain.{plain_cond};
ghost use Rattle.term_eval.specs.Values.{holds};
ghost use Rattle.pattern_meaning.specs.PatternRows.{found, head_row, is_of};
ghost use Rattle.pattern_meaning.specs.RuleRows.{is_long, is_short};
ghost use Rattle.row_changes.specs.Visits.{tally};
ghost use Rattle.change_meaning.specs.Caps.{fitting};
ghost use Rattle.change_meaning.specs.Courses.{event_gives, event_row, leaf_row, passing};
ghost use Rattle.step_changes.specs.Notes.{noted};

use ev_bind::{Binding, Row, instance_of, match_values, number_values};
use event_changes::{EventChange, Sign};
use event_model::{Atom, Event, MOST_SLOTS, NameArity, PatAtom, Span, Term};
use rule_ast::Cond;
use std::alloc::{AllocError, Global};
use step_changes::{Hint, Pending, fits, note_item};
use term_eval::holds;

// The row itself.
pub(crate) fn same_row(cap: Option<u64>, row: &Row) -> Result<Option<Row>, AllocError>
    ensures { IfOk result (λ o. o ≡ fitting cap (Some row.now)) }
{
    if !fits(cap, row.span) {
        return Ok(None);
    }
    Ok(Some(row.share()?))
}

// The row, where the condition holds under its binding.
pub(crate) fn row_where(cap: Option<u64>, cond: &Cond, row: &Row) -> Result<Option<Row>, AllocError>
    ensures { IfOk result (λ o. o ≡ fitting cap (passing (λ r. holds (plain_cond cond.now) r.binding) row.now)) }
{
    if !holds(cond, &row.binding) {
        return Ok(None);
    }
    same_row(cap, row)
}

fn ticks(span: Span) -> u64
    ensures { result ≡ span.end - span.start }
{
    span.end() - span.start()
}

// The row, where it takes exactly so many ticks.
pub(crate) fn row_of_length(
    cap: Option<u64>,
    length: u64,
    row: &Row,
) -> Result<Option<Row>, AllocError>
    ensures { IfOk result (λ o. o ≡ fitting cap (passing (is_long length) row.now)) }
{
    if ticks(row.span) != length {
        return Ok(None);
    }
    same_row(cap, row)
}

// The row, where it takes at most so many ticks.
pub(crate) fn row_within(
    cap: Option<u64>,
    length: u64,
    row: &Row,
) -> Result<Option<Row>, AllocError>
    ensures { IfOk result (λ o. o ≡ fitting cap (passing (is_short length) row.now)) }
{
    if ticks(row.span) > length {
        return Ok(None);
    }
    same_row(cap, row)
}

// The row of an atom in a body, from a row of its name.
pub(crate) fn row_of_atom(
    alloc: Global,
    cap: Option<u64>,
    pat: &PatAtom,
    row: &Row,
) -> Result<Option<Row>, AllocError>
    ensures { IfOk result (λ o. o ≡ fitting cap (leaf_row pat.now row.now)) }
{
    if !fits(cap, row.span) {
        return Ok(None);
    }
    match match_values(alloc, pat.args.as_slice(), &row.binding)? {
        None => Ok(None),
        Some(binding) => Ok(Some(Row {
            binding,
            span: row.span,
        })),
    }
}

// A row of a name with these arguments. No row holds more of them than there are slots: they are refused as memory is.
fn row_of_name(alloc: Global, args: &[Term], span: Span) -> Result<Row, AllocError>
    ensures { IfOk result (λ r. r ≡ found args.now span) }
{
    if args.len() > MOST_SLOTS {
        return Err(AllocError);
    }
    let binding = number_values(alloc, args)?;
    Ok(Row { binding, span })
}

// The arguments of a head with the values of its variables.
fn head_args(alloc: Global, head: &PatAtom, binding: &Binding) -> Result<Vec<Term>, AllocError>
    ensures { IfOk result (λ v. v.items ≡ map (λ p. instance p binding.now) head.now.args) }
{
    let pats = head.args.as_slice();
    let mut args = Vec::with_capacity(alloc, pats.len())?;
    for pat in pats {
        let arg = instance_of(alloc, pat, binding)?;
        args.push(arg)?;
    }
    Ok(args)
}

// The row of a head, from a row of its body.
pub(crate) fn row_of_head(
    alloc: Global,
    cap: Option<u64>,
    head: &PatAtom,
    row: &Row,
) -> Result<Option<Row>, AllocError>
    ensures { IfOk result (λ o. o ≡ fitting cap (Some (head_row head.now row.now))) }
{
    if !fits(cap, row.span) {
        return Ok(None);
    }
    let args = head_args(alloc, head, &row.binding)?;
    let made = row_of_name(alloc, &args, row.span)?;
    Ok(Some(made))
}

fn is_of(name: &NameArity, atom: &Atom) -> bool
    ensures { result ≡ is_of name.now atom.now }
{
    name.name.as_str() == atom.name.as_str()
        && usize::from(name.arity) == atom.args.as_slice().len()
}

// The row of an event, where it is of the name.
fn row_of_event(
    alloc: Global,
    cap: Option<u64>,
    name: &NameArity,
    event: &Event,
) -> Result<Option<Row>, AllocError>
    ensures { IfOk result (λ o. o ≡ fitting cap (event_row name.now event.now)) }
{
    if !is_of(name, &event.atom) {
        return Ok(None);
    }
    if !fits(cap, event.span) {
        return Ok(None);
    }
    let made = row_of_name(alloc, event.atom.args.as_slice(), event.span)?;
    Ok(Some(made))
}

// Notes what a changed event gives to a name.
pub(crate) fn note_event(
    alloc: Global,
    cap: Option<u64>,
    name: &NameArity,
    change: &EventChange,
    pending: &mut Pending,
) -> Result<(), AllocError>
    ensures { (s : SignOf) (r : RowOf) → OnOk result
        (noted pending.new s r ≡ noted pending.old s r + tally s r (event_gives cap name.now change.now ∷ [])) }
{
    match change {
        EventChange::Came(event) => {
            let row = row_of_event(alloc, cap, name, event)?;
            note_item(Sign::Plus, row, Hint::none(), pending)
        }
        EventChange::Went(event) => {
            let row = row_of_event(alloc, cap, name, event)?;
            note_item(Sign::Minus, row, Hint::none(), pending)
        }
    }
}
