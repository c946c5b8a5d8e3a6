// What the changed rows of the shown steps tell: detections that have gone and that have come.
ghost use Rattle.std.specs.Prelude.{◌≡◌, ◌++◌, ◌∷◌, ◌≤◌, [], map, length, Some, IfOk, OnOk};
ghost use Rattle.std.specs.Option.{option_copied};
ghost use Rattle.ordered_lists.specs.Canon.{canon};
ghost use Rattle.event_model.specs.EventOrder.{detection_cmp};
ghost use Rattle.event_model.specs.declared.terms.TheConstants.{MOST_SLOTS};
ghost use Rattle.rule_ast.specs.PlainPlans.{plain_step};
ghost use Rattle.pattern_meaning.specs.PatternRows.{args_of};
ghost use Rattle.pattern_meaning.specs.Standing.{detection_of};
ghost use Rattle.step_meaning.specs.StepRows.{step_at, detections_of};
ghost use Rattle.change_meaning.specs.Shown.{signed_rows};
ghost use Rattle.step_changes.specs.Deltas.{plain_delta, plain_deltas};
ghost use Rattle.event_changes.specs.declared.changes.Sign.TheVariants.{Plus, Minus};
ghost use Rattle.revision.specs.Lists.{rows_at, told_by};
ghost use Rattle.revision.specs.Names.{name_of};

use crate::lists::rows_of;
use ev_bind::{Binding, Row, number_values};
use event_changes::Sign;
use event_model::{Atom, Detection, MOST_SLOTS, NameArity, Shared, Slot, Term};
use ordered_lists::sort_unique;
use rule_ast::{Plan, Step, StepId};
use std::alloc::{AllocError, Global};
use step_changes::Delta;

// The values of the slots from 0 on, up to the first that has none.
fn first_values(alloc: Global, binding: &Binding) -> Result<Vec<Term>, AllocError>
    ensures { IfOk result (λ v. length v.items ≤ MOST_SLOTS) }
{
    let mut found = Vec::new(alloc);
    for number in 0..MOST_SLOTS as u8 {
        match binding.get(Slot::new(number)) {
            None => return Ok(found),
            Some(term) => found.push(term.share()?)?,
        }
    }
    Ok(found)
}

// The values of a row in the order of their slots. A row of a name numbers its values, and another is refused as memory is.
fn values_of(alloc: Global, row: &Row) -> Result<Vec<Term>, AllocError>
    ensures { IfOk result (λ v. v.items ≡ args_of row.now) }
{
    let found = first_values(alloc, &row.binding)?;
    let binding = number_values(alloc, &found)?;
    let numbered = Row {
        binding,
        span: row.span,
    };
    if numbered == *row {
        return Ok(found);
    }
    Err(AllocError)
}

// A row of a name as a detection.
fn detection(alloc: Global, name: &NameArity, row: &Row) -> Result<Detection, AllocError>
    ensures { IfOk result (λ d. d ≡ detection_of name.now row.now) }
{
    let args = values_of(alloc, row)?;
    Ok(Detection {
        atom: Atom {
            name: name.name.share()?,
            args: Shared::new(alloc, args)?,
        },
        span: row.span,
    })
}

// Adds a changed row of a name where it has this sign.
fn push_one(
    alloc: Global,
    sign: Sign,
    name: &NameArity,
    delta: &Delta,
    out: &mut Vec<Detection>,
) -> Result<(), AllocError>
    ensures { OnOk result (out.new.items
        ≡ out.old.items ++ map (detection_of name.now) (signed_rows sign (plain_delta delta.now ∷ []))) }
{
    if delta.sign == sign {
        out.push(detection(alloc, name, &delta.row)?)?;
    }
    Ok(())
}

// Adds the changed rows of a name that have this sign.
#[tactic(auto, using(crate::proofs::TellLaws::told_front))]
fn push_rows(
    alloc: Global,
    sign: Sign,
    name: &NameArity,
    rows: &[Delta],
    out: &mut Vec<Detection>,
) -> Result<(), AllocError>
    ensures { OnOk result (out.new.items
        ≡ out.old.items ++ map (detection_of name.now) (signed_rows sign (plain_deltas rows.now))) }
{
    for delta in rows {
        push_one(alloc, sign, name, delta, out)?;
    }
    Ok(())
}

// The name of a step that has one.
fn name_in(step: &Step) -> Option<&NameArity>
    ensures { option_copied result ≡ name_of (plain_step step.now) }
{
    match step {
        Step::Named { name, .. } => Some(name),
        Step::Leaf { .. }
        | Step::Join { .. }
        | Step::Either { .. }
        | Step::Where { .. }
        | Step::Exact { .. }
        | Step::Within { .. }
        | Step::Minus { .. }
        | Step::Head { .. } => None,
    }
}

// Adds what the changed rows of a step with this sign tell.
#[tactic(auto, using(crate::proofs::TellLaws::told_name, crate::proofs::TellLaws::told_none))]
fn push_step(
    alloc: Global,
    sign: Sign,
    step: &Step,
    rows: &[Delta],
    out: &mut Vec<Detection>,
) -> Result<(), AllocError>
    ensures { OnOk result (out.new.items
        ≡ out.old.items ++ detections_of (Some (plain_step step.now)) (signed_rows sign (plain_deltas rows.now))) }
{
    match name_in(step) {
        None => Ok(()),
        Some(name) => push_rows(alloc, sign, name, rows, out),
    }
}

// Adds what the changed rows of the step of a number tell.
fn push_at(
    alloc: Global,
    sign: Sign,
    steps: &[Step],
    changed: &[Vec<Delta>],
    id: StepId,
    out: &mut Vec<Detection>,
) -> Result<(), AllocError>
    ensures { OnOk result (out.new.items
        ≡ out.old.items ++ detections_of (step_at (map plain_step steps.now) id) (signed_rows sign (rows_at changed.now id))) }
{
    let at = id as usize;
    if at < steps.len() {
        let step = &steps[at];
        let rows = rows_of(changed, id);
        return push_step(alloc, sign, step, rows, out);
    }
    Ok(())
}

// Adds what the changed rows of these steps tell.
fn push_all(
    alloc: Global,
    sign: Sign,
    steps: &[Step],
    changed: &[Vec<Delta>],
    shown: &[StepId],
    out: &mut Vec<Detection>,
) -> Result<(), AllocError>
    ensures { OnOk result (out.new.items ≡ out.old.items ++ told_by sign (map plain_step steps.now) shown.now changed.now) }
{
    for id in shown {
        push_at(alloc, sign, steps, changed, *id, out)?;
    }
    Ok(())
}

// Puts into a list what the changed rows of the shown steps with this sign tell, in order and each once.
fn tell(
    alloc: Global,
    sign: Sign,
    steps: &[Step],
    changed: &[Vec<Delta>],
    shown: &[StepId],
    out: &mut Vec<Detection>,
) -> Result<(), AllocError>
    ensures { OnOk result (out.new.items ≡ canon detection_cmp
        (told_by sign (map plain_step steps.now) shown.now changed.now)) }
{
    out.clear();
    push_all(alloc, sign, steps, changed, shown, out)?;
    sort_unique(out)
}

/// Puts what the changed rows of the shown steps tell into two lists: what has gone, and what has come.
pub(crate) fn tell_change(
    alloc: Global,
    plan: &Plan,
    changed: &[Vec<Delta>],
    gone: &mut Vec<Detection>,
    come: &mut Vec<Detection>,
) -> Result<(), AllocError>
    ensures gone { OnOk result (gone.new.items
        ≡ canon detection_cmp (told_by Minus (map plain_step plan.now.steps.items) plan.now.shown.items changed.now)) }
    ensures come { OnOk result (come.new.items
        ≡ canon detection_cmp (told_by Plus (map plain_step plan.now.steps.items) plan.now.shown.items changed.now)) }
{
    tell(alloc, Sign::Minus, &plan.steps, changed, &plan.shown, gone)?;
    tell(alloc, Sign::Plus, &plan.steps, changed, &plan.shown, come)
}
