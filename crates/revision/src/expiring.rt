// The expiries follow the rows that come and go, and are found anew from all goals.
ghost use Rattle.std.specs.Prelude.{◌≡◌, ℕ, ◌^◌, ◌<◌, length, OnOk, IfOk};
ghost use Rattle.ev_bind.specs.declared.rows.Row.{Row};
ghost use Rattle.change_meaning.specs.Caps.{caps_in};
ghost use Rattle.goal_purge.specs.Expiring.{due, has_goal, Follows};
ghost use Rattle.step_changes.specs.Deltas.{plain_delta, plain_deltas};
ghost use Rattle.revision.specs.Following.{due_one, due_all, due_step, due_come, due_steps, due_under};

use crate::limits::{cap_at, reach_at};
use ev_bind::Row;
use event_changes::Sign;
use goal_purge::Expiries;
use goal_store::{GoalStore, Mark};
use row_changes::{CapList, Reach};
use rule_ast::StepId;
use std::alloc::{AllocError, Global};
use step_changes::Delta;

// Puts a row that has come among the expiries, and takes one that has gone out of them.
fn follow_one(
    expiries: &mut Expiries,
    step: StepId,
    delta: &Delta,
    cap: Option<u64>,
    reach: Reach,
) -> Result<(), AllocError>
    ensures { (d s : ℕ) (r : Row) → OnOk result (due expiries.new d s r
        ≡ due_one cap reach step d s r (plain_delta delta.now) (due expiries.old d s r)) }
{
    match delta.sign {
        Sign::Plus => expiries.insert(step, &delta.row, cap, reach),
        Sign::Minus => expiries.remove(step, &delta.row, cap, reach),
    }
}

// The same for all rows of a step that have come or gone.
fn follow_rows(
    expiries: &mut Expiries,
    step: StepId,
    rows: &[Delta],
    cap: Option<u64>,
    reach: Reach,
) -> Result<(), AllocError>
    ensures { (d s : ℕ) (r : Row) → OnOk result (due expiries.new d s r
        ≡ due_all cap reach step d s r (plain_deltas rows.now) (due expiries.old d s r)) }
{
    for delta in rows {
        follow_one(expiries, step, delta, cap, reach)?;
    }
    Ok(())
}

/// Lets the expiries follow the changed rows of all steps.
pub(crate) fn follow_changes(
    expiries: &mut Expiries,
    caps: &CapList,
    changed: &[Vec<Delta>],
) -> Result<(), AllocError>
    requires { length changed.now < 2 ^ 32 }
    ensures { (d s : ℕ) (r : Row) → OnOk result (due expiries.new d s r
        ≡ due_step (caps_in caps.now) changed.now d s r (due expiries.old d s r)) }
{
    for at in 0..changed.len() {
        let rows = &changed[at];
        follow_rows(
            expiries,
            at as StepId,
            rows,
            cap_at(caps, at),
            reach_at(caps, at),
        )?;
    }
    Ok(())
}

// Puts a row among the expiries, as one that has come to a step.
fn follow_step(
    expiries: &mut Expiries,
    caps: &CapList,
    row: &Row,
    step: StepId,
) -> Result<(), AllocError>
    ensures { (d s : ℕ) (r : Row) → OnOk result (due expiries.new d s r
        ≡ due_come (caps_in caps.now) row.now step d s r (due expiries.old d s r)) }
{
    let at = step as usize;
    expiries.insert(step, row, cap_at(caps, at), reach_at(caps, at))
}

// The same for all of these steps.
fn follow_steps(
    expiries: &mut Expiries,
    caps: &CapList,
    row: &Row,
    steps: &[(StepId, Mark)],
) -> Result<(), AllocError>
    ensures { (d s : ℕ) (r : Row) → OnOk result (due expiries.new d s r
        ≡ due_steps (caps_in caps.now) row.now steps.now d s r (due expiries.old d s r)) }
{
    for held in steps {
        follow_step(expiries, caps, row, held.0)?;
    }
    Ok(())
}

// The same for the row under a number and the steps that have it.
fn follow_number(
    expiries: &mut Expiries,
    goals: &GoalStore,
    caps: &CapList,
    number: usize,
) -> Result<(), AllocError>
    ensures { (d s : ℕ) (r : Row) → OnOk result (due expiries.new d s r
        ≡ due_under (caps_in caps.now) goals.now number d s r (due expiries.old d s r)) }
{
    match goals.row_at(number) {
        None => Ok(()),
        Some(row) => follow_steps(expiries, caps, row, goals.marks_at(number)),
    }
}

/// The expiries of all goals of a store, in time of what is held.
pub(crate) fn expiries_of(
    alloc: Global,
    goals: &GoalStore,
    caps: &CapList,
) -> Result<Expiries, AllocError>
    ensures { IfOk result (λ e. Follows (caps_in caps.now) (has_goal goals.now) e) }
{
    let mut expiries = Expiries::new(alloc);
    for number in 0..goals.numbers() {
        follow_number(&mut expiries, goals, caps, number)?;
    }
    Ok(expiries)
}
