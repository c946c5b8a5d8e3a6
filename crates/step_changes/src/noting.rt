// What visits and changed rows give, as it is noted.
ghost use Rattle.std.specs.Prelude.{◌≡◌, ◌+◌, ◌-◌, ◌∷◌, [], map, Option, Result, OnOk, OnErr, IfOk};
ghost use Rattle.std.specs.Fn.{FnReturnsAt};
ghost use Rattle.std.specs.declared.alloc.AllocError.{AllocError};
ghost use Rattle.event_changes.specs.declared.changes.Sign.{Sign};
ghost use Rattle.ev_bind.specs.declared.rows.Row.{Row};
ghost use Rattle.row_changes.specs.Kept.{under};
ghost use Rattle.row_changes.specs.Visits.{tally, signed};
ghost use Rattle.step_changes.specs.Notes.{noted};
ghost use Rattle.step_changes.specs.Deltas.{plain_deltas};

use crate::deltas::{Delta, Hint};
use crate::pending::Pending;
use ev_bind::Row;
use event_changes::Sign;
use event_model::Span;
use std::alloc::AllocError;

/// Notes what one visit gives.
pub fn note_item(
    sign: Sign,
    item: Option<Row>,
    hint: Hint,
    pending: &mut Pending,
) -> Result<(), AllocError>
    ensures ok { (s : Sign) (r : Row) → OnOk result (noted pending.new s r ≡ noted pending.old s r + tally s r (signed sign item ∷ [])) }
    ensures err { (s : Sign) (r : Row) → OnErr result (noted pending.new s r ≡ noted pending.old s r) }
{
    match item {
        Some(row) => pending.note(sign, row, hint),
        None => Ok(()),
    }
}

// Notes what the closure gives of a changed row.
fn note_one<F: Fn(&Row) -> Result<Option<Row>, AllocError>>(
    delta: &Delta,
    give: &F,
    pending: &mut Pending,
) -> Result<(), AllocError>
    requires { F.IsAlwaysCallable give.now }
    ensures { (g : Row → Option Row)
        → ((x : Row) (r : Result (Option Row) AllocError) → FnReturnsAt F.Fn give.now x r → IfOk r (λ o. o ≡ g x))
        → (s : Sign) (r : Row)
        → OnOk result (noted pending.new s r ≡ noted pending.old s r + tally s r (signed delta.now.sign (g delta.now.row) ∷ [])) }
{
    let item = give(&delta.row)?;
    note_item(delta.sign, item, delta.hint, pending)
}

/// Notes what a step of one operand gives: of each changed row of the operand the row that the closure makes of it, with its sign, or
/// nothing. Where that is the same row, the hint stays good.
pub fn note_each<F: Fn(&Row) -> Result<Option<Row>, AllocError>>(
    rows: &[Delta],
    give: &F,
    pending: &mut Pending,
) -> Result<(), AllocError>
    requires { F.IsAlwaysCallable give.now }
    ensures { (g : Row → Option Row)
        → ((x : Row) (r : Result (Option Row) AllocError) → FnReturnsAt F.Fn give.now x r → IfOk r (λ o. o ≡ g x))
        → (s : Sign) (r : Row)
        → OnOk result (noted pending.new s r
        ≡ noted pending.old s r + tally s r (map (λ d. signed d.sign (g d.row)) (plain_deltas rows.now))) }
{
    for delta in rows {
        note_one(delta, give, pending)?;
    }
    Ok(())
}

/// Whether a span is no longer than the cap in ticks, which is none where there is no limit.
pub fn fits(cap: Option<u64>, span: Span) -> bool
    ensures { result ≡ under cap (span.end - span.start) }
{
    match cap {
        None => true,
        Some(most) => span.end() - span.start() <= most,
    }
}
