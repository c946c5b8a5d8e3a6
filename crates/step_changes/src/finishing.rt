// The end of a step: what was noted is applied, row by row.
ghost use Rattle.std.specs.Prelude.{◌≡◌, ◌≢◌, ◌+◌, ◌<◌, ◌≤◌, ◌^◌, ℕ, [], OnOk, IfOk, Some, None};
ghost use Rattle.std.specs.declared.cmp.Ordering.TheVariants.{Less};
ghost use Rattle.ordered_lists.specs.Canon.{Rising};
ghost use Rattle.ev_bind.specs.Rows.{row_cmp};
ghost use Rattle.ev_bind.specs.declared.rows.Row.{Row};
ghost use Rattle.event_changes.specs.declared.changes.Sign.{Sign};
ghost use Rattle.event_changes.specs.declared.changes.Sign.TheVariants.{Plus, Minus};
ghost use Rattle.row_changes.specs.Changes.{IsChange, change, sign_in, delta_rows};
ghost use Rattle.support_table.specs.Supports.{count_of, row_at, Counts, SameCounts};
ghost use Rattle.goal_store.specs.Goals.{mark_at, steps_of, SameMarks, SamePlan};
ghost use Rattle.goal_store.specs.Goals as stored;
ghost use Rattle.step_changes.specs.Deltas.{plain_deltas};
ghost use Rattle.step_changes.specs.Notes.{noted};
ghost use Rattle.step_changes.specs.Pushes.{or_sign, AllUnder};
ghost use Rattle.step_changes.specs.Marked.{mark_of, shown, MayShow};

use crate::deltas::{Delta, Hint};
use crate::pending::{Pending, Tally};
use crate::pushing::{change_of, push_change};
use ev_bind::Row;
use event_changes::Sign;
use goal_store::GoalStore;
use rule_ast::StepId;
use std::alloc::AllocError;
use support_table::Supports;

// The number of a row among the goals, the hint tried first.
#[tactic(auto, using(ev_bind::specs::Rows::exact_rows))]
fn goal_near(goals: &mut GoalStore, hint: usize, row: &Row) -> Result<usize, AllocError>
    ensures held { IfOk result (λ n. stored.row_at goals.new n ≡ Some row.now) }
    ensures marks { SameMarks goals.old goals.new }
    ensures plan { SamePlan goals.old goals.new }
{
    if let Some(held) = goals.row_at(hint) {
        if held.cmp(row).is_eq() {
            return Ok(hint);
        }
    }
    goals.number(row.share()?)
}

// Shows a row that has come to have a count, and drops one that has lost it. Answers a number under which the store may have it.
fn show_row(
    goals: &mut GoalStore,
    step: StepId,
    row: &Row,
    hint: usize,
    change: Option<Sign>,
) -> Result<usize, AllocError>
    requires step { step < steps_of goals.old }
    requires mark { MayShow change (mark_at goals.old step row.now) }
    ensures shown { OnOk result (mark_at goals.new step row.now ≡ shown change (mark_at goals.old step row.now)) }
    ensures others { (s : ℕ) (r : Row) → (s ≡ step → r ≡ row.now → ⊥) → OnOk result (mark_at goals.new s r ≡ mark_at goals.old s r) }
    ensures plan { OnOk result (SamePlan goals.old goals.new) }
{
    match change {
        Some(Sign::Plus) => {
            let number = goal_near(goals, hint, row)?;
            goals.add_at(number, step)?;
            Ok(number)
        }
        Some(Sign::Minus) => {
            let number = goal_near(goals, hint, row)?;
            goals.drop_at(number, step);
            Ok(number)
        }
        None => Ok(hint),
    }
}

// The number of a row, the hint tried first.
#[tactic(auto, using(ev_bind::specs::Rows::exact_rows))]
fn number_near(supports: &mut Supports, hint: usize, row: &Row) -> Result<usize, AllocError>
    ensures held { IfOk result (λ n. row_at supports.new n ≡ Some row.now) }
    ensures counts { SameCounts supports.old supports.new }
{
    if let Some(held) = supports.row(hint) {
        if held.cmp(row).is_eq() {
            return Ok(hint);
        }
    }
    supports.number(row.share()?)
}

// Applies what is noted of a row to its count. Answers the count before and after, and a number under which the row may be kept.
fn change_count(
    supports: &mut Supports,
    step: StepId,
    row: &Row,
    tally: Tally,
) -> Result<(u128, u128, usize), AllocError>
    requires room { count_of supports.old step row.now + tally.added < 2 ^ 128 }
    requires fewer { tally.taken ≤ count_of supports.old step row.now + tally.added }
    ensures before { IfOk result (λ t. t.0 ≡ count_of supports.old step row.now) }
    ensures after { IfOk result (λ t. t.1 + tally.taken ≡ count_of supports.old step row.now + tally.added) }
    ensures counts { IfOk result (λ t. Counts supports.old supports.new step row.now t.1) }
{
    let number = number_near(supports, tally.hint.support, row)?;
    let before = supports.count_at(number, step);
    let after = before + tally.added - tally.taken;
    supports.set_at(number, step, after)?;
    supports.release(number);
    Ok((before, after, number))
}

// Applies what is noted of a row. Its count goes from the number before to the number after, and nothing between is seen.
fn apply_row(
    goals: &mut GoalStore,
    supports: &mut Supports,
    rows: &mut Vec<Delta>,
    step: StepId,
    row: Row,
    tally: Tally,
) -> Result<(), AllocError>
    requires step { step < steps_of goals.old }
    requires room { count_of supports.old step row + tally.added < 2 ^ 128 }
    requires fewer { tally.taken ≤ count_of supports.old step row + tally.added }
    requires mark { mark_at goals.old step row ≡ mark_of (count_of supports.old step row) }
    ensures count { OnOk result (count_of supports.new step row + tally.taken ≡ count_of supports.old step row + tally.added) }
    ensures counts { (s : ℕ) (r : Row) → (s ≡ step → r ≡ row → ⊥) → OnOk result (count_of supports.new s r ≡ count_of supports.old s r) }
    ensures sign { OnOk result (sign_in row (plain_deltas rows.new.items)
        ≡ or_sign (sign_in row (plain_deltas rows.old.items)) (change (count_of supports.old step row) (count_of supports.new step row))) }
    ensures signs { (r : Row) → (r ≡ row → ⊥)
        → OnOk result (sign_in r (plain_deltas rows.new.items) ≡ sign_in r (plain_deltas rows.old.items)) }
    ensures rise { Rising row_cmp (delta_rows (plain_deltas rows.old.items)) → AllUnder row (plain_deltas rows.old.items)
        → OnOk result (Rising row_cmp (delta_rows (plain_deltas rows.new.items))) }
    ensures under { (r : Row) → row_cmp row r ≡ Less → AllUnder r (plain_deltas rows.old.items)
        → OnOk result (AllUnder r (plain_deltas rows.new.items)) }
    ensures mark { OnOk result (mark_at goals.new step row
        ≡ shown (change (count_of supports.old step row) (count_of supports.new step row)) (mark_of (count_of supports.old step row))) }
    ensures marks { (s : ℕ) (r : Row) → (s ≡ step → r ≡ row → ⊥) → OnOk result (mark_at goals.new s r ≡ mark_at goals.old s r) }
    ensures plan { OnOk result (SamePlan goals.old goals.new) }
{
    let (before, after, support) = change_count(supports, step, &row, tally)?;
    let change = change_of(before, after);
    let goal = show_row(goals, step, &row, tally.hint.goal, change)?;
    push_change(rows, row, Hint { goal, support }, change)
}

/// Applies to a step all that was noted, each row once, and puts the rows that have come and gone into a list that is empty before, in
/// order. No row is noted any more after that. The goals of the step are old before, and a row is held where it has a count.
/// Afterwards a row that has come is fresh, and one that has gone is dying.
pub fn finish(
    goals: &mut GoalStore,
    supports: &mut Supports,
    pending: &mut Pending,
    step: StepId,
    rows: &mut Vec<Delta>,
) -> Result<(), AllocError>
    requires step { step < steps_of goals.old }
    requires room { (r : Row) → count_of supports.old step r + noted pending.old Plus r < 2 ^ 128 }
    requires fewer { (r : Row) → noted pending.old Minus r ≤ count_of supports.old step r + noted pending.old Plus r }
    requires old { (r : Row) → mark_at goals.old step r ≡ mark_of (count_of supports.old step r) }
    requires none { rows.old.items ≡ [] }
    ensures counts { (r : Row) → OnOk result (count_of supports.new step r + noted pending.old Minus r
        ≡ count_of supports.old step r + noted pending.old Plus r) }
    ensures other_counts { (s : ℕ) (r : Row) → s ≢ step → OnOk result (count_of supports.new s r ≡ count_of supports.old s r) }
    ensures changed { OnOk result (IsChange (count_of supports.old step) (count_of supports.new step) (plain_deltas rows.new.items)) }
    ensures marks { (r : Row) → OnOk result (mark_at goals.new step r
        ≡ shown (change (count_of supports.old step r) (count_of supports.new step r)) (mark_of (count_of supports.old step r))) }
    ensures other_marks { (s : ℕ) (r : Row) → s ≢ step → OnOk result (mark_at goals.new s r ≡ mark_at goals.old s r) }
    ensures plan { OnOk result (SamePlan goals.old goals.new) }
    ensures empty { (s : Sign) (r : Row) → OnOk result (noted pending.new s r ≡ 0) }
{
    while let Some((row, tally)) = pending.pop() {
        apply_row(goals, supports, rows, step, row, tally)?;
    }
    Ok(())
}
