// The end of a step: what is noted becomes a change of its rows.
ghost use Rattle.std.specs.Prelude.{◌≡◌, ◌≢◌, ◌+◌, ◌<◌, ◌≤◌, ◌^◌, ℕ, length, OnOk};
ghost use Rattle.event_changes.specs.declared.changes.Sign.{Sign};
ghost use Rattle.event_changes.specs.declared.changes.Sign.TheVariants.{Plus, Minus};
ghost use Rattle.ev_bind.specs.declared.rows.Row.{Row};
ghost use Rattle.rule_ast.specs.PlainPlans.{plain_step};
ghost use Rattle.row_changes.specs.Changes.{IsChange, change};
ghost use Rattle.support_table.specs.Supports.{count_of};
ghost use Rattle.goal_store.specs.Goals.{mark_at, steps_of, SamePlan};
ghost use Rattle.step_changes.specs.Notes.{noted};
ghost use Rattle.step_changes.specs.Marked.{mark_of, shown};
ghost use Rattle.step_work.specs.Views.{is_minus, settled};
ghost use Rattle.revision.specs.Lists.{rows_at};

use goal_store::GoalStore;
use negation_witness::settle_tests;
use rule_ast::{Step, StepId};
use std::alloc::AllocError;
use std::mem;
use step_changes::{Delta, Pending, finish};
use support_table::Supports;

// Whether a step only tests rows.
fn only_tests(step: &Step) -> bool
    ensures { result ≡ is_minus (plain_step step.now) }
{
    match step {
        Step::Minus { .. } => true,
        Step::Named { .. }
        | Step::Leaf { .. }
        | Step::Join { .. }
        | Step::Either { .. }
        | Step::Where { .. }
        | Step::Exact { .. }
        | Step::Within { .. }
        | Step::Head { .. } => false,
    }
}

/// Lets what is noted be what is to be applied: tests are settled against the counts. What is spare is empty before and after.
pub(crate) fn settle_notes(
    step: &Step,
    id: StepId,
    supports: &Supports,
    pending: &mut Pending,
    spare: &mut Pending,
) -> Result<(), AllocError>
    requires { (s : Sign) (r : Row) → noted spare.old s r ≡ 0 }
    ensures noted { (s : Sign) (r : Row)
        → OnOk result (noted pending.new s r ≡ settled (plain_step step.now) (count_of supports.now id) (noted pending.old) s r) }
    ensures none { (s : Sign) (r : Row) → OnOk result (noted spare.new s r ≡ 0) }
{
    if !only_tests(step) {
        return Ok(());
    }
    settle_tests(pending, spare, supports, id)?;
    mem::swap(pending, spare);
    Ok(())
}

/// Applies what is noted to a step, and puts the rows that come and go into its list in place of those of the changes before.
pub(crate) fn apply_notes(
    goals: &mut GoalStore,
    supports: &mut Supports,
    pending: &mut Pending,
    id: StepId,
    changed: &mut Vec<Vec<Delta>>,
) -> Result<(), AllocError>
    requires step { id < steps_of goals.old }
    requires list { id < length changed.old.items }
    requires room { (r : Row) → count_of supports.old id r + noted pending.old Plus r < 2 ^ 128 }
    requires fewer { (r : Row) → noted pending.old Minus r ≤ count_of supports.old id r + noted pending.old Plus r }
    requires old { (r : Row) → mark_at goals.old id r ≡ mark_of (count_of supports.old id r) }
    ensures counts { (r : Row) → OnOk result (count_of supports.new id r + noted pending.old Minus r
        ≡ count_of supports.old id r + noted pending.old Plus r) }
    ensures other_counts { (s : ℕ) (r : Row) → s ≢ id → OnOk result (count_of supports.new s r ≡ count_of supports.old s r) }
    ensures changed { OnOk result (IsChange (count_of supports.old id) (count_of supports.new id) (rows_at changed.new.items id)) }
    ensures other_changed { (j : ℕ) → j ≢ id → OnOk result (rows_at changed.new.items j ≡ rows_at changed.old.items j) }
    ensures lists { OnOk result (length changed.new.items ≡ length changed.old.items) }
    ensures marks { (r : Row) → OnOk result (mark_at goals.new id r
        ≡ shown (change (count_of supports.old id r) (count_of supports.new id r)) (mark_of (count_of supports.old id r))) }
    ensures other_marks { (s : ℕ) (r : Row) → s ≢ id → OnOk result (mark_at goals.new s r ≡ mark_at goals.old s r) }
    ensures plan { OnOk result (SamePlan goals.old goals.new) }
    ensures empty { (s : Sign) (r : Row) → OnOk result (noted pending.new s r ≡ 0) }
{
    match changed.get_mut(id as usize) {
        None => Ok(()),
        Some(rows) => {
            rows.clear();
            finish(goals, supports, pending, id, rows)
        }
    }
}
