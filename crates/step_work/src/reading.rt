// The work on a step, from what is seen of its operands.
ghost use Rattle.std.specs.Prelude.{◌≡◌, ◌+◌, ◌++◌, ℕ, List, Option, Some, map, IfOk, OnOk};
ghost use Rattle.std.specs.List.{flat_map};
ghost use Rattle.event_changes.specs.declared.changes.Sign.{Sign};
ghost use Rattle.ev_bind.specs.declared.rows.Row.{Row as RowOf};
ghost use Rattle.rule_ast.specs.Plain.{plain_cond};
ghost use Rattle.rule_ast.specs.PlainPlans.{plain_step};
ghost use Rattle.term_eval.specs.Values.{holds};
ghost use Rattle.pattern_meaning.specs.PatternRows.{head_row};
ghost use Rattle.pattern_meaning.specs.RuleRows.{is_long, is_short};
ghost use Rattle.row_changes.specs.Visits.{tally};
ghost use Rattle.change_meaning.specs.Courses.{event_gives, leaf_row, passing};
ghost use Rattle.goal_store.specs.Goals.{indexes_of};
ghost use Rattle.step_changes.specs.Notes.{noted};
ghost use Rattle.step_changes.specs.Tasks.{at_left, WorksOn};
ghost use Rattle.match_step.specs.Joining.{IsWay};
ghost use Rattle.negation_witness.specs.Ways.{IsMinusWay};
ghost use Rattle.step_work.specs.Seen.{changed_rows, join_from, left_of, minus_from, rows_give, view_in};
ghost use Rattle.step_work.specs.Stepping.{StepWork};
ghost use Rattle.step_work.specs.Ways.{IsWayOf};

use crate::given::{
    note_event, row_of_atom, row_of_head, row_of_length, row_where, row_within, same_row,
};
use crate::spots::Spot;
use crate::ways::StepWay;
use ev_bind::Row;
use event_changes::EventChange;
use event_model::{NameArity, PatAtom};
use goal_store::GoalStore;
use match_step::{JoinStep, JoinWay, Place};
use negation_witness::{MinusStep, MinusWay, TestPlace};
use rule_ast::{Cond, Step, StepId};
use std::alloc::{AllocError, Global};
use step_changes::{Delta, Pending, note_each};

// The changed rows of a step, none past the last list.
fn rows_at<'a>(changed: &'a [Vec<Delta>], step: StepId) -> &'a [Delta]
    ensures { result.now ≡ changed_rows changed.now step }
{
    let at = step as usize;
    if at < changed.len() {
        let rows = &changed[at];
        return rows.as_slice();
    }
    &[]
}

// Notes what changed events give to a name.
fn note_events(
    alloc: Global,
    cap: Option<u64>,
    name: &NameArity,
    events: &[EventChange],
    pending: &mut Pending,
) -> Result<(), AllocError>
    ensures { (s : Sign) (r : RowOf) → OnOk result
        (noted pending.new s r ≡ noted pending.old s r + tally s r (map (event_gives cap name.now) events.now)) }
{
    for change in events {
        note_event(alloc, cap, name, change, pending)?;
    }
    Ok(())
}

// Notes the changed rows themselves.
fn note_same(cap: Option<u64>, rows: &[Delta], pending: &mut Pending) -> Result<(), AllocError>
    ensures { (s : Sign) (r : RowOf) → OnOk result
        (noted pending.new s r ≡ noted pending.old s r + tally s r (rows_give cap Some rows.now)) }
{
    note_each(rows, &|row: &Row| same_row(cap, row), pending)
}

fn note_atom(
    alloc: Global,
    cap: Option<u64>,
    pat: &PatAtom,
    rows: &[Delta],
    pending: &mut Pending,
) -> Result<(), AllocError>
    ensures { (s : Sign) (r : RowOf) → OnOk result
        (noted pending.new s r ≡ noted pending.old s r + tally s r (rows_give cap (leaf_row pat.now) rows.now)) }
{
    note_each(
        rows,
        &|row: &Row| row_of_atom(alloc, cap, pat, row),
        pending,
    )
}

fn note_where(
    cap: Option<u64>,
    cond: &Cond,
    rows: &[Delta],
    pending: &mut Pending,
) -> Result<(), AllocError>
    ensures { (s : Sign) (r : RowOf) → OnOk result (noted pending.new s r ≡ noted pending.old s r
        + tally s r (rows_give cap (passing (λ x. holds (plain_cond cond.now) x.binding)) rows.now)) }
{
    note_each(rows, &|row: &Row| row_where(cap, cond, row), pending)
}

fn note_of_length(
    cap: Option<u64>,
    length: u64,
    rows: &[Delta],
    pending: &mut Pending,
) -> Result<(), AllocError>
    ensures { (s : Sign) (r : RowOf) → OnOk result
        (noted pending.new s r ≡ noted pending.old s r + tally s r (rows_give cap (passing (is_long length)) rows.now)) }
{
    note_each(rows, &|row: &Row| row_of_length(cap, length, row), pending)
}

fn note_within(
    cap: Option<u64>,
    length: u64,
    rows: &[Delta],
    pending: &mut Pending,
) -> Result<(), AllocError>
    ensures { (s : Sign) (r : RowOf) → OnOk result
        (noted pending.new s r ≡ noted pending.old s r + tally s r (rows_give cap (passing (is_short length)) rows.now)) }
{
    note_each(rows, &|row: &Row| row_within(cap, length, row), pending)
}

fn note_head(
    alloc: Global,
    cap: Option<u64>,
    head: &PatAtom,
    rows: &[Delta],
    pending: &mut Pending,
) -> Result<(), AllocError>
    ensures { (s : Sign) (r : RowOf) → OnOk result (noted pending.new s r
        ≡ noted pending.old s r + tally s r (rows_give cap (λ x. Some (head_row head.now x)) rows.now)) }
{
    note_each(
        rows,
        &|row: &Row| row_of_head(alloc, cap, head, row),
        pending,
    )
}

/// What a step reads: the goals, the changed events, and the changed rows of each step before it.
#[derive(Clone, Copy)]
pub struct Reading<'a> {
    pub goals: &'a GoalStore,
    pub events: &'a [EventChange],
    pub changed: &'a [Vec<Delta>],
}

impl<'a> Reading<'a> {
    // Notes the changed rows of the heads of a name.
    fn note_heads(
        &self,
        cap: Option<u64>,
        heads: &[StepId],
        pending: &mut Pending,
    ) -> Result<(), AllocError>
        ensures { (s : Sign) (r : RowOf) → OnOk result (noted pending.new s r ≡ noted pending.old s r
            + tally s r (flat_map (λ h. rows_give cap Some (changed_rows self.now.changed.now h)) heads.now)) }
    {
        for head in heads {
            note_same(cap, rows_at(self.changed, *head), pending)?;
        }
        Ok(())
    }

    // Notes what changed events give to a name, and the changed rows of its heads.
    fn note_name(
        &self,
        alloc: Global,
        cap: Option<u64>,
        name: &NameArity,
        heads: &[StepId],
        pending: &mut Pending,
    ) -> Result<(), AllocError>
        ensures { (s : Sign) (r : RowOf) → OnOk result (noted pending.new s r ≡ noted pending.old s r
            + tally s r (map (event_gives cap name.now) self.now.events.now
            ++ flat_map (λ h. rows_give cap Some (changed_rows self.now.changed.now h)) heads.now)) }
    {
        note_events(alloc, cap, name, self.events, pending)?;
        self.note_heads(cap, heads, pending)
    }

    // Notes the changed rows of both sides.
    fn note_sides(
        &self,
        cap: Option<u64>,
        left: StepId,
        right: StepId,
        pending: &mut Pending,
    ) -> Result<(), AllocError>
        ensures { (s : Sign) (r : RowOf) → OnOk result (noted pending.new s r ≡ noted pending.old s r
            + tally s r (rows_give cap Some (changed_rows self.now.changed.now left)
            ++ rows_give cap Some (changed_rows self.now.changed.now right))) }
    {
        note_same(cap, rows_at(self.changed, left), pending)?;
        note_same(cap, rows_at(self.changed, right), pending)
    }

    // Works on a join.
    fn join(
        &self,
        alloc: Global,
        way: JoinWay,
        left: StepId,
        right: StepId,
        place: &mut Place,
        pending: &mut Pending,
        units: u32,
    ) -> Result<Option<u32>, AllocError>
        requires { IsWay self.now.goals.now way }
        ensures { let left_at = join_from self.now.goals.now self.now.changed.now left right way in IfOk result
            (λ r. WorksOn (at_left (left_at place.old) (noted pending.old)) (at_left (left_at place.new) (noted pending.new)) units r) }
    {
        let step = JoinStep {
            goals: self.goals,
            way,
            lefts: rows_at(self.changed, left),
            rights: rows_at(self.changed, right),
        };
        step.work(alloc, place, pending, units)
    }

    // Works on a Minus.
    fn test(
        &self,
        way: MinusWay,
        joined: StepId,
        before: StepId,
        inner: StepId,
        after: StepId,
        place: &mut TestPlace,
        pending: &mut Pending,
        units: u32,
    ) -> Result<Option<u32>, AllocError>
        requires { IsMinusWay self.now.goals.now way }
        ensures { let left_at = minus_from self.now.goals.now self.now.changed.now joined before inner after way in IfOk result
            (λ r. WorksOn (at_left (left_at place.old) (noted pending.old)) (at_left (left_at place.new) (noted pending.new)) units r) }
    {
        let step = MinusStep {
            goals: self.goals,
            way,
            joined: rows_at(self.changed, joined),
            inner: rows_at(self.changed, inner),
            before: rows_at(self.changed, before),
            after: rows_at(self.changed, after),
        };
        step.work(place, pending, units)
    }

    /// Works on a step as far as the units go, and notes what it gives. Answers the units that are left where all visits of the step
    /// are made, and `None` where the units are used up before that. A step without visits takes no units.
    pub fn work(
        &self,
        alloc: Global,
        step: &Step,
        cap: Option<u64>,
        way: &StepWay,
        spot: &mut Spot,
        pending: &mut Pending,
        units: u32,
    ) -> Result<Option<u32>, AllocError>
        requires { ∥ ((slots : ℕ → List ℕ)
            × IsWayOf (indexes_of self.now.goals.now) cap slots (plain_step step.now) way.now) ∥₁ }
        ensures { (slots : ℕ → List ℕ) (count : ℕ → RowOf → ℕ)
            → let left = left_of self.now.goals.now self.now.changed.now (plain_step step.now) way.now in
            IfOk result (λ r. StepWork cap slots (plain_step step.now) (view_in self.now.goals.now count self.now.changed.now)
            self.now.events.now (at_left (left spot.old) (noted pending.old)) (at_left (left spot.new) (noted pending.new)) units r) }
    {
        match step {
            Step::Named { name, heads } => self.note_name(alloc, cap, name, heads, pending)?,
            Step::Leaf { of, pat } => {
                note_atom(alloc, cap, pat, rows_at(self.changed, *of), pending)?;
            }
            Step::Join { left, right, .. } => match way {
                StepWay::Join(way) => {
                    let place = &mut spot.join;
                    let rest = self.join(alloc, *way, *left, *right, place, pending, units)?;
                    return Ok(rest);
                }
                StepWay::Plain => unreachable!(),
                StepWay::Minus(_) => unreachable!(),
            },
            Step::Either { left, right } => self.note_sides(cap, *left, *right, pending)?,
            Step::Where { of, cond } => {
                note_where(cap, cond, rows_at(self.changed, *of), pending)?;
            }
            Step::Exact { of, q } => {
                note_of_length(cap, *q, rows_at(self.changed, *of), pending)?;
            }
            Step::Within { of, q } => {
                note_within(cap, *q, rows_at(self.changed, *of), pending)?;
            }
            Step::Minus {
                joined,
                before,
                inner,
                after,
            } => match way {
                StepWay::Minus(way) => {
                    let place = &mut spot.tests;
                    let rest = self.test(
                        *way, *joined, *before, *inner, *after, place, pending, units,
                    )?;
                    return Ok(rest);
                }
                StepWay::Plain => unreachable!(),
                StepWay::Join(_) => unreachable!(),
            },
            Step::Head { of, head } => {
                note_head(alloc, cap, head, rows_at(self.changed, *of), pending)?;
            }
        }
        Ok(Some(units))
    }
}
