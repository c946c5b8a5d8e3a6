// Rows come into the stores, find partners there, and go again.
ghost use Rattle.std.specs.Prelude.{◌≡◌, ◌≢◌, ◌+◌, ◌-◌, ◌<◌, ◌≤◌, ℕ, Some, None, true, IfOk, OnOk, length};
ghost use Rattle.ev_bind.specs.declared.rows.Row.{Row};
ghost use Rattle.goal_store.specs.Goals.{mark_at, row_at, steps_of, SamePlan};
ghost use Rattle.goal_store.specs.Marks.{was_old};
ghost use Rattle.support_table.specs.Supports.{count_of};
ghost use Rattle.support_table.specs.Supports as counts;

use crate::made::{MOST_ROWS, Order, plan, row_of};
use crate::words::Job;
use ev_bind::Row;
use event_model::Edge;
use goal_store::{GoalStore, Mark, When};
use interval_ops::Range;
use rule_ast::{IndexId, StepId};
use std::alloc::{AllocError, Global};
use std::collections::VecDeque;
use support_table::{Change, Supports};

/// The only step, and the only index.
const STEP: StepId = 0;

const INDEX: IndexId = 0;

/// How far back the partners of a row end, in ticks, and how many of them are taken.
const REACH: u64 = 100;

const MOST_PARTNERS: u64 = 4;

/// The numbers of a row in the two stores.
#[derive(Clone, Copy)]
struct Numbers {
    goal: usize,
    support: usize,
}

/// The stores, and the rows that are held, the first to come in front.
#[derive(Drop)]
struct Flow {
    alloc: Global,
    goals: GoalStore,
    supports: Supports,
    held: VecDeque<Numbers>,
    ghost step: { 0 < steps_of goals },
}

/// What a flow comes to: the partners that were found, and the goals that are held.
#[derive(Clone, Copy)]
pub(crate) struct Tally {
    pub(crate) found: u64,
    pub(crate) held: usize,
}

// Where the partners of a row at a time lie.
fn range_before(time: u64) -> Range {
    if time == 0 {
        return Range {
            edge: Edge::End,
            low: 1,
            high: 0,
        };
    }
    Range {
        edge: Edge::End,
        low: time.saturating_sub(REACH),
        high: time - 1,
    }
}

// The step has the row from now on, as fresh where no step had it; answers its number.
fn add_goal(goals: &mut GoalStore, row: Row) -> Result<usize, AllocError>
    requires { 0 < steps_of goals.old }
    ensures number { IfOk result (λ n. row_at goals.new n ≡ Some row) }
    ensures others { (s : ℕ) (r : Row) → r ≢ row → mark_at goals.new s r ≡ mark_at goals.old s r }
    ensures plan { SamePlan goals.old goals.new }
{
    let number = goals.number(row)?;
    if !goals.marks_at(number).is_empty() {
        return Ok(number);
    }
    goals.add_at(number, STEP)?;
    Ok(number)
}

// The goal of the row under a number is dying from now on, where it is old.
fn drop_goal(goals: &mut GoalStore, number: usize)
    ensures mark { (row : Row) → row_at goals.old number ≡ Some row → was_old (mark_at goals.old STEP row) ≡ true
        → mark_at goals.new STEP row ≡ Some Mark.Dying }
    ensures others { (row : Row) → row_at goals.old number ≡ Some row → (s : ℕ) (r : Row) → r ≢ row
        → mark_at goals.new s r ≡ mark_at goals.old s r }
    ensures plan { SamePlan goals.old goals.new }
{
    if goals.row_at(number).is_some() {
        goals.drop_at(number, STEP);
    }
}

impl Flow {
    fn new(alloc: Global) -> Result<Flow, AllocError>
        ensures goals { IfOk result (λ f. (s : ℕ) (r : Row) → mark_at f.goals s r ≡ None) }
        ensures counts { IfOk result (λ f. (s : ℕ) (r : Row) → count_of f.supports s r ≡ 0) }
        ensures held { IfOk result (λ f. length f.held.items ≡ 0) }
    {
        Ok(Flow {
            alloc,
            goals: GoalStore::new(alloc, &plan(alloc)?)?,
            supports: Supports::new(alloc),
            held: VecDeque::new(alloc),
        })
    }

    // Joins the row with the first of its partners; answers how many it took.
    fn join(&self, row: &Row) -> Result<u64, AllocError>
        ensures { IfOk result (λ n. n ≤ MOST_PARTNERS) }
    {
        let range = range_before(row.span.end());
        let mut cursor = self.goals.find(INDEX, &row.binding, range, When::After);
        for taken in 0..MOST_PARTNERS {
            let Some((partner, behind)) = self.goals.next(&cursor) else {
                return Ok(taken);
            };
            let _joined = row.binding.merge(self.alloc, &partner.binding)?;
            cursor = behind;
        }
        Ok(MOST_PARTNERS)
    }

    // The row comes with one support. Where it is there already, only its count rises.
    fn come(&mut self, row: Row) -> Result<(), AllocError>
        ensures others { (s : ℕ) (r : Row) → r ≢ row → mark_at self.new.goals s r ≡ mark_at self.old.goals s r }
        ensures count { OnOk result (count_of self.new.supports STEP row ≡ count_of self.old.supports STEP row + 1) }
        ensures held { OnOk result (length self.new.held.items ≡ length self.old.held.items + 1) }
        ensures plan { SamePlan self.old.goals self.new.goals }
    {
        let goal = add_goal(&mut self.goals, row.share()?)?;
        let support = self.supports.number(row)?;
        if self.supports.count_at(support, STEP) == u128::MAX {
            return Err(AllocError);
        }
        self.supports.add_at(support, STEP, 1)?;
        self.held.push_back(Numbers { goal, support })?;
        Ok(())
    }

    // A support of the row goes, and its goal with the last of them.
    fn take(&mut self, numbers: Numbers)
        ensures others { (row : Row) → row_at self.old.goals numbers.goal ≡ Some row → (s : ℕ) (r : Row) → r ≢ row
            → mark_at self.new.goals s r ≡ mark_at self.old.goals s r }
        ensures count { (row : Row) → counts.row_at self.old.supports numbers.support ≡ Some row
            → count_of self.new.supports STEP row ≡ count_of self.old.supports STEP row - 1 }
        ensures held { self.new.held.items ≡ self.old.held.items }
        ensures plan { SamePlan self.old.goals self.new.goals }
    {
        let Numbers { goal, support } = numbers;
        if self.supports.row(support).is_none() || self.supports.count_at(support, STEP) == 0 {
            return;
        }
        if self.supports.take_at(support, STEP, 1) == Change::Vanished {
            drop_goal(&mut self.goals, goal);
        }
    }

    // One row more. Where more than so many are held then, the first goes. Answers how many partners the row has.
    fn step(&mut self, row: Row, most: usize) -> Result<u64, AllocError>
        requires { length self.old.held.items ≤ most }
        ensures { OnOk result (length self.new.held.items ≤ most) }
    {
        let found = self.join(&row)?;
        self.come(row)?;
        let mut gone = None;
        if self.held.len() > most {
            gone = self.held.pop_front();
        }
        if let Some(numbers) = gone {
            self.take(numbers);
        }
        self.goals.settle();
        if let Some(numbers) = gone {
            self.goals.release(numbers.goal);
            self.supports.release(numbers.support);
        }
        Ok(found)
    }
}

/// The rows of a job come, and go where more are held than it says.
pub(crate) fn run(alloc: Global, job: Job) -> Result<Tally, AllocError> {
    let mut flow = Flow::new(alloc)?;
    let mut found: u64 = 0;
    for n in 0..job.rows {
        let row = row_of(alloc, job.order, n)?;
        found = found.saturating_add(flow.step(row, job.held)?);
    }
    Ok(Tally {
        found,
        held: flow.goals.held(),
    })
}
