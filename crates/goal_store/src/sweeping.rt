// The goals that aren't kept at a bound go, number by number.
ghost use Rattle.std.specs.Prelude.{◌≡◌, ◌≢◌, ℕ, Some, None, IsSome, get_or, if◌then◌else◌};
ghost use Rattle.ev_bind.specs.declared.rows.Row.{Row};
ghost use Rattle.goal_store.specs.Goals.{mark_at, row_at, AllOld, Marks, SamePlan, SameRows};
ghost use Rattle.goal_store.specs.Sweeping.{keeps_at, swept};

use crate::kept::GoalStore;
use ev_bind::Row;
use row_changes::{CapList, Reach, is_kept};
use rule_ast::StepId;

// The cap of a step. There is no limit past the last step.
fn cap_at(caps: &CapList, step: usize) -> Option<u64>
    ensures { result ≡ get_or caps.now.cap.items step None }
{
    if step < caps.cap.len() {
        return caps.cap[step];
    }
    None
}

// The same for its reach.
fn reach_at(caps: &CapList, step: usize) -> Reach
    ensures { result ≡ get_or caps.now.reach.items step Reach.Free }
{
    if step < caps.reach.len() {
        return caps.reach[step];
    }
    Reach::Free
}

// Whether a row of a step is kept at a bound.
fn keeps(caps: &CapList, bound: u64, step: StepId, row: &Row) -> bool
    ensures { result ≡ keeps_at caps.now bound step row.now }
{
    let at = step as usize;
    is_kept(cap_at(caps, at), reach_at(caps, at), bound, row.span)
}

impl GoalStore {
    // The same for the row under a number.
    fn keeps_number(&self, caps: &CapList, bound: u64, number: usize, step: StepId) -> bool
        ensures { (row : Row) → row_at self.now number ≡ Some row → result ≡ keeps_at caps.now bound step row }
    {
        match self.goals.held.rows.row(number) {
            None => true,
            Some(row) => keeps(caps, bound, step, row),
        }
    }

    // The goal of a step under a number is dying from now on, where it is old and isn't kept.
    fn sweep_at(&mut self, caps: &CapList, bound: u64, number: usize, step: StepId)
        requires held { IsSome (row_at self.old number) }
        ensures mark { (row : Row) → row_at self.old number ≡ Some row
            → Marks self.old self.new step row (swept (keeps_at caps.now bound step row) (mark_at self.old step row)) }
        ensures rows { SameRows self.old self.new }
        ensures plan { SamePlan self.old self.new }
    {
        if !self.keeps_number(caps, bound, number, step) {
            self.drop_at(number, step);
        }
    }

    // The same for all steps that have the row under a number.
    fn sweep_steps(&mut self, caps: &CapList, bound: u64, number: usize)
        requires held { IsSome (row_at self.old number) }
        ensures marks { (row : Row) → row_at self.old number ≡ Some row → (s : ℕ)
            → mark_at self.new s row ≡ swept (keeps_at caps.now bound s row) (mark_at self.old s row) }
        ensures others { (row : Row) → row_at self.old number ≡ Some row → (s : ℕ) (r : Row) → r ≢ row
            → mark_at self.new s r ≡ mark_at self.old s r }
        ensures rows { SameRows self.old self.new }
        ensures plan { SamePlan self.old self.new }
    {
        let mut last = None;
        while let Some(step) = self.goals.held.rows.next_step(number, last) {
            self.sweep_at(caps, bound, number, step);
            last = Some(step);
        }
    }

    // The same where the number may be free.
    fn sweep_number(&mut self, caps: &CapList, bound: u64, number: usize)
        ensures marks { (row : Row) → row_at self.old number ≡ Some row → (s : ℕ)
            → mark_at self.new s row ≡ swept (keeps_at caps.now bound s row) (mark_at self.old s row) }
        ensures others { (s : ℕ) (r : Row) → row_at self.old number ≢ Some r → mark_at self.new s r ≡ mark_at self.old s r }
        ensures rows { SameRows self.old self.new }
        ensures plan { SamePlan self.old self.new }
    {
        if self.goals.held.rows.row(number).is_some() {
            self.sweep_steps(caps, bound, number);
        }
    }

    /// Where all goals are old, exactly those stay whose rows are kept at a bound. It takes no memory, and time of all goals that are
    /// held: it is for callers that have no queue of what goes, as `goal_purge::purge` has one.
    pub fn sweep(&mut self, caps: &CapList, bound: u64)
        requires old { AllOld self.old }
        ensures marks { (s : ℕ) (r : Row) → mark_at self.new s r
            ≡ (if keeps_at caps.now bound s r then mark_at self.old s r else None) }
        ensures plan { SamePlan self.old self.new }
    {
        for number in 0..self.numbers() {
            self.sweep_number(caps, bound, number);
        }
        self.settle();
    }
}
