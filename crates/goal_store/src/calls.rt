// The calls of the store.
ghost use Rattle.std.specs.Prelude.{◌≡◌, ◌≢◌, ℕ, ◌<◌, ◌≤◌, length, map, true, false, [], ◌∷◌, Some, None, IfOk, OnOk, OnErr, IfSome, IfNone, IsSome, MatchOption, if◌then◌else◌, slice_get};
ghost use Rattle.std.specs.Option.{option_copied};
ghost use Rattle.rule_ast.specs.PlainPlans.{PlainIndex, plain_index};
ghost use Rattle.row_changes.specs.Partners.{listed};
ghost use Rattle.row_table.specs.Pairs.{get};
ghost use Rattle.key_lists.specs.Pieces.{all_lent, IsRun};
ghost use Rattle.goal_store.specs.Marks.{seen_as, was_old};
ghost use Rattle.goal_store.specs.Goals.{mark_at, seen, row_at, steps_of, indexes_of, number_of, rest, SamePlan, Marks, SameMarks, SameRows, KeptRows, Settled};
ghost use Rattle.goal_store.specs.Places.{place_cmp};
ghost use Rattle.goal_store.specs.Walked.{IsWalk};
ghost use Rattle.goal_store.specs.Walks.{rows_left};

use crate::built::{bare_steps, no_goals, own_indexes, place_indexes};
use crate::cursors::Cursor;
use crate::indexes::{first_at, place_of};
use crate::kept::GoalStore;
use crate::marks::{Mark, When};
use crate::places::Place;
use crate::walks::RowsFrom;
use ev_bind::{Binding, Row};
use interval_ops::Range;
use key_lists::{Position, Run};
use rule_ast::{Index, IndexId, Plan, StepId};
use std::alloc::{AllocError, Global};

impl GoalStore {
    /// No goal, over the steps and indexes of a plan.
    pub fn new(alloc: Global, plan: &Plan) -> Result<GoalStore, AllocError>
        ensures steps { IfOk result (λ g. steps_of g ≡ length plan.now.steps.items) }
        ensures indexes { IfOk result (λ g. indexes_of g ≡ map plain_index plan.now.indexes.items) }
        ensures marks { IfOk result (λ g. (s : ℕ) (r : Row) → mark_at g s r ≡ None) }
        ensures rows { IfOk result (λ g. (n : ℕ) → row_at g n ≡ None) }
    {
        let indexes = own_indexes(alloc, &plan.indexes)?;
        let mut steps = bare_steps(alloc, plan.steps.len())?;
        let spots = place_indexes(alloc, &indexes, &mut steps)?;
        Ok(GoalStore {
            indexes,
            spots,
            goals: no_goals(alloc, steps),
        })
    }

    /// A step gets a row, as fresh.
    #[tactic(auto, using(ev_bind::specs::Rows::exact_rows))]
    pub fn add(&mut self, step: StepId, row: Row) -> Result<(), AllocError>
        requires step { step < steps_of self.old }
        requires absent { mark_at self.old step row ≡ None }
        ensures marks { OnOk result (Marks self.old self.new step row (Some Mark.Fresh)) }
        ensures rows { OnOk result (KeptRows self.old self.new) }
        ensures plan { SamePlan self.old self.new }
        ensures err { OnErr result (SameMarks self.old self.new) }
        ensures err_rows { OnErr result (SameRows self.old self.new) }
    {
        self.goals.add(step, row)
    }

    /// A goal that is old is dying from now on; answers whether it was old. It takes no memory.
    #[tactic(auto, using(ev_bind::specs::Rows::exact_rows))]
    pub fn drop_goal(&mut self, step: StepId, row: &Row) -> bool
        ensures was { result ≡ was_old (mark_at self.old step row.now) }
        ensures dropped { result ≡ true → Marks self.old self.new step row.now (Some Mark.Dying) }
        ensures other { result ≡ false → SameMarks self.old self.new }
        ensures rows { SameRows self.old self.new }
        ensures plan { SamePlan self.old self.new }
    {
        match self.goals.held.rows.find(row) {
            None => false,
            Some(number) => self.goals.drop_at(number, step),
        }
    }

    /// Fresh goals become old, and dying ones go.
    #[tactic(auto, using(crate::proofs::Storing::settled_marks, crate::proofs::Storing::placed_kept))]
    pub fn settle(&mut self)
        ensures marks { Settled self.old self.new }
        ensures plan { SamePlan self.old self.new }
    {
        self.goals.settle();
    }

    /// Whether a step is seen to have a row.
    pub fn has(&self, step: StepId, row: &Row, when: When) -> bool
        ensures { result ≡ seen_as when (mark_at self.now step row.now) }
    {
        match self.goals.held.rows.get(step, row) {
            None => false,
            Some(mark) => when.sees(mark),
        }
    }

    /// The number of goals, whatever their marks.
    #[tactic(auto, using(crate::proofs::Storing::count_is))]
    pub fn held(&self) -> usize
        ensures { result ≡ number_of self.now }
    {
        self.goals.held.number
    }

    /// The row under a number.
    pub fn row_at(&self, number: usize) -> Option<&Row>
        ensures { option_copied result ≡ row_at self.now number }
    {
        self.goals.held.rows.row(number)
    }

    /// A number above those of all rows.
    pub fn numbers(&self) -> usize
        ensures { (n : ℕ) → result ≤ n → row_at self.now n ≡ None }
    {
        self.goals.held.rows.numbers()
    }

    /// The steps that have the row under a number, rising, each with its mark.
    #[tactic(auto, using(crate::proofs::Storing::marks_under))]
    pub fn marks_at(&self, number: usize) -> &[(StepId, Mark)]
        ensures { (row : Row) → row_at self.now number ≡ Some row → (s : ℕ) → get result.now s ≡ mark_at self.now s row }
    {
        self.goals.held.rows.steps(number)
    }

    /// The number of a row, which stays good until goals go or it is released.
    #[tactic(auto, using(ev_bind::specs::Rows::exact_rows))]
    pub fn number(&mut self, row: Row) -> Result<usize, AllocError>
        ensures held { IfOk result (λ n. row_at self.new n ≡ Some row) }
        ensures marks { SameMarks self.old self.new }
        ensures rows { KeptRows self.old self.new }
        ensures plan { SamePlan self.old self.new }
        ensures err { OnErr result (SameRows self.old self.new) }
    {
        self.goals.number(row)
    }

    /// The number of a row, where it has one. The hint is tried first, and answers are the same whatever it is.
    #[tactic(auto, using(ev_bind::specs::Rows::exact_rows))]
    pub fn near(&self, hint: usize, row: &Row) -> Option<usize>
        ensures { MatchOption result ((n : ℕ) → row_at self.now n ≢ Some row.now) (λ n. row_at self.now n ≡ Some row.now) }
    {
        if let Some(found) = self.goals.held.rows.row(hint) {
            if *found == *row {
                return Some(hint);
            }
        }
        self.goals.held.rows.find(row)
    }

    /// A step gets the row under a number, as fresh.
    pub fn add_at(&mut self, number: usize, step: StepId) -> Result<(), AllocError>
        requires step { step < steps_of self.old }
        requires held { IsSome (row_at self.old number) }
        requires absent { (row : Row) → row_at self.old number ≡ Some row → mark_at self.old step row ≡ None }
        ensures marks { (row : Row) → row_at self.old number ≡ Some row → OnOk result (Marks self.old self.new step row (Some Mark.Fresh)) }
        ensures rows { SameRows self.old self.new }
        ensures plan { SamePlan self.old self.new }
        ensures err { OnErr result (SameMarks self.old self.new) }
    {
        self.goals.add_at(number, step)
    }

    /// The goal of a step under a number is dying from now on, where it is old; answers whether it was. It takes no memory.
    pub fn drop_at(&mut self, number: usize, step: StepId) -> bool
        requires held { IsSome (row_at self.old number) }
        ensures was { (row : Row) → row_at self.old number ≡ Some row → result ≡ was_old (mark_at self.old step row) }
        ensures dropped { (row : Row) → row_at self.old number ≡ Some row → result ≡ true
            → Marks self.old self.new step row (Some Mark.Dying) }
        ensures other { result ≡ false → SameMarks self.old self.new }
        ensures rows { SameRows self.old self.new }
        ensures plan { SamePlan self.old self.new }
    {
        self.goals.drop_at(number, step)
    }

    /// The number is free where no step has its row.
    #[tactic(auto, using(ev_bind::specs::Rows::exact_rows))]
    pub fn release(&mut self, number: usize)
        ensures marks { SameMarks self.old self.new }
        ensures rows { (n : ℕ) → n ≢ number → row_at self.new n ≡ row_at self.old n }
        ensures plan { SamePlan self.old self.new }
    {
        self.goals.release(number);
    }

    // The list of an index in which the rows with a key stand.
    fn places_of(&self, index: IndexId, info: Index, key: &Binding) -> Run<'_, Place>
        requires index { slice_get self.now.indexes.items index ≡ Some info }
        ensures walk { IsWalk self.now index info.of info.key info.edge key.now (all_lent result) }
        ensures run { IsRun place_cmp result }
    {
        let Some(places) = self.goals.held.steps.get(info.of as usize) else {
            return Run::none();
        };
        let Some(spot) = self.spots.get(index as usize) else {
            return Run::none();
        };
        let Some(rows) = places.indexes.get(*spot) else {
            return Run::none();
        };
        rows.places(key)
    }

    /// A walk over the rows of an index that are seen, have a key and lie in a range, by the time of the range's edge, which is
    /// that of the index. `None` where there is no such index.
    pub fn rows_of<'a>(
        &'a self,
        index: IndexId,
        key: &'a Binding,
        range: Range,
        when: When,
    ) -> Option<RowsFrom<'a>>
        ensures none { IfNone result (slice_get (indexes_of self.now) index ≡ None) }
        ensures rows { IfSome result (λ w. (ix : PlainIndex) → slice_get (indexes_of self.now) index ≡ Some ix → ix.edge ≡ range.edge
            → rows_left w ≡ listed ix.key range key.now (seen self.now ix.of when)) }
        ensures store { IfSome result (λ w. w.store.now ≡ self.now) }
    {
        match self.indexes.get(index as usize) {
            None => None,
            Some(info) => {
                let places = self.places_of(index, *info, key);
                Some(RowsFrom {
                    store: self,
                    index,
                    step: info.of,
                    slots: info.key,
                    key,
                    places,
                    high: range.high,
                    when,
                    at: first_at(&places, range.low),
                    edge: info.edge,
                })
            }
        }
    }

    #[tactic(auto, using(crate::proofs::Opening::rest_no_number, crate::proofs::Opening::rest_no_row))]
    /// The walk that a cursor stands for; `None` only where nothing is left of it.
    pub fn rows_from<'a>(&'a self, cursor: &Cursor) -> Option<RowsFrom<'a>>
        ensures rows { MatchOption result (rest self.now cursor.now ≡ []) (λ w. rows_left w ≡ rest self.now cursor.now) }
        ensures store { IfSome result (λ w. w.store.now ≡ self.now) }
    {
        let info = match self.indexes.get(cursor.index as usize) {
            None => return None,
            Some(info) => info,
        };
        let number = match cursor.number {
            None => return None,
            Some(number) => number,
        };
        match self.goals.held.rows.row(number) {
            None => None,
            Some(row) => {
                let places = self.places_of(cursor.index, *info, &row.binding);
                Some(RowsFrom {
                    store: self,
                    index: cursor.index,
                    step: info.of,
                    slots: info.key,
                    key: &row.binding,
                    places,
                    high: cursor.high,
                    when: cursor.when,
                    at: place_of(&places, cursor.hint, info.edge, row, number),
                    edge: info.edge,
                })
            }
        }
    }

    /// A cursor before the rows of an index that are seen, have a key and lie in a range, by the time of the range's edge, which
    /// is that of the index.
    pub fn find(&self, index: IndexId, key: &Binding, range: Range, when: When) -> Cursor
        ensures { (ix : PlainIndex) → slice_get (indexes_of self.now) index ≡ Some ix → ix.edge ≡ range.edge
            → rest self.now result ≡ listed ix.key range key.now (seen self.now ix.of when) }
    {
        match self.rows_of(index, key, range, when) {
            None => Cursor {
                index,
                when,
                high: range.high,
                number: None,
                hint: Position::start(),
            },
            Some(rows) => rows.cursor(),
        }
    }

    /// The next row at a cursor, and the cursor behind it.
    pub fn next<'a>(&'a self, cursor: &Cursor) -> Option<(&'a Row, Cursor)>
        ensures { MatchOption result (rest self.now cursor.now ≡ [])
            (λ p. rest self.now cursor.now ≡ p.0.now ∷ rest self.now p.1) }
    {
        match self.rows_from(cursor) {
            None => None,
            Some(rows) => match rows.next_row() {
                None => None,
                Some((row, behind)) => Some((row, behind.cursor())),
            },
        }
    }
}
