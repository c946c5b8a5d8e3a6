// The rows with the marks of their steps, and the lists of each step.
ghost use Rattle.std.specs.Prelude.{◌≡◌, ◌≢◌, ◌+◌, ◌<◌, ◌^◌, ℕ, false, length, Some, None, OnOk, OnErr, IsSome, slice_get};
ghost use Rattle.ev_bind.specs.Rows.{row_cmp, row_writes, exact_rows};
ghost use Rattle.row_table.specs.Tables.{hashed};
ghost use Rattle.row_table.specs.Steps.{row_under, step_value, IsRowTable};
ghost use Rattle.goal_store.specs.Good.{OneValue, OneMark, SameValues, FewerRows, IsHeld};
ghost use Rattle.goal_store.specs.Indexed.{Rows, also, less};
ghost use Rattle.goal_store.specs.Steps.{Lists, SameSteps};

use crate::marks::Mark;
use crate::steps::StepPlaces;
use ev_bind::Row;
use row_table::RowTable;
use rule_ast::StepId;
use std::alloc::AllocError;

/// Rows under numbers with the marks of their steps, the lists of each step, and the number of goals.
#[derive(Drop)]
pub(crate) struct Held {
    pub(crate) rows: RowTable<Row, Mark>,
    pub(crate) steps: Vec<StepPlaces>,
    pub(crate) number: usize,
}

// The row comes into the lists of a step under its number. After want of memory all are as before.
fn list_in(
    steps: &mut Vec<StepPlaces>,
    step: StepId,
    row: &Row,
    number: usize,
) -> Result<(), AllocError>
    ensures ok { (k : ℕ) (held : Rows) → Lists steps.old.items step k held
        → OnOk result (Lists steps.new.items step k (also row.now number held)) }
    ensures err { (k : ℕ) (held : Rows) → held row.now number ≡ false → Lists steps.old.items step k held
        → OnErr result (Lists steps.new.items step k held) }
    ensures others { (s : ℕ) → s ≢ step → slice_get steps.new.items s ≡ slice_get steps.old.items s }
    ensures kinds { SameSteps steps.old.items steps.new.items }
    ensures length { length steps.new.items ≡ length steps.old.items }
{
    match steps.get_mut(step as usize) {
        None => Ok(()),
        Some(places) => places.insert(row, number),
    }
}

// The row goes out of the lists of a step under its number.
fn unlist_in(steps: &mut Vec<StepPlaces>, step: StepId, row: &Row, number: usize)
    ensures less { (k : ℕ) (held : Rows) → Lists steps.old.items step k held → Lists steps.new.items step k (less row.now number held) }
    ensures others { (s : ℕ) → s ≢ step → slice_get steps.new.items s ≡ slice_get steps.old.items s }
    ensures kinds { SameSteps steps.old.items steps.new.items }
    ensures length { length steps.new.items ≡ length steps.old.items }
{
    match steps.get_mut(step as usize) {
        None => {}
        Some(places) => places.remove(row, number),
    }
}

// The row under a number comes into the lists of a step. After want of memory all are as before.
fn list_row(
    rows: &RowTable<Row, Mark>,
    steps: &mut Vec<StepPlaces>,
    number: usize,
    step: StepId,
) -> Result<(), AllocError>
    ensures ok { (row : Row) → row_under rows.now number ≡ Some row → (k : ℕ) (held : Rows) → Lists steps.old.items step k held
        → OnOk result (Lists steps.new.items step k (also row number held)) }
    ensures err { (row : Row) → row_under rows.now number ≡ Some row → (k : ℕ) (held : Rows) → held row number ≡ false
        → Lists steps.old.items step k held → OnErr result (Lists steps.new.items step k held) }
    ensures others { (s : ℕ) → s ≢ step → slice_get steps.new.items s ≡ slice_get steps.old.items s }
    ensures kinds { SameSteps steps.old.items steps.new.items }
    ensures length { length steps.new.items ≡ length steps.old.items }
{
    match rows.row(number) {
        None => Ok(()),
        Some(row) => list_in(steps, step, row, number),
    }
}

// The row under a number goes out of the lists of a step.
fn unlist_row(rows: &RowTable<Row, Mark>, steps: &mut Vec<StepPlaces>, number: usize, step: StepId)
    ensures less { (row : Row) → row_under rows.now number ≡ Some row → (k : ℕ) (held : Rows) → Lists steps.old.items step k held
        → Lists steps.new.items step k (less row number held) }
    ensures others { (s : ℕ) → s ≢ step → slice_get steps.new.items s ≡ slice_get steps.old.items s }
    ensures kinds { SameSteps steps.old.items steps.new.items }
    ensures length { length steps.new.items ≡ length steps.old.items }
{
    match rows.row(number) {
        None => {}
        Some(row) => unlist_in(steps, step, row, number),
    }
}

// A step has the row under a number no more; the record goes where no step has it.
fn clear(rows: &mut RowTable<Row, Mark>, number: usize, step: StepId)
    requires table { IsRowTable (hashed row_writes) row_cmp rows.old }
    ensures table { IsRowTable (hashed row_writes) row_cmp rows.new }
    ensures one { OneValue rows.old rows.new number step None }
    ensures rows { FewerRows rows.old rows.new }
    ensures mark { (row : Row) → row_under rows.old number ≡ Some row → OneMark rows.old rows.new step row None }
{
    rows.remove(number, step);
    rows.tidy(number);
}

impl Held {
    /// A step gets the row under a number, with a mark. After want of memory all are as before.
    pub(crate) fn add(&mut self, number: usize, step: StepId, mark: Mark) -> Result<(), AllocError>
        requires held { IsHeld self.old }
        requires row { IsSome (row_under self.old.rows number) }
        requires step { step < length self.old.steps.items }
        requires absent { step_value self.old.rows number step ≡ None }
        requires fits { self.old.number + 1 < 2 ^ 64 }
        ensures held { IsHeld self.new }
        ensures one { OnOk result (OneValue self.old.rows self.new.rows number step (Some mark)) }
        ensures mark { (row : Row) → row_under self.old.rows number ≡ Some row
            → OnOk result (OneMark self.old.rows self.new.rows step row (Some mark)) }
        ensures rows { (n : ℕ) → row_under self.new.rows n ≡ row_under self.old.rows n }
        ensures number { OnOk result (self.new.number ≡ self.old.number + 1) }
        ensures err { OnErr result (SameValues self.old.rows self.new.rows) }
        ensures err_number { OnErr result (self.new.number ≡ self.old.number) }
        ensures kinds { SameSteps self.old.steps.items self.new.steps.items }
        ensures length { length self.new.steps.items ≡ length self.old.steps.items }
    {
        list_row(&self.rows, &mut self.steps, number, step)?;
        match self.rows.put(number, step, mark) {
            Ok(()) => {
                self.number += 1;
                Ok(())
            }
            Err(fault) => {
                unlist_row(&self.rows, &mut self.steps, number, step);
                Err(fault)
            }
        }
    }

    /// A goal gets another mark. It takes no memory.
    pub(crate) fn set(&mut self, number: usize, step: StepId, mark: Mark)
        requires held { IsHeld self.old }
        requires there { IsSome (step_value self.old.rows number step) }
        ensures held { IsHeld self.new }
        ensures one { OneValue self.old.rows self.new.rows number step (Some mark) }
        ensures mark { (row : Row) → row_under self.old.rows number ≡ Some row
            → OneMark self.old.rows self.new.rows step row (Some mark) }
        ensures rows { (n : ℕ) → row_under self.new.rows n ≡ row_under self.old.rows n }
        ensures number { self.new.number ≡ self.old.number }
        ensures steps { self.new.steps ≡ self.old.steps }
    {
        self.rows.set(number, step, mark);
    }

    /// A step has the row under a number no more.
    pub(crate) fn take(&mut self, number: usize, step: StepId)
        requires held { IsHeld self.old }
        requires there { IsSome (step_value self.old.rows number step) }
        ensures held { IsHeld self.new }
        ensures one { OneValue self.old.rows self.new.rows number step None }
        ensures mark { (row : Row) → row_under self.old.rows number ≡ Some row
            → OneMark self.old.rows self.new.rows step row None }
        ensures rows { FewerRows self.old.rows self.new.rows }
        ensures number { self.new.number + 1 ≡ self.old.number }
        ensures kinds { SameSteps self.old.steps.items self.new.steps.items }
        ensures length { length self.new.steps.items ≡ length self.old.steps.items }
    {
        unlist_row(&self.rows, &mut self.steps, number, step);
        clear(&mut self.rows, number, step);
        self.number -= 1;
    }
}
