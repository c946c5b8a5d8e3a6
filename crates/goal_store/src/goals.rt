// The goals of the steps, and which of them changed.
ghost use Rattle.std.specs.Prelude.{◌≡◌, ◌≢◌, ◌<◌, ◌≤◌, ◌+◌, ◌++◌, ◌∷◌, [], ◌^◌, ℕ, true, false, length, Some, None, IfOk, OnOk, OnErr, IsSome, vec_len, vec_capacity};
ghost use Rattle.goal_store.specs.Values.{value_in};
ghost use Rattle.ev_bind.specs.Rows.{row_cmp};
ghost use Rattle.ev_bind.specs.declared.rows.Row.{Row};
ghost use Rattle.row_table.specs.Steps.{row_under, step_value};
ghost use Rattle.goal_store.specs.Good.{OneMark, SameValues, FewerRows, SettlesAt, SettledRows, IsHeld, IsGood};
ghost use Rattle.goal_store.specs.Marks.{was_old};
ghost use Rattle.goal_store.specs.Steps.{SameSteps};

use crate::held::Held;
use crate::marks::Mark;
use ev_bind::Row;
use rule_ast::StepId;
use std::alloc::AllocError;

/// A goal whose mark may not be `Old`.
#[derive(Clone, Copy, Drop)]
pub(crate) struct Changed {
    pub(crate) number: usize,
    pub(crate) step: StepId,
}

/// The goals, and those that changed since all were old. There is room in the list for all goals.
#[derive(Drop)]
pub(crate) struct Goals {
    pub(crate) held: Held,
    pub(crate) changed: Vec<Changed>,
}

// Makes room for one goal more than are held.
fn make_room(changed: &mut Vec<Changed>, held: usize) -> Result<(), AllocError>
    requires fits { vec_len changed.old ≤ held }
    ensures items { changed.new.items ≡ changed.old.items }
    ensures len { vec_len changed.new ≡ vec_len changed.old }
    ensures capacity { vec_capacity changed.old ≤ vec_capacity changed.new }
    ensures ok { OnOk result (held + 1 ≤ vec_capacity changed.new) }
    ensures small { OnOk result (held + 1 < 2 ^ 64) }
{
    match held.checked_add(1) {
        None => Err(AllocError),
        Some(most) => changed.reserve(most - changed.len()),
    }
}

// Notes a goal where there is room.
fn note(changed: &mut Vec<Changed>, goal: Changed)
    requires room { vec_len changed.old < vec_capacity changed.old }
    ensures items { changed.new.items ≡ changed.old.items ++ goal ∷ [] }
    ensures len { vec_len changed.new ≡ vec_len changed.old + 1 }
    ensures capacity { vec_capacity changed.old ≤ vec_capacity changed.new }
{
    let _ = changed.push(goal);
}

// A fresh goal becomes old, and a dying one goes.
fn settle_at(held: &mut Held, number: usize, step: StepId)
    requires held { IsHeld held.old }
    ensures held { IsHeld held.new }
    ensures done { SettlesAt held.old held.new number step }
    ensures kinds { SameSteps held.old.steps.items held.new.steps.items }
    ensures length { length held.new.steps.items ≡ length held.old.steps.items }
{
    match held.rows.at(number, step) {
        Some(Mark::Fresh) => held.set(number, step, Mark::Old),
        Some(Mark::Dying) => held.take(number, step),
        Some(Mark::Old) | None => {}
    }
}

impl Goals {
    /// The number of a row, with a record for it.
    #[tactic(auto, using(ev_bind::specs::Rows::exact_rows))]
    pub(crate) fn number(&mut self, row: Row) -> Result<usize, AllocError>
        requires good { IsGood self.old }
        ensures good { IsGood self.new }
        ensures held { IfOk result (λ n. row_under self.new.held.rows n ≡ Some row) }
        ensures others { IfOk result (λ n. (m : ℕ) → m ≢ n → row_under self.new.held.rows m ≡ row_under self.old.held.rows m) }
        ensures values { SameValues self.old.held.rows self.new.held.rows }
        ensures rows { FewerRows self.new.held.rows self.old.held.rows }
        ensures err { OnErr result ((n : ℕ) → row_under self.new.held.rows n ≡ row_under self.old.held.rows n) }
        ensures steps { self.new.held.steps ≡ self.old.held.steps }
    {
        self.held.rows.number(row)
    }

    /// The number is free where no step has its row.
    #[tactic(auto, using(ev_bind::specs::Rows::exact_rows))]
    pub(crate) fn release(&mut self, number: usize)
        requires good { IsGood self.old }
        ensures good { IsGood self.new }
        ensures values { SameValues self.old.held.rows self.new.held.rows }
        ensures rows { FewerRows self.old.held.rows self.new.held.rows }
        ensures gone { ((s : ℕ) → step_value self.old.held.rows number s ≡ None) → row_under self.new.held.rows number ≡ None }
        ensures others { (n : ℕ) → n ≢ number → row_under self.new.held.rows n ≡ row_under self.old.held.rows n }
        ensures steps { self.new.held.steps ≡ self.old.held.steps }
    {
        self.held.rows.tidy(number);
    }

    // A step gets a row that has no number yet.
    fn add_new(&mut self, step: StepId, row: Row) -> Result<(), AllocError>
        requires good { IsGood self.old }
        requires step { step < length self.old.held.steps.items }
        requires new { (n : ℕ) → row_under self.old.held.rows n ≢ Some row }
        ensures good { IsGood self.new }
        ensures mark { OnOk result (OneMark self.old.held.rows self.new.held.rows step row (Some Mark.Fresh)) }
        ensures rows { OnOk result (FewerRows self.new.held.rows self.old.held.rows) }
        ensures err { OnErr result (SameValues self.old.held.rows self.new.held.rows) }
        ensures err_rows { OnErr result ((n : ℕ) → row_under self.new.held.rows n ≡ row_under self.old.held.rows n) }
        ensures kinds { SameSteps self.old.held.steps.items self.new.held.steps.items }
        ensures length { length self.new.held.steps.items ≡ length self.old.held.steps.items }
    {
        let number = self.number(row)?;
        match self.add_at(number, step) {
            Ok(()) => Ok(()),
            Err(fault) => {
                self.release(number);
                Err(fault)
            }
        }
    }

    /// A step gets a row, as fresh. After want of memory all are as before.
    #[tactic(auto, using(ev_bind::specs::Rows::exact_rows))]
    pub(crate) fn add(&mut self, step: StepId, row: Row) -> Result<(), AllocError>
        requires good { IsGood self.old }
        requires step { step < length self.old.held.steps.items }
        requires absent { value_in row_cmp self.old.held.rows step row ≡ None }
        ensures good { IsGood self.new }
        ensures mark { OnOk result (OneMark self.old.held.rows self.new.held.rows step row (Some Mark.Fresh)) }
        ensures rows { OnOk result (FewerRows self.new.held.rows self.old.held.rows) }
        ensures err { OnErr result (SameValues self.old.held.rows self.new.held.rows) }
        ensures err_rows { OnErr result ((n : ℕ) → row_under self.new.held.rows n ≡ row_under self.old.held.rows n) }
        ensures kinds { SameSteps self.old.held.steps.items self.new.held.steps.items }
        ensures length { length self.new.held.steps.items ≡ length self.old.held.steps.items }
    {
        match self.held.rows.find(&row) {
            Some(number) => self.add_at(number, step),
            None => self.add_new(step, row),
        }
    }

    /// A step gets the row under a number, as fresh. After want of memory all are as before.
    pub(crate) fn add_at(&mut self, number: usize, step: StepId) -> Result<(), AllocError>
        requires good { IsGood self.old }
        requires row { IsSome (row_under self.old.held.rows number) }
        requires step { step < length self.old.held.steps.items }
        requires absent { step_value self.old.held.rows number step ≡ None }
        ensures good { IsGood self.new }
        ensures mark { (row : Row) → row_under self.old.held.rows number ≡ Some row
            → OnOk result (OneMark self.old.held.rows self.new.held.rows step row (Some Mark.Fresh)) }
        ensures rows { (n : ℕ) → row_under self.new.held.rows n ≡ row_under self.old.held.rows n }
        ensures err { OnErr result (SameValues self.old.held.rows self.new.held.rows) }
        ensures kinds { SameSteps self.old.held.steps.items self.new.held.steps.items }
        ensures length { length self.new.held.steps.items ≡ length self.old.held.steps.items }
    {
        make_room(&mut self.changed, self.held.number)?;
        self.held.add(number, step, Mark::Fresh)?;
        note(&mut self.changed, Changed { number, step });
        Ok(())
    }

    /// An old goal is dying from now on; answers whether it was old. It takes no memory.
    pub(crate) fn drop_at(&mut self, number: usize, step: StepId) -> bool
        requires good { IsGood self.old }
        ensures good { IsGood self.new }
        ensures was { result ≡ was_old (step_value self.old.held.rows number step) }
        ensures dropped { (row : Row) → row_under self.old.held.rows number ≡ Some row → result ≡ true
            → OneMark self.old.held.rows self.new.held.rows step row (Some Mark.Dying) }
        ensures other { result ≡ false → SameValues self.old.held.rows self.new.held.rows }
        ensures rows { (n : ℕ) → row_under self.new.held.rows n ≡ row_under self.old.held.rows n }
        ensures steps { self.new.held.steps ≡ self.old.held.steps }
    {
        match self.held.rows.at(number, step) {
            Some(Mark::Old) => {
                self.held.set(number, step, Mark::Dying);
                note(&mut self.changed, Changed { number, step });
                true
            }
            Some(Mark::Fresh) | Some(Mark::Dying) | None => false,
        }
    }

    /// Fresh goals become old, and dying ones go.
    pub(crate) fn settle(&mut self)
        requires good { IsGood self.old }
        ensures good { IsGood self.new }
        ensures marks { SettledRows self.old.held.rows self.new.held.rows }
        ensures kinds { SameSteps self.old.held.steps.items self.new.held.steps.items }
        ensures length { length self.new.held.steps.items ≡ length self.old.held.steps.items }
    {
        while let Some(changed) = self.changed.pop() {
            settle_at(&mut self.held, changed.number, changed.step);
        }
    }
}
