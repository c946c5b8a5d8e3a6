// How often each step has each row.
ghost use Rattle.std.specs.Prelude.{◌≡◌, ◌≢◌, ◌+◌, ◌-◌, ◌<◌, ◌≤◌, ◌^◌, ◌==◌, ℕ, Some, None, IfOk, OnOk, OnErr, IsSome, MatchOption, if◌then◌else◌};
ghost use Rattle.std.specs.Option.{option_copied};
ghost use Rattle.support_table.specs.Supports.{count_of, row_at, Counts, SameCounts};

use crate::kept::Supports;
use ev_bind::Row;
use row_table::RowTable;
use rule_ast::StepId;
use std::alloc::{AllocError, Global};

/// What became of a row or an event whose count changed.
#[derive(Clone, Copy, Debug, PartialEq, Eq)]
pub enum Change {
    Appeared,
    Vanished,
    Same,
}

impl Supports {
    /// No row.
    #[tactic(auto, using(crate::specs::Supports::count_nowhere))]
    pub fn new(alloc: Global) -> Supports
        ensures counts { (step : ℕ) (row : Row) → 0 ≡ count_of result step row }
        ensures rows { (n : ℕ) → row_at result n ≡ None }
    {
        Supports {
            rows: RowTable::new(alloc),
        }
    }

    /// How often a step has a row, 0 where it doesn't have it.
    #[tactic(auto, using(crate::specs::Supports::count_nowhere, crate::specs::Supports::count_found, ev_bind::specs::Rows::exact_rows))]
    pub fn count(&self, step: StepId, row: &Row) -> u128
        ensures { result ≡ count_of self.now step row.now }
    {
        match self.rows.get(step, row) {
            None => 0,
            Some(count) => count,
        }
    }

    /// The row under a number.
    pub fn row(&self, number: usize) -> Option<&Row>
        ensures { option_copied result ≡ row_at self.now number }
    {
        self.rows.row(number)
    }

    /// The number of a row; the hint is tried first.
    #[tactic(auto, using(ev_bind::specs::Rows::exact_rows))]
    pub fn near(&self, hint: usize, row: &Row) -> Option<usize>
        ensures { MatchOption result ((n : ℕ) → row_at self.now n ≢ Some row.now) (λ n. row_at self.now n ≡ Some row.now) }
    {
        if let Some(held) = self.rows.row(hint) {
            if held.cmp(row).is_eq() {
                return Some(hint);
            }
        }
        self.rows.find(row)
    }

    /// How often a step has the row under a number.
    pub fn count_at(&self, number: usize, step: StepId) -> u128
        ensures { (row : Row) → row_at self.now number ≡ Some row → result ≡ count_of self.now step row }
    {
        self.rows.at(number, step).unwrap_or(0)
    }

    /// The number of a row, which stays until `release`.
    #[tactic(auto, using(crate::specs::Supports::same_counts, ev_bind::specs::Rows::exact_rows))]
    pub fn number(&mut self, row: Row) -> Result<usize, AllocError>
        ensures held { IfOk result (λ n. row_at self.new n ≡ Some row) }
        ensures rows { (n : ℕ) (r : Row) → row_at self.old n ≡ Some r → row_at self.new n ≡ Some r }
        ensures counts { SameCounts self.old self.new }
    {
        self.rows.number(row)
    }

    /// The row under a number comes `n` times more to a step.
    pub fn add_at(&mut self, number: usize, step: StepId, n: u128) -> Result<Change, AllocError>
        requires held { IsSome (row_at self.old number) }
        requires some { 1 ≤ n }
        requires fits { (row : Row) → row_at self.old number ≡ Some row → count_of self.old step row + n < 2 ^ 128 }
        ensures counts { (row : Row) → row_at self.old number ≡ Some row →
            OnOk result (Counts self.old self.new step row (count_of self.old step row + n)) }
        ensures change { (row : Row) → row_at self.old number ≡ Some row →
            IfOk result (λ c. c ≡ (if count_of self.old step row == 0 then Change.Appeared else Change.Same)) }
        ensures rows { (m : ℕ) → row_at self.new m ≡ row_at self.old m }
        ensures err { OnErr result (SameCounts self.old self.new) }
    {
        match self.rows.at(number, step) {
            None => {
                self.rows.put(number, step, n)?;
                Ok(Change::Appeared)
            }
            Some(count) => {
                self.rows.set(number, step, count + n);
                if count == 0 {
                    return Ok(Change::Appeared);
                }
                Ok(Change::Same)
            }
        }
    }

    /// The row under a number goes `n` times from a step. It keeps its number until `release`.
    pub fn take_at(&mut self, number: usize, step: StepId, n: u128) -> Change
        requires held { IsSome (row_at self.old number) }
        requires some { 1 ≤ n }
        requires enough { (row : Row) → row_at self.old number ≡ Some row → n ≤ count_of self.old step row }
        ensures counts { (row : Row) → row_at self.old number ≡ Some row →
            Counts self.old self.new step row (count_of self.old step row - n) }
        ensures change { (row : Row) → row_at self.old number ≡ Some row →
            result ≡ (if count_of self.old step row == n then Change.Vanished else Change.Same) }
        ensures rows { (m : ℕ) → row_at self.new m ≡ row_at self.old m }
    {
        match self.rows.at(number, step) {
            None => Change::Same,
            Some(count) => {
                if count > n {
                    self.rows.set(number, step, count - n);
                    return Change::Same;
                }
                self.rows.remove(number, step);
                Change::Vanished
            }
        }
    }

    /// A step has the row under a number so often from now on. It keeps its number until `release`.
    pub fn set_at(&mut self, number: usize, step: StepId, n: u128) -> Result<(), AllocError>
        requires held { IsSome (row_at self.old number) }
        ensures counts { (row : Row) → row_at self.old number ≡ Some row → OnOk result (Counts self.old self.new step row n) }
        ensures rows { (m : ℕ) → row_at self.new m ≡ row_at self.old m }
        ensures err { OnErr result (SameCounts self.old self.new) }
    {
        if n == 0 {
            self.rows.remove(number, step);
            return Ok(());
        }
        self.rows.put(number, step, n)?;
        Ok(())
    }

    /// A step has the row under a number no more. It keeps its number until `release`.
    pub fn forget_at(&mut self, number: usize, step: StepId)
        ensures counts { (row : Row) → row_at self.old number ≡ Some row → Counts self.old self.new step row 0 }
        ensures rows { (m : ℕ) → row_at self.new m ≡ row_at self.old m }
    {
        self.rows.remove(number, step);
    }

    /// The number is free where no step has its row.
    #[tactic(auto, using(crate::specs::Supports::fewer_records, ev_bind::specs::Rows::exact_rows))]
    pub fn release(&mut self, number: usize)
        ensures counts { SameCounts self.old self.new }
        ensures rows { (m : ℕ) → m ≢ number → row_at self.new m ≡ row_at self.old m }
    {
        self.rows.tidy(number);
    }

    // A row without a number comes `n` times to a step.
    #[tactic(auto, using(ev_bind::specs::Rows::exact_rows))]
    fn add_new(&mut self, step: StepId, row: Row, n: u128) -> Result<(), AllocError>
        requires none { (m : ℕ) → row_at self.old m ≢ Some row }
        ensures counts { OnOk result (Counts self.old self.new step row n) }
        ensures err { OnErr result (SameCounts self.old self.new) }
        ensures err_rows { (m : ℕ) → OnErr result (row_at self.new m ≡ row_at self.old m) }
    {
        let number = self.rows.number(row)?;
        if let Err(fault) = self.rows.put(number, step, n) {
            self.rows.tidy(number);
            return Err(fault);
        }
        Ok(())
    }

    /// A row comes `n` times more to a step.
    #[tactic(auto, using(ev_bind::specs::Rows::exact_rows))]
    pub fn add(&mut self, step: StepId, row: &Row, n: u128) -> Result<Change, AllocError>
        requires some { 1 ≤ n }
        requires fits { count_of self.old step row.now + n < 2 ^ 128 }
        ensures counts { OnOk result (Counts self.old self.new step row.now (count_of self.old step row.now + n)) }
        ensures change { IfOk result (λ c. c ≡ (if count_of self.old step row.now == 0 then Change.Appeared else Change.Same)) }
        ensures err { OnErr result (SameCounts self.old self.new) }
        ensures err_rows { (m : ℕ) → OnErr result (row_at self.new m ≡ row_at self.old m) }
    {
        match self.rows.find(row) {
            Some(number) => self.add_at(number, step, n),
            None => {
                self.add_new(step, row.share()?, n)?;
                Ok(Change::Appeared)
            }
        }
    }

    /// A row goes `n` times from a step.
    #[tactic(auto, using(ev_bind::specs::Rows::exact_rows))]
    pub fn take(&mut self, step: StepId, row: &Row, n: u128) -> Change
        requires some { 1 ≤ n }
        requires enough { n ≤ count_of self.old step row.now }
        ensures counts { Counts self.old self.new step row.now (count_of self.old step row.now - n) }
        ensures change { result ≡ (if count_of self.old step row.now == n then Change.Vanished else Change.Same) }
    {
        match self.rows.find(row) {
            None => Change::Same,
            Some(number) => {
                let change = self.take_at(number, step, n);
                self.release(number);
                change
            }
        }
    }

    /// A step has a row no more.
    #[tactic(auto, using(ev_bind::specs::Rows::exact_rows))]
    pub fn forget(&mut self, step: StepId, row: &Row)
        ensures { Counts self.old self.new step row.now 0 }
    {
        match self.rows.find(row) {
            None => {}
            Some(number) => {
                self.forget_at(number, step);
                self.release(number);
            }
        }
    }
}
