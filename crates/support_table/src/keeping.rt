// The rows that a caller wants stay at their steps, and the others go.
ghost use Rattle.std.specs.Prelude.{◌≡◌, ◌≢◌, ℕ, Some};
ghost use Rattle.ev_bind.specs.declared.rows.Row.{Row};
ghost use Rattle.support_table.specs.Keeping.{MayAnswer, IsKept};
ghost use Rattle.support_table.specs.Supports.{count_of, row_at};

use crate::kept::Supports;
use ev_bind::Row;
use rule_ast::StepId;

impl Supports {
    // Whether the row under a number is wanted at a step.
    fn is_wanted<F: Fn(StepId, &Row) -> bool>(&self, number: usize, step: StepId, keep: &F) -> bool
        requires { F.IsAlwaysCallable keep.now }
        ensures { (row : Row) → row_at self.now number ≡ Some row → MayAnswer F.Fn keep.now step row result }
    {
        match self.rows.row(number) {
            None => true,
            Some(row) => keep(step, row),
        }
    }

    // The row under a number goes from a step where it isn't wanted there.
    fn keep_at<F: Fn(StepId, &Row) -> bool>(&mut self, number: usize, step: StepId, keep: &F)
        requires { F.IsAlwaysCallable keep.now }
        ensures kept { (row : Row) → row_at self.old number ≡ Some row
            → IsKept F.Fn keep.now step row (count_of self.old step row) (count_of self.new step row) }
        ensures others { (row : Row) → row_at self.old number ≡ Some row → (s : ℕ) (r : Row) → (s ≡ step → r ≡ row → ⊥)
            → count_of self.new s r ≡ count_of self.old s r }
        ensures rows { (m : ℕ) → row_at self.new m ≡ row_at self.old m }
    {
        if !self.is_wanted(number, step, keep) {
            self.forget_at(number, step);
        }
    }

    // The row under a number goes from each step where it isn't wanted.
    fn keep_steps<F: Fn(StepId, &Row) -> bool>(&mut self, number: usize, keep: &F)
        requires { F.IsAlwaysCallable keep.now }
        ensures kept { (row : Row) → row_at self.old number ≡ Some row → (s : ℕ)
            → IsKept F.Fn keep.now s row (count_of self.old s row) (count_of self.new s row) }
        ensures others { (row : Row) → row_at self.old number ≡ Some row → (s : ℕ) (r : Row) → r ≢ row
            → count_of self.new s r ≡ count_of self.old s r }
        ensures rows { (m : ℕ) → row_at self.new m ≡ row_at self.old m }
    {
        let mut last = None;
        while let Some(step) = self.rows.next_step(number, last) {
            self.keep_at(number, step, keep);
            last = Some(step);
        }
    }

    // The same, and the number is free where no step has the row any more.
    fn keep_number<F: Fn(StepId, &Row) -> bool>(&mut self, number: usize, keep: &F)
        requires { F.IsAlwaysCallable keep.now }
        ensures kept { (row : Row) → row_at self.old number ≡ Some row → (s : ℕ)
            → IsKept F.Fn keep.now s row (count_of self.old s row) (count_of self.new s row) }
        ensures others { (s : ℕ) (r : Row) → row_at self.old number ≢ Some r → count_of self.new s r ≡ count_of self.old s r }
        ensures rows { (m : ℕ) → m ≢ number → row_at self.new m ≡ row_at self.old m }
    {
        if self.rows.row(number).is_some() {
            self.keep_steps(number, keep);
            self.release(number);
        }
    }

    /// Exactly the rows stay for which `keep` answers true, each at its step and with its count. `keep` is asked once for each step
    /// and row, and may always be called. It takes no memory. It goes over all numbers, so it takes time of all that the table holds:
    /// it is for callers that have no queue of what goes.
    pub fn keep_only<F: Fn(StepId, &Row) -> bool>(&mut self, keep: F)
        requires { F.IsAlwaysCallable keep }
        ensures { (step : ℕ) (row : Row) → IsKept F.Fn keep step row (count_of self.old step row) (count_of self.new step row) }
    {
        for number in 0..self.rows.numbers() {
            self.keep_number(number, &keep);
        }
    }
}
