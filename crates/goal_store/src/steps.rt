// The lists in which the rows of a step stand.
ghost use Rattle.std.specs.Prelude.{◌≡◌, ◌++◌, ◌∷◌, ℕ, [], false, length, IfOk, OnOk, OnErr};
ghost use Rattle.goal_store.specs.Indexed.{Rows, also, less};

use crate::indexes::RowIndex;
use ev_bind::Row;
use std::alloc::AllocError;

/// The indexes of a step.
#[derive(Drop)]
pub(crate) struct StepPlaces {
    pub(crate) indexes: Vec<RowIndex>,
}

impl StepPlaces {
    ghost use Rattle.goal_store.specs.Steps.{ListsAt, SameKinds};

    /// One index more; answers where it stands.
    pub(crate) fn add(&mut self, index: RowIndex) -> Result<usize, AllocError>
        ensures at { IfOk result (λ k. k ≡ length self.old.indexes.items) }
        ensures ok { OnOk result (self.new.indexes.items ≡ self.old.indexes.items ++ index ∷ []) }
        ensures err { OnErr result (self.new.indexes.items ≡ self.old.indexes.items) }
    {
        let at = self.indexes.len();
        self.indexes.push(index)?;
        Ok(at)
    }

    /// A row goes out of each index under its number.
    pub(crate) fn remove(&mut self, row: &Row, number: usize)
        ensures less { (k : ℕ) (held : Rows) → ListsAt self.old.indexes.items k held
            → ListsAt self.new.indexes.items k (less row.now number held) }
        ensures kinds { SameKinds self.old.indexes.items self.new.indexes.items }
    {
        for i in 0..self.indexes.len() {
            self.indexes[i].remove(row, number);
        }
    }

    /// A row comes into each index under its number. After want of memory all are as before.
    pub(crate) fn insert(&mut self, row: &Row, number: usize) -> Result<(), AllocError>
        ensures ok { (k : ℕ) (held : Rows) → ListsAt self.old.indexes.items k held
            → OnOk result (ListsAt self.new.indexes.items k (also row.now number held)) }
        ensures err { (k : ℕ) (held : Rows) → held row.now number ≡ false → ListsAt self.old.indexes.items k held
            → OnErr result (ListsAt self.new.indexes.items k held) }
        ensures kinds { SameKinds self.old.indexes.items self.new.indexes.items }
    {
        for i in 0..self.indexes.len() {
            match self.indexes[i].insert(row, number) {
                Ok(()) => {}
                Err(fault) => {
                    self.remove(row, number);
                    return Err(fault);
                }
            }
        }
        Ok(())
    }
}
