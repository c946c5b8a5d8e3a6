// Rows under numbers, each with a value at some steps.
ghost use Rattle.std.specs.Prelude.{◌≡◌, ◌≢◌, ◌≤◌, ℕ, true, false, Some, None, IfOk, OnOk, OnErr, IsSome, IsOk, MatchOption};
ghost use Rattle.std.specs.Option.{option_copied};
ghost use Rattle.slab.specs.Slab as slots;
ghost use Rattle.ordered_lists.specs.Canon.{Exact};
ghost use Rattle.row_table.specs.Pairs.{get, IsNext, NoneBehind};
ghost use Rattle.row_table.specs.Tables.{hashed, key_of};
ghost use Rattle.row_table.specs.Steps.{value_at, row_under, step_value, same_record, HasValue, IsRowTable};

use crate::keys::{Entry, KeyTable, hash_of};
use crate::steps::StepList;
use slab::Slab;
use std::alloc::{AllocError, Global};
use std::hash::Hash;

/// Rows under numbers that the table picks; each has steps with a value each.
#[derive(Drop)]
pub struct RowTable<K: Hash + Ord + Clone, V: Copy + Drop> {
    alloc: Global,
    table: KeyTable<K, StepList<V>>,
}

impl<K: Hash + Ord + Clone, V: Copy + Drop> RowTable<K, V> {
    pub fn new(alloc: Global) -> RowTable<K, V>
        ensures empty { (n : ℕ) → row_under result n ≡ None }
        ensures table { IsRowTable (hashed K.hash_input) K.cmp result }
    {
        RowTable {
            alloc,
            table: KeyTable::new(alloc),
        }
    }

    /// The number of a row.
    pub fn find(&self, row: &K) -> Option<usize>
        requires exact { Exact K.cmp }
        requires table { IsRowTable (hashed K.hash_input) K.cmp self.now }
        ensures { MatchOption result ((n : ℕ) → row_under self.now n ≢ Some row.now) (λ n. row_under self.now n ≡ Some row.now) }
    {
        self.table.find(row)
    }

    /// The row under a number.
    pub fn row(&self, number: usize) -> Option<&K>
        ensures { option_copied result ≡ row_under self.now number }
    {
        match self.table.entries.get(number) {
            None => None,
            Some(entry) => Some(&entry.key),
        }
    }

    /// A number above those of all rows.
    pub fn numbers(&self) -> usize
        ensures { (n : ℕ) → result ≤ n → row_under self.now n ≡ None }
    {
        self.table.entries.capacity()
    }

    /// The steps that have a value at the row under a number, rising, each with it.
    pub fn steps(&self, number: usize) -> &[(u32, V)]
        ensures { (s : ℕ) → get result.now s ≡ step_value self.now number s }
    {
        match self.table.entries.get(number) {
            None => &[],
            Some(entry) => entry.value.as_slice(),
        }
    }

    /// Of the steps that have a value at the row under a number the first behind another, or of all.
    pub fn next_step(&self, number: usize, last: Option<u32>) -> Option<u32>
        ensures { MatchOption result (NoneBehind (step_value self.now number) last) (IsNext (step_value self.now number) last) }
    {
        match self.table.entries.get(number) {
            None => None,
            Some(entry) => entry.value.next(last),
        }
    }

    /// The value of a step at the row under a number.
    pub fn at(&self, number: usize, step: u32) -> Option<V>
        ensures { result ≡ step_value self.now number step }
    {
        match self.table.entries.get(number) {
            None => None,
            Some(entry) => entry.value.get(step),
        }
    }

    /// The value of a step at a row.
    pub fn get(&self, step: u32, row: &K) -> Option<V>
        requires exact { Exact K.cmp }
        requires table { IsRowTable (hashed K.hash_input) K.cmp self.now }
        ensures { MatchOption result ((v : V) → HasValue self.now step row.now v → ⊥) (λ v. HasValue self.now step row.now v) }
    {
        match self.table.find(row) {
            None => None,
            Some(number) => self.at(number, step),
        }
    }

    /// The number of a row, with a record for it.
    pub fn number(&mut self, row: K) -> Result<usize, AllocError>
        requires exact { Exact K.cmp }
        requires clones { (x y : K) → K.is_clone x y → y ≡ x }
        requires table { IsRowTable (hashed K.hash_input) K.cmp self.old }
        ensures held { IfOk result (λ n. row_under self.new n ≡ Some row) }
        ensures others { IfOk result (λ n. (m : ℕ) → m ≢ n → same_record self.old self.new m) }
        ensures values { OnOk result ((m s : ℕ) → step_value self.new m s ≡ step_value self.old m s) }
        ensures keys { OnOk result ((m : ℕ) (k : K) → row_under self.old m ≡ Some k → row_under self.new m ≡ Some k) }
        ensures err { OnErr result ((m : ℕ) → same_record self.old self.new m) }
        ensures table { IsRowTable (hashed K.hash_input) K.cmp self.new }
    {
        let hash = hash_of(&row);
        match self.table.find_under(hash, &row) {
            Some(number) => Ok(number),
            None => {
                let steps = StepList::new(self.alloc);
                self.table.put_under(hash, row, steps)
            }
        }
    }

    /// Gives a step its value at the row under a number.
    #[tactic(auto, using(crate::proofs::Kept::table_kept))]
    pub fn put(&mut self, number: usize, step: u32, value: V) -> Result<(), AllocError>
        requires table { IsRowTable (hashed K.hash_input) K.cmp self.old }
        requires held { row_under self.old number ≢ None }
        ensures here { OnOk result (step_value self.new number step ≡ Some value) }
        ensures steps { OnOk result ((s : ℕ) → s ≢ step → step_value self.new number s ≡ step_value self.old number s) }
        ensures others { (m : ℕ) → m ≢ number → same_record self.old self.new m }
        ensures keys { (m : ℕ) → row_under self.new m ≡ row_under self.old m }
        ensures err { OnErr result ((m s : ℕ) → step_value self.new m s ≡ step_value self.old m s) }
        ensures overwrite_succeeds { IsSome (step_value self.old number step) → IsOk result }
        ensures table { IsRowTable (hashed K.hash_input) K.cmp self.new }
    {
        write(&mut self.table.entries, number, step, value)
    }

    /// Writes over the value that a step has; it takes no memory.
    #[tactic(auto, using(crate::proofs::Kept::table_kept))]
    pub fn set(&mut self, number: usize, step: u32, value: V)
        requires table { IsRowTable (hashed K.hash_input) K.cmp self.old }
        requires there { IsSome (step_value self.old number step) }
        ensures here { step_value self.new number step ≡ Some value }
        ensures steps { (s : ℕ) → s ≢ step → step_value self.new number s ≡ step_value self.old number s }
        ensures others { (m : ℕ) → m ≢ number → same_record self.old self.new m }
        ensures keys { (m : ℕ) → row_under self.new m ≡ row_under self.old m }
        ensures table { IsRowTable (hashed K.hash_input) K.cmp self.new }
    {
        overwrite(&mut self.table.entries, number, step, value);
    }

    /// Takes a step's value away.
    #[tactic(auto, using(crate::proofs::Kept::table_kept))]
    pub fn remove(&mut self, number: usize, step: u32)
        requires table { IsRowTable (hashed K.hash_input) K.cmp self.old }
        ensures gone { step_value self.new number step ≡ None }
        ensures steps { (s : ℕ) → s ≢ step → step_value self.new number s ≡ step_value self.old number s }
        ensures others { (m : ℕ) → m ≢ number → same_record self.old self.new m }
        ensures keys { (m : ℕ) → row_under self.new m ≡ row_under self.old m }
        ensures table { IsRowTable (hashed K.hash_input) K.cmp self.new }
    {
        erase(&mut self.table.entries, number, step);
    }

    /// The record goes where no step has the row.
    pub fn tidy(&mut self, number: usize)
        requires exact { Exact K.cmp }
        requires table { IsRowTable (hashed K.hash_input) K.cmp self.old }
        ensures values { (m s : ℕ) → step_value self.new m s ≡ step_value self.old m s }
        ensures rows { (m : ℕ) (k : K) → row_under self.new m ≡ Some k → row_under self.old m ≡ Some k }
        ensures gone { ((s : ℕ) → step_value self.old number s ≡ None) → row_under self.new number ≡ None }
        ensures others { (m : ℕ) → m ≢ number → same_record self.old self.new m }
        ensures table { IsRowTable (hashed K.hash_input) K.cmp self.new }
    {
        if self.is_bare(number) {
            let _ = self.table.take(number);
        }
    }

    // Whether there is a record, and no step has its row.
    fn is_bare(&self, number: usize) -> bool
        ensures bare { result ≡ true → (s : ℕ) → step_value self.now number s ≡ None }
        ensures other { result ≡ false → ((s : ℕ) → step_value self.now number s ≡ None) → row_under self.now number ≡ None }
    {
        match self.table.entries.get(number) {
            None => false,
            Some(entry) => entry.value.is_empty(),
        }
    }
}

fn write<K: Drop, V: Copy + Drop>(
    entries: &mut Slab<Entry<K, StepList<V>>>,
    number: usize,
    step: u32,
    value: V,
) -> Result<(), AllocError>
    requires held { key_of entries.old number ≢ None }
    ensures here { OnOk result (value_at entries.new number step ≡ Some value) }
    ensures steps { OnOk result ((s : ℕ) → s ≢ step → value_at entries.new number s ≡ value_at entries.old number s) }
    ensures others { (m : ℕ) → m ≢ number → slots.get entries.new m ≡ slots.get entries.old m }
    ensures keys { (m : ℕ) → key_of entries.new m ≡ key_of entries.old m }
    ensures err { OnErr result ((m s : ℕ) → value_at entries.new m s ≡ value_at entries.old m s) }
    ensures overwrite_succeeds { IsSome (value_at entries.old number step) → IsOk result }
{
    match entries.get_mut(number) {
        None => Ok(()),
        Some(entry) => entry.value.insert(step, value),
    }
}

fn overwrite<K: Drop, V: Copy + Drop>(
    entries: &mut Slab<Entry<K, StepList<V>>>,
    number: usize,
    step: u32,
    value: V,
)
    requires there { IsSome (value_at entries.old number step) }
    ensures here { value_at entries.new number step ≡ Some value }
    ensures steps { (s : ℕ) → s ≢ step → value_at entries.new number s ≡ value_at entries.old number s }
    ensures others { (m : ℕ) → m ≢ number → slots.get entries.new m ≡ slots.get entries.old m }
    ensures keys { (m : ℕ) → key_of entries.new m ≡ key_of entries.old m }
{
    match entries.get_mut(number) {
        None => {}
        Some(entry) => entry.value.set(step, value),
    }
}

fn erase<K: Drop, V: Copy + Drop>(
    entries: &mut Slab<Entry<K, StepList<V>>>,
    number: usize,
    step: u32,
)
    ensures gone { value_at entries.new number step ≡ None }
    ensures steps { (s : ℕ) → s ≢ step → value_at entries.new number s ≡ value_at entries.old number s }
    ensures others { (m : ℕ) → m ≢ number → slots.get entries.new m ≡ slots.get entries.old m }
    ensures keys { (m : ℕ) → key_of entries.new m ≡ key_of entries.old m }
{
    match entries.get_mut(number) {
        None => {}
        Some(entry) => entry.value.remove(step),
    }
}
