// The steps of a record, rising, each with a value.
ghost use Rattle.std.specs.Prelude.{◌≡◌, ◌≢◌, ℕ, true, false, [], None, IsSome, IsOk, IfOk, IfErr, OnOk, OnErr, MatchOption};
ghost use Rattle.row_table.specs.Pairs.{get, IsStrictlySorted, IsAt, IsGapFor, SetsOnly, Drops, IsNext, NoneBehind, IsPlaceBehind};

use std::alloc::{AllocError, Global};
use std::marker::Model;

/// Steps with a value each, which contracts see as pairs with rising steps.
#[derive(Drop)]
pub struct StepList<V> {
    pairs: Vec<(u32, V)>,
}

impl<V> Model for StepList<V> {
    ghost use Rattle.std.specs.Prelude.{List, ℕ};
    ghost use Rattle.std.specs.Coded.{coded_list, coded×, coded_ℕ};
    ghost use Rattle.row_table.specs.Pairs.{IsStrictlySorted};

    ghost Value = { List (ℕ × V) };

    ghost coded = { coded_list (coded× coded_ℕ V.code) };

    ghost view = { λ m. m.pairs.items };

    ghost invariant = { λ m. IsStrictlySorted m.pairs.items };
}

impl<V: Copy> StepList<V> {
    pub fn new(alloc: Global) -> Self
        ensures { result ≡ [] }
    {
        StepList {
            pairs: Vec::new(alloc),
        }
    }

    pub fn is_empty(&self) -> bool
        ensures empty { result ≡ true → self.now ≡ [] }
        ensures full { result ≡ false → self.now ≢ [] }
    {
        self.pairs.is_empty()
    }

    pub fn as_slice(&self) -> &[(u32, V)]
        ensures { result.now ≡ self.now }
    {
        self.pairs.as_slice()
    }

    pub fn get(&self, step: u32) -> Option<V>
        ensures { result ≡ get self.now step }
    {
        match self.search(step) {
            Ok(at) => Some(self.pairs[at].1),
            Err(_) => None,
        }
    }

    /// The first step behind another, or of all.
    pub fn next(&self, last: Option<u32>) -> Option<u32>
        ensures { MatchOption result (NoneBehind (get self.now) last) (IsNext (get self.now) last) }
    {
        let at = self.place_behind(last);
        if at < self.pairs.len() {
            return Some(self.pairs[at].0);
        }
        None
    }

    // From where on the steps stand that come behind another.
    fn place_behind(&self, last: Option<u32>) -> usize
        ensures { IsPlaceBehind self.now last result }
    {
        let _rising = &self.pairs;
        match last {
            None => 0,
            Some(step) => match self.search(step) {
                Ok(at) => at + 1,
                Err(at) => at,
            },
        }
    }

    pub fn insert(&mut self, step: u32, value: V) -> Result<(), AllocError>
        ensures ok { OnOk result (SetsOnly self.old self.new step value) }
        ensures err { OnErr result (self.new ≡ self.old) }
        ensures overwrite_succeeds { IsSome (get self.old step) → IsOk result }
    {
        match self.search(step) {
            Ok(at) => {
                self.pairs[at] = (step, value);
                Ok(())
            }
            Err(at) => Ok(self.pairs.insert(at, (step, value))?),
        }
    }

    /// Writes over the value of a step that is there; it takes no memory.
    pub fn set(&mut self, step: u32, value: V)
        requires there { IsSome (get self.old step) }
        ensures { SetsOnly self.old self.new step value }
    {
        match self.search(step) {
            Ok(at) => self.pairs[at] = (step, value),
            Err(_) => {}
        }
    }

    pub fn remove(&mut self, step: u32)
        ensures { Drops self.old self.new step }
    {
        match self.search(step) {
            Ok(at) => {
                let _ = self.pairs.remove(at);
            }
            Err(_) => {}
        }
    }

    // Where the step is, or where it would go.
    fn search(&self, step: u32) -> Result<usize, usize>
        ensures found { IfOk result (IsAt self.now step) }
        ensures absent { IfErr result (IsGapFor self.now step) }
    {
        let len = self.pairs.len();
        if len > 0 && self.pairs[len - 1].0 < step {
            return Err(len);
        }
        self.pairs.binary_search_by_key(&step, |&(k, _)| k)
    }
}
