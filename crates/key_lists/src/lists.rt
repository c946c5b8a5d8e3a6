// Rising lists under numbers.
ghost use Rattle.std.specs.Prelude.{◌≡◌, ◌≢◌, [], ℕ, not, OnOk, OnErr};
ghost use Rattle.std.specs.List.{filter};
ghost use Rattle.std.specs.Ordering.{is_eq};
ghost use Rattle.ordered_lists.specs.Canon.{place, Exact};
ghost use Rattle.key_lists.specs.Lists.{list_in, InOrder};
ghost use Rattle.key_lists.specs.Pieces.{all_lent, IsRun};

use crate::groups::Probe;
use crate::pieces::Pieces;
use crate::runs::Run;
use crate::slack::trim_lists;
use std::alloc::{AllocError, Global};
use std::collections::HashMap;

/// Under each number a list in order, most of them empty.
#[derive(Drop)]
pub struct KeyLists<T: Ord + Drop> {
    alloc: Global,
    lists: HashMap<u64, Pieces<T>>,
}

impl<T: Ord + Drop> KeyLists<T> {
    pub fn new(alloc: Global) -> KeyLists<T>
        ensures empty { (h : ℕ) → list_in result h ≡ [] }
        ensures rising { InOrder T.cmp result }
    {
        KeyLists {
            alloc,
            lists: HashMap::new(alloc),
        }
    }

    /// The list under a number.
    pub fn run(&self, key: u64) -> Run<'_, T>
        ensures all { all_lent result ≡ list_in self.now key }
        ensures run { InOrder T.cmp self.now → IsRun T.cmp result }
    {
        let pieces = self.lists.get(&key);
        let first = match pieces {
            None => &[],
            Some(pieces) => pieces.first.as_slice(),
        };
        let more = match pieces {
            None => &[],
            Some(pieces) => pieces.more.as_slice(),
        };
        Run { first, more }
    }

    /// Puts an element at its place in the list under a number, where it isn't there yet.
    pub fn insert(&mut self, key: u64, item: T) -> Result<(), AllocError>
        requires exact { Exact T.cmp }
        requires rising { InOrder T.cmp self.old }
        ensures placed { OnOk result (list_in self.new key ≡ place T.cmp item (list_in self.old key)) }
        ensures others { (h : ℕ) → h ≢ key → list_in self.new h ≡ list_in self.old h }
        ensures err { OnErr result (list_in self.new key ≡ list_in self.old key) }
        ensures rising { InOrder T.cmp self.new }
    {
        match self.lists.get_mut(&key) {
            Some(pieces) => {
                pieces.insert(item)?;
            }
            None => {
                let mut pieces = Pieces::new(self.alloc);
                pieces.insert(item)?;
                self.lists.insert(key, pieces)?;
            }
        }
        Ok(())
    }

    /// Takes the element that a probe stands for out of the list under a number.
    pub fn remove_like<P: Probe<T>>(&mut self, key: u64, probe: &P)
        requires exact { Exact T.cmp }
        requires rising { InOrder T.cmp self.old }
        ensures rest { list_in self.new key ≡ filter (λ x. not (is_eq (T.cmp (P.like probe.now) x))) (list_in self.old key) }
        ensures others { (h : ℕ) → h ≢ key → list_in self.new h ≡ list_in self.old h }
        ensures rising { InOrder T.cmp self.new }
    {
        let mut none_left = false;
        if let Some(pieces) = self.lists.get_mut(&key) {
            pieces.remove_like(probe);
            none_left = pieces.is_empty();
        }
        if none_left {
            self.lists.remove(&key);
            trim_lists(&mut self.lists);
        }
    }
}
