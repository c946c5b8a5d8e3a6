// Keys under numbers, found by their hashes.
ghost use Rattle.std.specs.Prelude.{◌≡◌, ◌≢◌, ℕ, Some, None, IfOk, OnErr, MatchOption};
ghost use Rattle.ordered_lists.specs.Canon.{Exact};
ghost use Rattle.row_table.specs.Tables.{entry_in, key_in, value_in, hashed, IsKeyTable};

use crate::slack::{trim_numbers, trim_places};
use slab::Slab;
use std::alloc::{AllocError, Global};
use std::collections::{BTreeMap, HashMap};
use std::hash::{DefaultHasher, Hash, Hasher};

// SipHash-1-3, since whoever sends events chooses the keys.
#[tactic(auto, unfolding(crate::specs::Tables::hashed))]
pub(crate) fn hash_of<K: Hash>(key: &K) -> u64
    ensures { result ≡ hashed K.hash_input key.now }
{
    let mut state = DefaultHasher::new();
    key.hash(&mut state);
    state.finish()
}

/// A key with its value.
#[derive(Drop)]
pub struct Entry<K, V> {
    pub key: K,
    pub value: V,
}

/// Keys under numbers that the table picks, each with a value. A hash has one number in the first map; the other keys with
/// this hash are in the second map, so equal hashes are no equal keys, and many of them cost a search by halves.
#[derive(Drop)]
pub struct KeyTable<K: Hash + Ord + Clone, V: Drop> {
    pub(crate) entries: Slab<Entry<K, V>>,
    firsts: HashMap<u64, usize>,
    rest: BTreeMap<K, usize>,
    // How many were taken since places were given back.
    taken: usize,
}

impl<K: Hash + Ord + Clone, V: Drop> KeyTable<K, V> {
    pub fn new(alloc: Global) -> KeyTable<K, V>
        ensures empty { (n : ℕ) → key_in result n ≡ None }
        ensures table { IsKeyTable (hashed K.hash_input) K.cmp result }
    {
        KeyTable {
            entries: Slab::new(alloc),
            firsts: HashMap::new(alloc),
            rest: BTreeMap::new(alloc),
            taken: 0,
        }
    }

    /// The number of a key.
    pub fn find(&self, key: &K) -> Option<usize>
        requires exact { Exact K.cmp }
        requires table { IsKeyTable (hashed K.hash_input) K.cmp self.now }
        ensures { MatchOption result ((n : ℕ) → key_in self.now n ≢ Some key.now) (λ n. key_in self.now n ≡ Some key.now) }
    {
        self.find_under(hash_of(key), key)
    }

    // The number of a key that has this hash.
    pub(crate) fn find_under(&self, hash: u64, key: &K) -> Option<usize>
        requires exact { Exact K.cmp }
        requires hash { hash ≡ hashed K.hash_input key.now }
        requires table { IsKeyTable (hashed K.hash_input) K.cmp self.now }
        ensures { MatchOption result ((n : ℕ) → key_in self.now n ≢ Some key.now) (λ n. key_in self.now n ≡ Some key.now) }
    {
        if let Some(number) = self.firsts.get(&hash) {
            if let Some(held) = self.entries.get(*number) {
                if held.key.cmp(key).is_eq() {
                    return Some(*number);
                }
            }
        }
        match self.rest.get(key) {
            None => None,
            Some(number) => Some(*number),
        }
    }

    /// Puts in a key that isn't there.
    pub fn put(&mut self, key: K, value: V) -> Result<usize, AllocError>
        requires exact { Exact K.cmp }
        requires table { IsKeyTable (hashed K.hash_input) K.cmp self.old }
        requires clones { (x y : K) → K.is_clone x y → y ≡ x }
        requires absent { (n : ℕ) → key_in self.old n ≢ Some key }
        ensures fresh { IfOk result (λ n. key_in self.old n ≡ None) }
        ensures held { IfOk result (λ n. key_in self.new n ≡ Some key) }
        ensures value { IfOk result (λ n. value_in self.new n ≡ Some value) }
        ensures others { IfOk result (λ n. (m : ℕ) → m ≢ n → entry_in self.new m ≡ entry_in self.old m) }
        ensures err { OnErr result ((m : ℕ) → entry_in self.new m ≡ entry_in self.old m) }
        ensures table { IsKeyTable (hashed K.hash_input) K.cmp self.new }
    {
        let hash = hash_of(&key);
        self.put_under(hash, key, value)
    }

    // Puts in a key that has this hash and isn't there.
    pub(crate) fn put_under(&mut self, hash: u64, key: K, value: V) -> Result<usize, AllocError>
        requires exact { Exact K.cmp }
        requires hash { hash ≡ hashed K.hash_input key }
        requires table { IsKeyTable (hashed K.hash_input) K.cmp self.old }
        requires clones { (x y : K) → K.is_clone x y → y ≡ x }
        requires absent { (n : ℕ) → key_in self.old n ≢ Some key }
        ensures fresh { IfOk result (λ n. key_in self.old n ≡ None) }
        ensures held { IfOk result (λ n. key_in self.new n ≡ Some key) }
        ensures value { IfOk result (λ n. value_in self.new n ≡ Some value) }
        ensures others { IfOk result (λ n. (m : ℕ) → m ≢ n → entry_in self.new m ≡ entry_in self.old m) }
        ensures err { OnErr result ((m : ℕ) → entry_in self.new m ≡ entry_in self.old m) }
        ensures table { IsKeyTable (hashed K.hash_input) K.cmp self.new }
    {
        self.entries.reserve(1)?;
        let number = self.entries.vacant_key();
        match self.firsts.get(&hash) {
            None => {
                self.firsts.insert(hash, number)?;
                Ok(self.entries.insert_reserved(Entry { key, value }))
            }
            Some(_) => {
                let copy = key.clone()?;
                self.rest.insert(copy, number)?;
                Ok(self.entries.insert_reserved(Entry { key, value }))
            }
        }
    }

    /// Takes a key out.
    #[tactic(auto, using(crate::proofs::Kept::table_trimmed))]
    pub fn take(&mut self, number: usize) -> Option<Entry<K, V>>
        requires exact { Exact K.cmp }
        requires table { IsKeyTable (hashed K.hash_input) K.cmp self.old }
        ensures value { result ≡ entry_in self.old number }
        ensures gone { key_in self.new number ≡ None }
        ensures others { (m : ℕ) → m ≢ number → entry_in self.new m ≡ entry_in self.old m }
        ensures table { IsKeyTable (hashed K.hash_input) K.cmp self.new }
    {
        let entry = self.pull(number);
        trim_places(&mut self.entries, &mut self.taken);
        trim_numbers(&mut self.firsts);
        entry
    }

    // The same with all memory kept.
    fn pull(&mut self, number: usize) -> Option<Entry<K, V>>
        requires exact { Exact K.cmp }
        requires table { IsKeyTable (hashed K.hash_input) K.cmp self.old }
        ensures value { result ≡ entry_in self.old number }
        ensures gone { key_in self.new number ≡ None }
        ensures others { (m : ℕ) → m ≢ number → entry_in self.new m ≡ entry_in self.old m }
        ensures table { IsKeyTable (hashed K.hash_input) K.cmp self.new }
    {
        match self.entries.try_remove(number) {
            None => None,
            Some(entry) => {
                let hash = hash_of(&entry.key);
                match self.firsts.get(&hash) {
                    None => {
                        self.rest.remove(&entry.key);
                        Some(entry)
                    }
                    Some(first) => {
                        if *first == number {
                            self.firsts.remove(&hash);
                            Some(entry)
                        } else {
                            self.rest.remove(&entry.key);
                            Some(entry)
                        }
                    }
                }
            }
        }
    }
}
