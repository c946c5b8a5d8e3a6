// The values of some variables.
ghost use Rattle.std.specs.Prelude.{◌≡◌, ◌∷◌, [], IfOk, MatchOption};
ghost use Rattle.std.specs.Bool.{Decides};
ghost use Rattle.std.specs.Option.{option_copied};
ghost use Rattle.ev_bind.specs.Bindings.{IsBinding, join, value_at};
ghost use Rattle.ev_bind.specs.Hashing.{code_of};
ghost use Rattle.ev_bind.specs.Projections.{project};

use crate::hashing::pair_code;
use crate::pairs::same_terms;
use crate::projections::{code_on, cut, same_in};
use crate::unions::{Union, unite, with_pair};
use event_model::{Slot, Slots, Term};
use std::alloc::{AllocError, Global};
use std::marker::Model;
use std::rc::Rc;

/// The values of some variables, which contracts see as the list of pairs of slot and term with rising slots.
/// It is a chain of cells, and each cell can have several owners: bindings that end alike share their ends.
#[cycle(chain)]
#[derive(Drop)]
pub struct Binding {
    first: Option<Rc<Cell>>,
}

// A pair, the pairs with higher slots, and the hash of all these.
#[cycle(chain)]
#[derive(Drop)]
pub(crate) struct Cell {
    hash: u64,
    pub(crate) slot: Slot,
    pub(crate) term: Term,
    pub(crate) rest: Binding,
}

impl Model for Binding {
    ghost use Rattle.std.specs.Coded.{codes};
    ghost use Rattle.event_model.specs.contracts.terms.Term as term;
    ghost use Rattle.ev_bind.specs.Bindings.{Pairs};

    ghost Value = { Pairs };

    ghost coded = { Prim.hlevel (codes, term.the_row.coded) };

    ghost use Rattle.std.specs.Prelude.{length};
    ghost use Rattle.ev_bind.specs.Chains.{pairs_in, IsChain};

    ghost view = { λ b. pairs_in b.first };

    ghost invariant = { λ b. IsChain b.first };

    ghost size = { length };

    ghost use Rattle.std.proofs.Common.{arith};

    ghost size_decreases = { λ a h. Prim.grind arith };
}

impl Cell {
    // The same pair in front of others.
    pub(crate) fn with(&self, alloc: Global, rest: Binding) -> Result<Binding, AllocError>
        requires { IsBinding ((self.now.slot, self.now.term) ∷ rest) }
        ensures { IfOk result (λ b. b ≡ (self.now.slot, self.now.term) ∷ rest) }
    {
        Binding::in_front(alloc, self.slot, self.term.share()?, rest)
    }
}

impl Binding {
    /// The binding of no variable.
    pub fn empty() -> Binding
        ensures { result ≡ [] }
    {
        Binding { first: None }
    }

    // One pair more, whose slot is below all others.
    pub(crate) fn in_front(
        alloc: Global,
        slot: Slot,
        term: Term,
        rest: Binding,
    ) -> Result<Binding, AllocError>
        requires { IsBinding ((slot, term) ∷ rest) }
        ensures { IfOk result (λ b. b ≡ (slot, term) ∷ rest) }
    {
        let hash = pair_code(slot, &term, rest.hash());
        let cell = Cell {
            hash,
            slot,
            term,
            rest,
        };
        Ok(Binding {
            first: Some(Rc::new(alloc, cell)?),
        })
    }

    // The first pair and those behind it.
    pub(crate) fn first(&self) -> Option<&Cell>
        ensures pairs { MatchOption result (self.now ≡ []) (λ c. self.now ≡ (c.now.slot, c.now.term) ∷ c.now.rest) }
        ensures binding { IsBinding self.now }
    {
        match &self.first {
            None => None,
            Some(cell) => Some(cell),
        }
    }

    /// One more owner of the same binding.
    pub fn share(&self) -> Result<Binding, AllocError>
        ensures { IfOk result (λ b. b ≡ self.now) }
    {
        match &self.first {
            None => Ok(Binding { first: None }),
            Some(cell) => Ok(Binding {
                first: Some(cell.clone()?),
            }),
        }
    }

    /// The hash of the pairs, which was made with the binding.
    pub fn hash(&self) -> u64
        ensures code { result ≡ code_of self.now }
        ensures binding { IsBinding self.now }
    {
        match &self.first {
            None => 0,
            Some(cell) => cell.hash,
        }
    }

    /// The value of a slot.
    pub fn get(&self, slot: Slot) -> Option<&Term>
        ensures { option_copied result ≡ value_at self.now slot }
    {
        self.value_of(slot)
    }

    fn value_of(&self, slot: Slot) -> Option<&Term>
        ensures value { option_copied result ≡ value_at self.now slot }
        ensures binding { IsBinding self.now }
    {
        match self.first() {
            None => None,
            Some(cell) => {
                if cell.slot == slot {
                    return Some(&cell.term);
                }
                cell.rest.value_of(slot)
            }
        }
    }

    /// The binding with one more pair, or `None` where the slot has another value.
    pub fn extend(
        &self,
        alloc: Global,
        slot: Slot,
        term: &Term,
    ) -> Result<Option<Binding>, AllocError>
        ensures { IfOk result (λ o. o ≡ join self.now ((slot, term.now) ∷ [])) }
    {
        match self.value_of(slot) {
            Some(value) => {
                if same_terms(value, term) {
                    return Ok(Some(self.share()?));
                }
                Ok(None)
            }
            None => Ok(Some(with_pair(alloc, self, slot, term)?)),
        }
    }

    /// The pairs of both, or `None` where a slot has two values.
    pub fn merge(&self, alloc: Global, other: &Binding) -> Result<Option<Binding>, AllocError>
        ensures { IfOk result (λ o. o ≡ join self.now other.now) }
    {
        match unite(alloc, self, other)? {
            Union::Nothing => Ok(None),
            Union::Left => Ok(Some(self.share()?)),
            Union::Right => Ok(Some(other.share()?)),
            Union::Made(union) => Ok(Some(union)),
        }
    }

    /// The pairs whose slot is in the set.
    pub fn project(&self, alloc: Global, slots: &Slots) -> Result<Binding, AllocError>
        ensures { IfOk result (λ b. b ≡ project slots.now self.now) }
    {
        match cut(alloc, self, slots)? {
            None => self.share(),
            Some(kept) => Ok(kept),
        }
    }

    /// The hash of the pairs whose slot is in the set, with no binding made.
    pub fn hash_on(&self, slots: &Slots) -> u64
        ensures { result ≡ code_of (project slots.now self.now) }
    {
        code_on(self, slots)
    }

    #[tactic(auto, using(crate::specs::Projections::same_pairs_decides))]
    /// Whether both have the same pairs in these slots.
    pub fn same_on(&self, other: &Binding, slots: &Slots) -> bool
        ensures { Decides result (project slots.now self.now ≡ project slots.now other.now) }
    {
        same_in(self, other, slots)
    }
}
