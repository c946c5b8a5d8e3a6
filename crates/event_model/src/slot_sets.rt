// Sets of slots.
ghost use Rattle.std.specs.Prelude.{◌≡◌, ℕ, false, ◌==◌, ◌||◌, ◌&&◌};
ghost use Rattle.std.specs.Bool.{Decides};
ghost use Rattle.event_model.specs.SlotSets.{slot_in, IsWithin};

use crate::terms::Slot;
use std::marker::Model;

/// A set of slots, of which a contract asks only `slot_in`.
#[derive(Clone, Copy, PartialEq, Eq)]
pub struct Slots {
    bits: u64,
}

impl Model for Slots {
    ghost Value = { ℕ };

    ghost view = { λ s. s.bits };

    ghost inverse = { λ n. record { bits = n } };
}

impl Slots {
    #[tactic(auto, using(crate::proofs::SlotSets::slot_in_none))]
    pub fn empty() -> Slots
        ensures { (t : ℕ) → slot_in result t ≡ false }
    {
        Slots { bits: 0 }
    }

    #[tactic(auto, using(crate::proofs::SlotSets::slot_in_added))]
    pub fn add(self, slot: Slot) -> Slots
        ensures { (t : ℕ) → slot_in result t ≡ (slot_in self t || (slot == t)) }
    {
        Slots {
            bits: self.bits | 1u64 << slot.number(),
        }
    }

    #[tactic(auto, using(crate::proofs::SlotSets::slot_in_shifted))]
    pub fn has(&self, slot: Slot) -> bool
        ensures { result ≡ slot_in self.now slot }
    {
        (self.bits >> slot.number()) & 1 == 1
    }

    #[tactic(auto, using(crate::proofs::SlotSets::slot_in_or))]
    pub fn union(&self, other: &Slots) -> Slots
        ensures { (t : ℕ) → slot_in result t ≡ (slot_in self.now t || slot_in other.now t) }
    {
        Slots {
            bits: self.bits | other.bits,
        }
    }

    #[tactic(auto, using(crate::proofs::SlotSets::slot_in_and))]
    pub fn meet(&self, other: &Slots) -> Slots
        ensures { (t : ℕ) → slot_in result t ≡ (slot_in self.now t && slot_in other.now t) }
    {
        Slots {
            bits: self.bits & other.bits,
        }
    }

    #[tactic(auto, using(crate::proofs::SlotSets::within_decides))]
    pub fn within(&self, other: &Slots) -> bool
        ensures { Decides result (IsWithin self.now other.now) }
    {
        self.bits & other.bits == self.bits
    }
}
