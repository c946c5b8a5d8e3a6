// What a set of slots is.
ghost use Rattle.std.specs.Prelude.{◌≡◌, ℕ};
ghost use Rattle.event_model.specs.SlotSets.{slot_in};

/// Sets with the same members are the same set.
#[tactic(auto, using(crate::proofs::SlotSets::same_members))]
pub fn sets_are_their_members()
    ensures { (a b : ℕ) → ((slot : ℕ) → slot_in a slot ≡ slot_in b slot) → a ≡ b }
{}
