// What the definitions that contracts cite come to, in other words.
ghost use Rattle.std.specs.Prelude.{◌≡◌, ◌↔◌, ◌⊎◌, ◌∷◌, [], ℕ, IsSome};
ghost use Rattle.event_model.specs.declared.atoms.Atom.{Atom};
ghost use Rattle.event_model.specs.declared.atoms.PatAtom.{PatAtom};
ghost use Rattle.event_model.specs.declared.terms.Term.{Term};
ghost use Rattle.ev_bind.specs.Bindings.{Pairs, IsBinding, join, value_at};
ghost use Rattle.ev_bind.specs.Matching.{match_of};
ghost use Rattle.ev_bind.specs.Fits.{Matches};

/// Two bindings have a union exactly where no slot has two values, and it has the values of both.
pub fn unions_are_exact()
    ensures agree { (a b : Pairs) → IsBinding a → IsBinding b →
        IsSome (join a b) ↔ ((slot : ℕ) (v w : Term) → value_at a slot ≡ Some v → value_at b slot ≡ Some w → v ≡ w) }
    ensures values { (a b d : Pairs) → IsBinding a → IsBinding b → join a b ≡ Some d →
        (slot : ℕ) (v : Term) → (value_at d slot ≡ Some v) ↔ ((value_at a slot ≡ Some v) ⊎ (value_at b slot ≡ Some v)) }
{}

/// A binding takes one more pair exactly where its slot has no other value.
pub fn extensions_are_exact()
    ensures { (b : Pairs) (slot : ℕ) (t : Term) → IsBinding b →
        IsSome (join b ((slot, t) ∷ [])) ↔ ((v : Term) → value_at b slot ≡ Some v → v ≡ t) }
{}

/// A match is a binding of exactly the variables of the atom of a rule under which it is the ground atom, and each such
/// binding is the match.
pub fn matches_are_exact()
    ensures found { (p : PatAtom) (a : Atom) (b : Pairs) → match_of p a ≡ Some b → Matches p a b }
    ensures complete { (p : PatAtom) (a : Atom) (b : Pairs) → Matches p a b → match_of p a ≡ Some b }
{}
