// What the definitions that contracts cite come to, in other words.
ghost use Rattle.std.specs.Prelude.{◌≡◌, ◌↔◌, IsTrue};
ghost use Rattle.event_model.specs.declared.terms.Pat.{Pat};
ghost use Rattle.event_model.specs.declared.terms.Term.{Term};
ghost use Rattle.ev_bind.specs.Bindings.{Pairs};
ghost use Rattle.ev_bind.specs.Fits.{fits};
ghost use Rattle.ev_bind.specs.Matching.{instance};
ghost use Rattle.term_eval.specs.Values.{binds_argument};

/// Under a binding of its variables, an argument of a condition without `_` is one term, its value.
pub fn arguments_are_exact()
    ensures { (b : Pairs) (p : Pat) (t : Term) → IsTrue (binds_argument b p) → IsTrue (fits b p t) ↔ (instance p b ≡ t) }
{}
