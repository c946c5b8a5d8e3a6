// Pairs of a slot and its value.
ghost use Rattle.std.specs.Prelude.{◌≡◌};
ghost use Rattle.std.specs.Ordering.{is_eq};
ghost use Rattle.event_model.specs.TermOrder.{term_cmp};
ghost use Rattle.ev_bind.specs.Bindings.{pair_cmp};

use event_model::{Slot, Term, cmp_terms};
use std::cmp::Ordering;

pub(crate) fn same_terms(a: &Term, b: &Term) -> bool
    ensures { result ≡ is_eq (term_cmp a.now b.now) }
{
    cmp_terms(a, b).is_eq()
}

// By slot, and then by term.
pub(crate) fn cmp_pair(a_slot: Slot, a: &Term, b_slot: Slot, b: &Term) -> Ordering
    ensures { result ≡ pair_cmp (a_slot, a.now) (b_slot, b.now) }
{
    match a_slot.number().cmp(&b_slot.number()) {
        Ordering::Less => Ordering::Less,
        Ordering::Equal => cmp_terms(a, b),
        Ordering::Greater => Ordering::Greater,
    }
}
