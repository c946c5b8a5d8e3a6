// Bindings cut to a set of slots.
ghost use Rattle.std.specs.Prelude.{◌≡◌, ◌<◌, ◌∷◌, [], length, unwrap_or, IfOk, MatchOption};
ghost use Rattle.event_model.specs.SlotSets.{slot_in};
ghost use Rattle.ev_bind.specs.Hashing.{code_of};
ghost use Rattle.ev_bind.specs.Projections.{project, same_pairs};

use crate::bindings::{Binding, Cell};
use crate::hashing::pair_code;
use crate::pairs::cmp_pair;
use event_model::Slots;
use std::alloc::{AllocError, Global};

// The pairs whose slot is in the set, or `None` where these are all. Those behind the last one that goes stay shared.
#[tactic(auto, using(crate::specs::Projections::is_binding_project))]
pub(crate) fn cut(
    alloc: Global,
    binding: &Binding,
    slots: &Slots,
) -> Result<Option<Binding>, AllocError>
    ensures { IfOk result (λ o. unwrap_or o binding.now ≡ project slots.now binding.now) }
{
    match binding.first() {
        None => Ok(None),
        Some(cell) => {
            let rest = cut(alloc, &cell.rest, slots)?;
            match rest {
                None => {
                    if slots.has(cell.slot) {
                        return Ok(None);
                    }
                    Ok(Some(cell.rest.share()?))
                }
                Some(rest) => {
                    if slots.has(cell.slot) {
                        return Ok(Some(cell.with(alloc, rest)?));
                    }
                    Ok(Some(rest))
                }
            }
        }
    }
}

// The hash of the pairs whose slot is in the set.
pub(crate) fn code_on(binding: &Binding, slots: &Slots) -> u64
    ensures { result ≡ code_of (project slots.now binding.now) }
{
    match binding.first() {
        None => 0,
        Some(cell) => {
            let rest = code_on(&cell.rest, slots);
            if slots.has(cell.slot) {
                return pair_code(cell.slot, &cell.term, rest);
            }
            rest
        }
    }
}

// The first cell whose slot is in the set.
fn next_in<'a>(binding: &'a Binding, slots: &Slots) -> Option<&'a Cell>
    ensures first { let kept = project slots.now binding.now in
        MatchOption result (kept ≡ []) (λ c. kept ≡ (c.now.slot, c.now.term) ∷ project slots.now c.now.rest) }
    ensures shorter { MatchOption result (Unit {0}) (λ c. length c.now.rest < length binding.now) }
{
    match binding.first() {
        None => None,
        Some(cell) => {
            if slots.has(cell.slot) {
                return Some(cell);
            }
            next_in(&cell.rest, slots)
        }
    }
}

// Whether the pairs in these slots are the same.
pub(crate) fn same_in(a: &Binding, b: &Binding, slots: &Slots) -> bool
    ensures { result ≡ same_pairs (project slots.now a.now) (project slots.now b.now) }
{
    match (next_in(a, slots), next_in(b, slots)) {
        (None, None) => true,
        (Some(left), Some(right)) => {
            if !cmp_pair(left.slot, &left.term, right.slot, &right.term).is_eq() {
                return false;
            }
            same_in(&left.rest, &right.rest, slots)
        }
        _ => false,
    }
}
