// Unions of bindings. What stands behind the last slot of one binding is shared with the other.
ghost use Rattle.std.specs.Prelude.{◌≡◌, ◌∷◌, [], option_map, IfOk};
ghost use Rattle.ev_bind.specs.Bindings.{Pair, Pairs, IsBinding, join, value_at};
ghost use Rattle.ev_bind.specs.Unions.{union_is};

use crate::bindings::{Binding, Cell};
use crate::pairs::same_terms;
use event_model::{Slot, Term};
use std::alloc::{AllocError, Global};
use std::cmp::Ordering;

// What the union of two bindings is.
#[derive(Drop)]
pub(crate) enum Union {
    // None: a slot has two values.
    Nothing,
    Left,
    Right,
    Made(Binding),
}

// The binding with one more pair, whose slot has no value.
pub(crate) fn with_pair(
    alloc: Global,
    binding: &Binding,
    slot: Slot,
    term: &Term,
) -> Result<Binding, AllocError>
    requires { value_at binding.now slot ≡ None }
    ensures { IfOk result (λ b. join binding.now ((slot, term.now) ∷ []) ≡ Some b) }
{
    match binding.first() {
        None => Binding::in_front(alloc, slot, term.share()?, Binding::empty()),
        Some(cell) => {
            if slot.number() < cell.slot.number() {
                return Binding::in_front(alloc, slot, term.share()?, binding.share()?);
            }
            let rest = with_pair(alloc, &cell.rest, slot, term)?;
            cell.with(alloc, rest)
        }
    }
}

// A pair in front of the left binding, where the union without it is this.
fn with_left(alloc: Global, first: &Cell, rest: Union, right: &Binding) -> Result<Union, AllocError>
    requires { (d : Pairs) → union_is rest first.now.rest right.now ≡ Some d → IsBinding ((first.now.slot, first.now.term) ∷ d) }
    ensures { let p : Pair = (first.now.slot, first.now.term) in
        IfOk result (λ u. union_is u (p ∷ first.now.rest) right.now ≡ option_map (λ d. p ∷ d) (union_is rest first.now.rest right.now)) }
{
    match rest {
        Union::Nothing => Ok(Union::Nothing),
        Union::Left => Ok(Union::Left),
        Union::Right => Ok(Union::Made(first.with(alloc, right.share()?)?)),
        Union::Made(made) => Ok(Union::Made(first.with(alloc, made)?)),
    }
}

// A pair in front of the right binding, where the union without it is this.
fn with_right(alloc: Global, left: &Binding, first: &Cell, rest: Union) -> Result<Union, AllocError>
    requires { (d : Pairs) → union_is rest left.now first.now.rest ≡ Some d → IsBinding ((first.now.slot, first.now.term) ∷ d) }
    ensures { let p : Pair = (first.now.slot, first.now.term) in
        IfOk result (λ u. union_is u left.now (p ∷ first.now.rest) ≡ option_map (λ d. p ∷ d) (union_is rest left.now first.now.rest)) }
{
    match rest {
        Union::Nothing => Ok(Union::Nothing),
        Union::Left => Ok(Union::Made(first.with(alloc, left.share()?)?)),
        Union::Right => Ok(Union::Right),
        Union::Made(made) => Ok(Union::Made(first.with(alloc, made)?)),
    }
}

// One pair in front of both.
fn with_both(alloc: Global, first: &Cell, rest: Union, right: &Binding) -> Result<Union, AllocError>
    requires { (d : Pairs) → union_is rest first.now.rest right.now ≡ Some d → IsBinding ((first.now.slot, first.now.term) ∷ d) }
    ensures { let p : Pair = (first.now.slot, first.now.term) in
        IfOk result (λ u. union_is u (p ∷ first.now.rest) (p ∷ right.now)
        ≡ option_map (λ d. p ∷ d) (union_is rest first.now.rest right.now)) }
{
    match rest {
        Union::Nothing => Ok(Union::Nothing),
        Union::Left => Ok(Union::Left),
        Union::Right => Ok(Union::Right),
        Union::Made(made) => Ok(Union::Made(first.with(alloc, made)?)),
    }
}

pub(crate) fn unite(alloc: Global, a: &Binding, b: &Binding) -> Result<Union, AllocError>
    ensures { IfOk result (λ u. union_is u a.now b.now ≡ join a.now b.now) }
{
    match (a.first(), b.first()) {
        (None, _) => Ok(Union::Right),
        (Some(_), None) => Ok(Union::Left),
        (Some(left), Some(right)) => match left.slot.number().cmp(&right.slot.number()) {
            Ordering::Less => {
                let rest = unite(alloc, &left.rest, b)?;
                with_left(alloc, left, rest, b)
            }
            Ordering::Greater => {
                let rest = unite(alloc, a, &right.rest)?;
                with_right(alloc, a, right, rest)
            }
            Ordering::Equal => {
                if !same_terms(&left.term, &right.term) {
                    return Ok(Union::Nothing);
                }
                let rest = unite(alloc, &left.rest, &right.rest)?;
                with_both(alloc, left, rest, &right.rest)
            }
        },
    }
}
