// Bindings, rows and the matching of atoms.
use crate::fixtures::{atom, pattern};
use ev_bind::{Binding, Row, cmp_rows, instance_atom, instance_of, match_atom};
use event_model::{Pat, Slot, Slots, Span, Term};
use std::alloc::Global;
use std::test::Fail;

fn is_number(term: &Term, value: i64) -> bool {
    match term {
        Term::Num(number) => *number == value,
        _ => false,
    }
}

// Whether a binding has exactly these pairs of slot and number, with rising slots.
fn has_pairs(binding: &Binding, wanted: &[(u8, i64)]) -> bool {
    let mut seen = 0;
    for number in 0..64u8 {
        if let Some(term) = binding.get(Slot::new(number)) {
            if seen >= wanted.len()
                || number != wanted[seen].0
                || !is_number(term, wanted[seen].1)
            {
                return false;
            }
            seen += 1;
        }
    }
    seen == wanted.len()
}

// The binding of one slot to a number.
fn single(alloc: Global, slot: Slot, value: i64) -> Result<Binding, Fail> {
    let binding = Binding::empty().extend(alloc, slot, &Term::Num(value))?;
    Ok(binding.ok_or("a binding")?)
}

#[test]
fn bindings_grow_and_merge(rt: HostRuntime) -> Result<(), Fail> {
    let alloc = rt.alloc();
    let first = single(alloc, Slot::new(0), 1)?;
    assert!(rt; has_pairs(&first, &[(0, 1)]) && has_pairs(&first.share()?, &[(0, 1)]));
    assert!(rt; first.extend(alloc, Slot::new(0), &Term::Num(2))?.is_none());
    assert!(rt; matches!(first.get(Slot::new(0)), Some(Term::Num(1))));
    assert!(rt; first.get(Slot::new(1)).is_none());
    let second = single(alloc, Slot::new(1), 2)?;
    let both = first.merge(alloc, &second)?.ok_or("both")?;
    assert!(rt; has_pairs(&both, &[(0, 1), (1, 2)]));
    let slots = Slots::empty().add(Slot::new(1));
    assert!(rt; has_pairs(&both.project(alloc, &slots)?, &[(1, 2)]));
    assert!(rt; both.same_on(&second, &slots) && !both.same_on(&first, &slots));
    let row = Row {
        binding: both,
        span: Span::new(1, 2),
    };
    let later = Row {
        binding: first,
        span: Span::new(1, 3),
    };
    assert!(rt; cmp_rows(&row.share()?, &row).is_eq() && row < later);
    Ok(())
}

#[test]
fn atoms_match_and_have_instances(rt: HostRuntime) -> Result<(), Fail> {
    let alloc = rt.alloc();
    let atom = atom(alloc, "a", &[1, 2])?;
    let zero = Slot::new(0);
    let twice = pattern(alloc, "a", &[Some(zero), Some(zero)])?;
    assert!(rt; match_atom(alloc, &twice, &atom)?.is_none());
    let once = pattern(alloc, "a", &[Some(zero), None])?;
    let binding = match_atom(alloc, &once, &atom)?.ok_or("once")?;
    assert!(rt; has_pairs(&binding, &[(0, 1)]));
    // Values take the place of variables.
    let made = instance_atom(alloc, &twice, &binding)?;
    assert!(rt; matches!(made.args.as_slice(), [Term::Num(1), Term::Num(1)]));
    assert!(rt; is_number(&instance_of(alloc, &Pat::Var(zero), &binding)?, 1));
    Ok(())
}
