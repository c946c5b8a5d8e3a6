// The matching of atoms.
ghost use Rattle.std.specs.Prelude.{◌≡◌, ◌≤◌, [], map, length, true, drop, option_and_then, IfOk, if◌then◌else◌};
ghost use Rattle.event_model.specs.declared.terms.Term.{out-Term};
ghost use Rattle.ev_bind.specs.Bindings.{IsBinding, join};
ghost use Rattle.ev_bind.specs.Matching.{pairs_of, pairs_of_all, number_pairs, symbol_pairs, text_pairs, match_of, match_of_args, values, numbered};

use crate::bindings::Binding;
use event_model::{Atom, MOST_SLOTS, Name, Pat, PatAtom, Slot, Term};
use std::alloc::{AllocError, Global};

#[tactic(auto, using(crate::specs::Matching::outs))]
fn is_number(number: i64, term: &Term) -> bool
    ensures { number_pairs number (out-Term term.now) ≡ (if result then Some [] else None) }
{
    match term {
        Term::Num(other) => number == *other,
        Term::Sym(_) => false,
        Term::Text(_) => false,
        Term::Comp(_, _) => false,
    }
}

#[tactic(auto, using(crate::specs::Matching::outs))]
fn is_symbol(name: &Name, term: &Term) -> bool
    ensures { symbol_pairs name.now (out-Term term.now) ≡ (if result then Some [] else None) }
{
    match term {
        Term::Num(_) => false,
        Term::Sym(other) => name.as_str() == other.as_str(),
        Term::Text(_) => false,
        Term::Comp(_, _) => false,
    }
}

#[tactic(auto, using(crate::specs::Matching::outs))]
fn is_text(text: &Name, term: &Term) -> bool
    ensures { text_pairs text.now (out-Term term.now) ≡ (if result then Some [] else None) }
{
    match term {
        Term::Num(_) => false,
        Term::Sym(_) => false,
        Term::Text(other) => text.as_str() == other.as_str(),
        Term::Comp(_, _) => false,
    }
}

// Nothing more is bound.
fn as_it_is(binding: Binding, fits: bool) -> Option<Binding>
    ensures { result ≡ (if fits then join binding [] else None) }
{
    if !fits {
        return None;
    }
    let _ = binding.first();
    Some(binding)
}

// The binding with the values that the variables have where the argument is the term, or `None` where there are none.
#[cycle(matching)]
#[tactic(auto, using(crate::specs::Matching::outs, crate::specs::Matching::pairings))]
fn match_term(
    alloc: Global,
    pat: &Pat,
    term: &Term,
    binding: Binding,
) -> Result<Option<Binding>, AllocError>
    ensures { IfOk result (λ o. o ≡ option_and_then (join binding) (pairs_of pat.now term.now)) }
{
    match pat {
        Pat::Var(slot) => binding.extend(alloc, *slot, term),
        Pat::Any => Ok(as_it_is(binding, true)),
        Pat::Num(number) => Ok(as_it_is(binding, is_number(*number, term))),
        Pat::Sym(name) => Ok(as_it_is(binding, is_symbol(name, term))),
        Pat::Text(text) => Ok(as_it_is(binding, is_text(text, term))),
        Pat::Comp(name, pats) => match term {
            Term::Num(_) => Ok(None),
            Term::Sym(_) => Ok(None),
            Term::Text(_) => Ok(None),
            Term::Comp(other, terms) => {
                if name.as_str() != other.as_str() {
                    return Ok(None);
                }
                match_terms(alloc, pats.as_slice(), terms.as_slice(), binding)
            }
        },
    }
}

// Argument by argument, from the last: slots that rise from the left come in front of those that are there.
#[cycle(matching)]
fn match_terms(
    alloc: Global,
    pats: &[Pat],
    terms: &[Term],
    binding: Binding,
) -> Result<Option<Binding>, AllocError>
    ensures { IfOk result (λ o. o ≡ option_and_then (join binding) (pairs_of_all (map pairs_of pats.now) terms.now)) }
{
    if pats.len() != terms.len() {
        return Ok(None);
    }
    let mut found = binding;
    let mut left = pats.len();
    while left > 0 {
        match match_term(alloc, &pats[left - 1], &terms[left - 1], found)? {
            None => return Ok(None),
            Some(more) => found = more,
        }
        left -= 1;
    }
    Ok(as_it_is(found, true))
}

/// The one binding of exactly the variables of the pattern under which it is the atom, or `None` where there is none.
pub fn match_atom(alloc: Global, pat: &PatAtom, atom: &Atom) -> Result<Option<Binding>, AllocError>
    ensures { IfOk result (λ o. o ≡ match_of pat.now atom.now) }
{
    if pat.name.as_str() != atom.name.as_str() {
        return Ok(None);
    }
    match_terms(
        alloc,
        pat.args.as_slice(),
        atom.args.as_slice(),
        Binding::empty(),
    )
}

// Whether the arguments from here on are the variables of exactly these slots, in order.
#[tactic(auto, using(crate::specs::Matching::pairings))]
fn are_variables(pats: &[Pat], at: usize, args: &Binding) -> bool
    requires { at ≤ length pats.now }
    ensures variables { result ≡ true → pairs_of_all (map pairs_of (drop at pats.now)) (values args.now) ≡ Some args.now }
    ensures binding { IsBinding args.now }
{
    match args.first() {
        None => at == pats.len(),
        Some(cell) => {
            if at == pats.len() {
                return false;
            }
            match &pats[at] {
                Pat::Var(slot) => *slot == cell.slot && are_variables(pats, at + 1, &cell.rest),
                _ => false,
            }
        }
    }
}

// The arguments from here on, from the last.
fn match_from(
    alloc: Global,
    pats: &[Pat],
    at: usize,
    args: &Binding,
) -> Result<Option<Binding>, AllocError>
    requires { at ≤ length pats.now }
    ensures { IfOk result (λ o. o ≡ match_of_args (drop at pats.now) (values args.now)) }
{
    match args.first() {
        None => {
            if at < pats.len() {
                return Ok(None);
            }
            Ok(Some(Binding::empty()))
        }
        Some(cell) => {
            if at == pats.len() {
                return Ok(None);
            }
            let pat = &pats[at];
            match match_from(alloc, pats, at + 1, &cell.rest)? {
                None => Ok(None),
                Some(found) => match_term(alloc, pat, &cell.term, found),
            }
        }
    }
}

/// The match of the arguments of a rule with the values of a binding, in the order of its slots. Where the arguments are
/// the variables of these very slots, it is the binding itself, shared.
pub fn match_values(
    alloc: Global,
    pats: &[Pat],
    args: &Binding,
) -> Result<Option<Binding>, AllocError>
    ensures { IfOk result (λ o. o ≡ match_of_args pats.now (values args.now)) }
{
    if are_variables(pats, 0, args) {
        return Ok(Some(args.share()?));
    }
    match_from(alloc, pats, 0, args)
}

/// The terms as the values of the slots 0, 1 and so on.
pub fn number_values(alloc: Global, terms: &[Term]) -> Result<Binding, AllocError>
    requires { length terms.now ≤ MOST_SLOTS }
    ensures { IfOk result (λ b. b ≡ numbered 0 terms.now) }
{
    let mut binding = Binding::empty();
    let mut left = terms.len();
    while left > 0 {
        left -= 1;
        binding = Binding::in_front(alloc, Slot::new(left as u8), terms[left].share()?, binding)?;
    }
    Ok(binding)
}
