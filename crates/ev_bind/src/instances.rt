// Arguments and atoms of a rule under a binding.
ghost use Rattle.std.specs.Prelude.{◌≡◌, map, IfOk};
ghost use Rattle.ev_bind.specs.Matching.{instance};

use crate::bindings::Binding;
use event_model::{Atom, Pat, PatAtom, Shared, Term};
use std::alloc::{AllocError, Global};

/// The argument with its variables' values. A variable that the binding doesn't hold, and `_`, are 0.
#[cycle(instances)]
#[tactic(auto, using(crate::specs::Matching::instances))]
pub fn instance_of(alloc: Global, pat: &Pat, binding: &Binding) -> Result<Term, AllocError>
    ensures { IfOk result (λ t. t ≡ instance pat.now binding.now) }
{
    match pat {
        Pat::Var(slot) => match binding.get(*slot) {
            Some(value) => value.share(),
            None => Ok(Term::Num(0)),
        },
        Pat::Any => Ok(Term::Num(0)),
        Pat::Num(number) => Ok(Term::Num(*number)),
        Pat::Sym(name) => Ok(Term::Sym(name.share()?)),
        Pat::Text(text) => Ok(Term::Text(text.share()?)),
        Pat::Comp(name, pats) => {
            let args = instances_of(alloc, pats.as_slice(), binding)?;
            Ok(Term::Comp(name.share()?, Shared::new(alloc, args)?))
        }
    }
}

#[cycle(instances)]
fn instances_of(alloc: Global, pats: &[Pat], binding: &Binding) -> Result<Vec<Term>, AllocError>
    ensures { IfOk result (λ v. v.items ≡ map (λ p. instance p binding.now) pats.now) }
{
    let mut terms = Vec::new(alloc);
    for i in 0..pats.len() {
        let term = instance_of(alloc, &pats[i], binding)?;
        terms.push(term)?;
    }
    Ok(terms)
}

/// The atom with its variables' values.
pub fn instance_atom(alloc: Global, head: &PatAtom, binding: &Binding) -> Result<Atom, AllocError>
    ensures { IfOk result (λ a. a ≡ record { name = head.now.name; args = map (λ p. instance p binding.now) head.now.args }) }
{
    let args = instances_of(alloc, head.args.as_slice(), binding)?;
    Ok(Atom {
        name: head.name.share()?,
        args: Shared::new(alloc, args)?,
    })
}
