// Whether two arguments are one term under a binding. No term is built.
ghost use Rattle.std.specs.Prelude.{◌≡◌, pos, option_map};
ghost use Rattle.std.specs.Str.{bytes_eq};
ghost use Rattle.event_model.specs.declared.terms.Pat.TheVariants as pat_made;
ghost use Rattle.event_model.specs.declared.terms.Term.TheVariants as made;
ghost use Rattle.ev_bind.specs.Matching.{instance};
ghost use Rattle.ev_bind.specs.Fits.{same};
ghost use Rattle.term_eval.specs.Values.{terms};
ghost use Rattle.term_eval.specs.Operands.{plain_value};
ghost use Rattle.term_eval.specs.Alike.{each_with};

use crate::values::{Value, argument_number, term_number};
use ev_bind::Binding;
use event_model::{Name, Pat, Slot, Term, cmp_terms};

fn same_names(x: &Name, y: &Name) -> bool
    ensures { result ≡ bytes_eq x.now y.now }
{
    x.as_str() == y.as_str()
}

#[tactic(auto, using(crate::proofs::Equal::same_number))]
fn is_number(pat: &Pat, number: i64, b: &Binding) -> bool
    ensures { result ≡ same (made.Num number) (instance pat.now b.now) }
{
    match argument_number(pat, b) {
        Some(other) => number == other,
        None => false,
    }
}

#[tactic(auto, using(crate::proofs::Equal::same_number))]
fn is_zero(term: &Term) -> bool
    ensures { result ≡ same (made.Num (pos 0)) term.now }
{
    match term_number(term) {
        Some(number) => 0 == number,
        None => false,
    }
}

// Whether an argument is the term.
#[cycle(is_term)]
#[tactic(auto, using(crate::proofs::Equal::leaves, crate::proofs::Equal::compound_term))]
fn is_term(pat: &Pat, term: &Term, b: &Binding) -> bool
    ensures { result ≡ same (instance pat.now b.now) term.now }
{
    match (pat, term) {
        (Pat::Var(slot), _) => match b.get(*slot) {
            Some(value) => cmp_terms(value, term).is_eq(),
            None => is_zero(term),
        },
        (Pat::Any, _) => is_zero(term),
        (Pat::Num(x), Term::Num(y)) => x == y,
        (Pat::Sym(x), Term::Sym(y)) => same_names(x, y),
        (Pat::Text(x), Term::Text(y)) => same_names(x, y),
        (Pat::Comp(f, xs), Term::Comp(g, ys)) => {
            same_names(f, g) && are_terms(xs.as_slice(), ys.as_slice(), b)
        }
        _ => false,
    }
}

// Argument by argument.
#[cycle(is_term)]
#[tactic(auto, using(crate::proofs::Places::other_number, crate::proofs::Places::at_place, crate::proofs::Places::at_end))]
fn are_terms(pats: &[Pat], terms: &[Term], b: &Binding) -> bool
    ensures { result ≡ each_with (λ p t. same (instance p b.now) t) pats.now terms.now }
{
    if pats.len() != terms.len() {
        return false;
    }
    for i in 0..pats.len() {
        if !is_term(&pats[i], &terms[i], b) {
            return false;
        }
    }
    true
}

// Whether an argument is the value of a variable.
#[tactic(auto, using(crate::proofs::Equal::leaves))]
fn is_value(slot: Slot, pat: &Pat, b: &Binding) -> bool
    ensures { result ≡ same (instance (pat_made.Var slot) b.now) (instance pat.now b.now) }
{
    match b.get(slot) {
        Some(term) => is_term(pat, term, b),
        None => is_number(pat, 0, b),
    }
}

// Whether two arguments are one term.
#[cycle(same_under)]
#[tactic(auto, using(crate::proofs::Equal::leaves, crate::proofs::Equal::others, crate::proofs::Equal::compounds))]
pub(crate) fn same_under(p: &Pat, q: &Pat, b: &Binding) -> bool
    ensures { result ≡ same (instance p.now b.now) (instance q.now b.now) }
{
    match p {
        Pat::Var(slot) => is_value(*slot, q, b),
        Pat::Any => is_number(q, 0, b),
        Pat::Num(x) => is_number(q, *x, b),
        Pat::Sym(x) => match q {
            Pat::Var(slot) => is_value(*slot, p, b),
            Pat::Any => false,
            Pat::Num(_) => false,
            Pat::Sym(y) => same_names(x, y),
            Pat::Text(_) => false,
            Pat::Comp(_, _) => false,
        },
        Pat::Text(x) => match q {
            Pat::Var(slot) => is_value(*slot, p, b),
            Pat::Any => false,
            Pat::Num(_) => false,
            Pat::Sym(_) => false,
            Pat::Text(y) => same_names(x, y),
            Pat::Comp(_, _) => false,
        },
        Pat::Comp(f, xs) => match q {
            Pat::Var(slot) => is_value(*slot, p, b),
            Pat::Any => false,
            Pat::Num(_) => false,
            Pat::Sym(_) => false,
            Pat::Text(_) => false,
            Pat::Comp(g, ys) => same_names(f, g) && all_same(xs.as_slice(), ys.as_slice(), b),
        },
    }
}

// Argument by argument.
#[cycle(same_under)]
#[tactic(auto, using(crate::proofs::Places::other_number, crate::proofs::Places::at_place, crate::proofs::Places::at_end))]
fn all_same(ps: &[Pat], qs: &[Pat], b: &Binding) -> bool
    ensures { result ≡ each_with (λ p q. same (instance p b.now) (instance q b.now)) ps.now qs.now }
{
    if ps.len() != qs.len() {
        return false;
    }
    for i in 0..ps.len() {
        if !same_under(&ps[i], &qs[i], b) {
            return false;
        }
    }
    true
}

// Whether two values are one term; none where one is a truth value.
#[tactic(auto, using(crate::proofs::Equal::same_nums, crate::proofs::Equal::number_turned))]
pub(crate) fn same_terms(x: &Value, y: &Value, b: &Binding) -> Option<bool>
    ensures { result ≡ option_map (λ p. same p.0 p.1) (terms (plain_value b.now x.now) (plain_value b.now y.now)) }
{
    match (x, y) {
        (Value::Truth(_), _) => None,
        (_, Value::Truth(_)) => None,
        (Value::Number(m), Value::Number(n)) => Some(m == n),
        (Value::Number(m), Value::Shape(q)) => Some(is_number(q, *m, b)),
        (Value::Shape(p), Value::Number(n)) => Some(is_number(p, *n, b)),
        (Value::Shape(p), Value::Shape(q)) => Some(same_under(p, q, b)),
    }
}
