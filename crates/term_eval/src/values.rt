// What a value is.
ghost use Rattle.std.specs.Prelude.{◌≡◌};
ghost use Rattle.event_model.specs.declared.terms.Term.{out-Term};
ghost use Rattle.ev_bind.specs.Bindings.{Pairs};
ghost use Rattle.ev_bind.specs.Matching.{instance};
ghost use Rattle.term_eval.specs.Values.{number_at, number_in, truth_in, numbers, truths};
ghost use Rattle.term_eval.specs.Operands.{plain_value};

use ev_bind::Binding;
use event_model::{Pat, Term};

/// The value of a condition: a truth value, a number, or the term that the binding makes of an argument in the condition.
#[derive(Clone, Copy)]
pub enum Value<'a> {
    Truth(bool),
    Number(i64),
    Shape(&'a Pat),
}

#[tactic(auto, using(ev_bind::specs::Matching::outs))]
pub(crate) fn term_number(term: &Term) -> Option<i64>
    ensures { result ≡ number_at (out-Term term.now) }
{
    match term {
        Term::Num(number) => Some(*number),
        Term::Sym(_) => None,
        Term::Text(_) => None,
        Term::Comp(_, _) => None,
    }
}

// The number that an argument is. A variable that the binding doesn't hold, and `_`, are 0.
#[tactic(auto, using(ev_bind::specs::Matching::outs, ev_bind::specs::Matching::instances))]
pub(crate) fn argument_number(pat: &Pat, b: &Binding) -> Option<i64>
    ensures { result ≡ number_at (out-Term (instance pat.now b.now)) }
{
    match pat {
        Pat::Var(slot) => match b.get(*slot) {
            Some(term) => term_number(term),
            None => Some(0),
        },
        Pat::Any => Some(0),
        Pat::Num(number) => Some(*number),
        Pat::Sym(_) => None,
        Pat::Text(_) => None,
        Pat::Comp(_, _) => None,
    }
}

#[tactic(auto, using(ev_bind::specs::Matching::outs))]
fn number_of(value: &Value, b: &Binding) -> Option<i64>
    ensures { result ≡ number_in (plain_value b.now value.now) }
{
    match value {
        Value::Truth(_) => None,
        Value::Number(number) => Some(*number),
        Value::Shape(pat) => argument_number(pat, b),
    }
}

pub(crate) fn numbers(x: &Value, y: &Value, b: &Binding) -> Option<(i64, i64)>
    ensures { result ≡ numbers (plain_value b.now x.now) (plain_value b.now y.now) }
{
    let left = number_of(x, b)?;
    let right = number_of(y, b)?;
    Some((left, right))
}

pub(crate) fn truth_of(value: &Value) -> Option<bool>
    ensures { (b : Pairs) → result ≡ truth_in (plain_value b value.now) }
{
    match value {
        Value::Truth(so) => Some(*so),
        Value::Number(_) => None,
        Value::Shape(_) => None,
    }
}

pub(crate) fn truths(x: &Value, y: &Value) -> Option<(bool, bool)>
    ensures { (b : Pairs) → result ≡ truths (plain_value b x.now) (plain_value b y.now) }
{
    let left = truth_of(x)?;
    let right = truth_of(y)?;
    Some((left, right))
}
