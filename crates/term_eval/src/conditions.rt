// The value of a condition under a binding.
ghost use Rattle.std.specs.Prelude.{◌≡◌};
ghost use Rattle.rule_ast.specs.Plain.{plain_cond};
ghost use Rattle.term_eval.specs.Values.{value, holds, calculated, compared, and_also, or_else, negated};
ghost use Rattle.term_eval.specs.Operands.{plain_value, plain_answer};

use crate::numbers::calculate;
use crate::same::same_terms;
use crate::values::{Value, numbers, truth_of, truths};
use ev_bind::Binding;
use rule_ast::{Calc, Cmp, Cond};

fn calculated<'a>(calc: Calc, x: &Value<'a>, y: &Value<'a>, b: &Binding) -> Option<Value<'a>>
    ensures { plain_answer b.now result ≡ calculated calc (plain_value b.now x.now) (plain_value b.now y.now) }
{
    let (left, right) = numbers(x, y, b)?;
    let number = calculate(calc, left, right)?;
    Some(Value::Number(number))
}

fn compared<'a>(cmp: Cmp, x: &Value<'a>, y: &Value<'a>, b: &Binding) -> Option<Value<'a>>
    ensures { plain_answer b.now result ≡ compared cmp (plain_value b.now x.now) (plain_value b.now y.now) }
{
    let so = match cmp {
        Cmp::Eq => same_terms(x, y, b)?,
        Cmp::Ne => !same_terms(x, y, b)?,
        Cmp::Lt => {
            let (left, right) = numbers(x, y, b)?;
            left < right
        }
        Cmp::Le => {
            let (left, right) = numbers(x, y, b)?;
            left <= right
        }
        Cmp::Gt => {
            let (left, right) = numbers(x, y, b)?;
            left > right
        }
        Cmp::Ge => {
            let (left, right) = numbers(x, y, b)?;
            left >= right
        }
    };
    Some(Value::Truth(so))
}

/// The value of a condition, or `None` where it is undefined: an operation is undefined where an operand is undefined or
/// not of its kind, and arithmetic where its result isn't an i64. It is meant for a binding of the condition's variables
/// and a condition without `_`: a variable that the binding doesn't hold, and `_`, are 0.
pub fn value_of<'a>(cond: &'a Cond, b: &'a Binding) -> Option<Value<'a>>
    ensures { plain_answer b.now result ≡ value (plain_cond cond.now) b.now }
{
    match cond {
        Cond::Value(pat) => Some(Value::Shape(pat)),
        Cond::Calc(calc, left, right) => {
            let x = value_of(left, b)?;
            let y = value_of(right, b)?;
            calculated(*calc, &x, &y, b)
        }
        Cond::Compare(cmp, left, right) => {
            let x = value_of(left, b)?;
            let y = value_of(right, b)?;
            compared(*cmp, &x, &y, b)
        }
        Cond::AndAlso(left, right) => {
            let x = value_of(left, b)?;
            let y = value_of(right, b)?;
            let (left, right) = truths(&x, &y)?;
            Some(Value::Truth(left && right))
        }
        Cond::OrElse(left, right) => {
            let x = value_of(left, b)?;
            let y = value_of(right, b)?;
            let (left, right) = truths(&x, &y)?;
            Some(Value::Truth(left || right))
        }
        Cond::Not(inner) => {
            let x = value_of(inner, b)?;
            let so = truth_of(&x)?;
            Some(Value::Truth(!so))
        }
    }
}

/// Whether the value of a condition is the truth value true, as `value_of` gives it.
pub fn holds(cond: &Cond, b: &Binding) -> bool
    ensures { result ≡ holds (plain_cond cond.now) b.now }
{
    match value_of(cond, b) {
        Some(Value::Truth(so)) => so,
        Some(Value::Number(_)) => false,
        Some(Value::Shape(_)) => false,
        None => false,
    }
}
