// The steps of the bodies of rules. A chain without brackets is gone down and up again by loops, and an atom or a NOT in it has no
// level of its own: `body_steps` calls itself only for what stands in a bracket.
ghost use Rattle.std.specs.Prelude.{◌≡◌, ◌≤◌, ◌++◌, ◌∷◌, [], None, length, map};
ghost use Rattle.std.specs.Option.{option_map};
ghost use Rattle.rule_ast.specs.Plain.{plain_pattern};
ghost use Rattle.pattern_meaning.specs.Climbing.{left_part};
ghost use Rattle.step_meaning.specs.PlanOf.{top, body_steps};
ghost use Rattle.rule_ast.specs.PlainPlans.{plain_step};
ghost use Rattle.binariser.specs.Making.{place_in, AreMade, steps_over};

use crate::faults::{MOST_STEPS, PlanFault};
use crate::places::Places;
use crate::sharing::{copy_cond, share_atom};
use event_model::Op;
use rule_ast::{Pattern, Step, StepId};
use std::alloc::Global;

// One step more, whose number it gives.
pub(crate) fn push_step(steps: &mut Vec<Step>, step: Step) -> Result<StepId, PlanFault>
    requires { length steps.old.items ≤ MOST_STEPS }
    ensures { AreMade result (map plain_step steps.old.items ++ plain_step step ∷ []) (map plain_step steps.new.items) }
{
    let number = steps.len();
    if number >= MOST_STEPS {
        return Err(PlanFault::TooMany);
    }
    steps.push(step)?;
    Ok(number as StepId)
}

// The steps of a pattern, behind those so far. It gives the number of the last.
#[cycle(bodies)]
pub(crate) fn body_steps(
    alloc: Global,
    places: &Places,
    pattern: &Pattern,
    steps: &mut Vec<Step>,
) -> Result<StepId, PlanFault>
    requires { length steps.old.items ≤ MOST_STEPS }
    ensures { AreMade result (body_steps (place_in places.now) (plain_pattern pattern.now) (map plain_step steps.old.items))
        (map plain_step steps.new.items) }
{
    let mut spine = Vec::new(alloc);
    let mut first = pattern;
    while let Some(left) = left_part(first) {
        spine.push(first)?;
        first = left;
    }
    let mut last = first_steps(alloc, places, first, steps)?;
    while let Some(whole) = spine.pop() {
        last = steps_over(alloc, places, whole, last, steps)?;
    }
    Ok(last)
}

fn left_part(pattern: &Pattern) -> Option<&Pattern>
    ensures { option_map (λ p. plain_pattern p.now) result ≡ left_part (plain_pattern pattern.now) }
{
    match pattern {
        Pattern::Both(_, left, _) | Pattern::Either(left, _) => Some(left),
        Pattern::Where(of, _) | Pattern::Exact(of, _) | Pattern::Within(of, _) => Some(of),
        Pattern::Atom(_) | Pattern::Not { .. } => None,
    }
}

// The steps of a pattern without a left part.
#[cycle(bodies)]
fn first_steps(
    alloc: Global,
    places: &Places,
    first: &Pattern,
    steps: &mut Vec<Step>,
) -> Result<StepId, PlanFault>
    requires few { length steps.old.items ≤ MOST_STEPS }
    requires leftmost { left_part (plain_pattern first.now) ≡ None }
    ensures { AreMade result (body_steps (place_in places.now) (plain_pattern first.now) (map plain_step steps.old.items))
        (map plain_step steps.new.items) }
{
    match first {
        Pattern::Atom(atom) => {
            let of = places.of(atom)?;
            let pat = share_atom(atom)?;
            push_step(steps, Step::Leaf { of, pat })
        }
        Pattern::Not {
            inner,
            before,
            after,
        } => {
            let before_step = body_steps(alloc, places, before, steps)?;
            let after_step = body_steps(alloc, places, after, steps)?;
            let join = Step::Join {
                op: Op::Seq,
                left: before_step,
                right: after_step,
            };
            let joined = push_step(steps, join)?;
            let inner_step = body_steps(alloc, places, inner, steps)?;
            let minus = Step::Minus {
                joined,
                before: before_step,
                inner: inner_step,
                after: after_step,
            };
            push_step(steps, minus)
        }
        Pattern::Both(..)
        | Pattern::Either(..)
        | Pattern::Where(..)
        | Pattern::Exact(..)
        | Pattern::Within(..) => unreachable!(),
    }
}

// The steps of a right operand: an atom, a NOT, or a pattern in brackets.
#[cycle(bodies)]
fn operand_steps(
    alloc: Global,
    places: &Places,
    operand: &Pattern,
    steps: &mut Vec<Step>,
) -> Result<StepId, PlanFault>
    requires { length steps.old.items ≤ MOST_STEPS }
    ensures { AreMade result (body_steps (place_in places.now) (plain_pattern operand.now) (map plain_step steps.old.items))
        (map plain_step steps.new.items) }
{
    match left_part(operand) {
        None => first_steps(alloc, places, operand, steps),
        Some(_) => body_steps(alloc, places, operand, steps),
    }
}

// The steps of a pattern, behind those of its left part, the last of which has this number.
#[cycle(bodies)]
fn steps_over(
    alloc: Global,
    places: &Places,
    whole: &Pattern,
    last: StepId,
    steps: &mut Vec<Step>,
) -> Result<StepId, PlanFault>
    requires few { length steps.old.items ≤ MOST_STEPS }
    requires last { last ≡ top (map plain_step steps.old.items) }
    ensures { AreMade result (steps_over (place_in places.now) (plain_pattern whole.now) (map plain_step steps.old.items))
        (map plain_step steps.new.items) }
{
    match whole {
        Pattern::Both(op, _, right) => {
            let right_step = operand_steps(alloc, places, right, steps)?;
            let join = Step::Join {
                op: *op,
                left: last,
                right: right_step,
            };
            push_step(steps, join)
        }
        Pattern::Either(_, right) => {
            let right_step = operand_steps(alloc, places, right, steps)?;
            let either = Step::Either {
                left: last,
                right: right_step,
            };
            push_step(steps, either)
        }
        Pattern::Where(_, cond) => {
            let copy = copy_cond(alloc, cond)?;
            push_step(
                steps,
                Step::Where {
                    of: last,
                    cond: copy,
                },
            )
        }
        Pattern::Exact(_, q) => push_step(steps, Step::Exact { of: last, q: *q }),
        Pattern::Within(_, q) => push_step(steps, Step::Within { of: last, q: *q }),
        Pattern::Atom(_) | Pattern::Not { .. } => Ok(last),
    }
}
