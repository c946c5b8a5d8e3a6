// The first variable of a pattern that stands where it may not.
ghost use Rattle.std.specs.Prelude.{◌≡◌, ℕ, ◌&&◌};
ghost use Rattle.event_model.specs.SlotSets.{slot_in};
ghost use Rattle.rule_ast.specs.Plain.{plain_pattern, plain_rule};
ghost use Rattle.rule_check.specs.Allowed.{allowed};
ghost use Rattle.rule_check.specs.Offenders.{first, head_offenders, where_offenders, or_offenders, not_offenders};

use crate::outside::{outside_arguments, outside_condition};
use event_model::{Slot, Slots};
use rule_ast::{Pattern, Rule, vars_of};

// The first variable of a head that the body doesn't have.
#[tactic(auto, using(crate::proofs::FirstOffender::own_set))]
pub(crate) fn head_offender(rule: &Rule) -> Option<Slot>
    ensures { result ≡ first (head_offenders (plain_rule rule.now)) }
{
    let own = Some(vars_of(&rule.body));
    outside_arguments(rule.head.args.as_slice(), &own)
}

// The first variable of a condition that its WHERE's own pattern doesn't have.
#[tactic(auto, using(crate::proofs::FirstOffender::where_steps))]
pub(crate) fn where_offender(pattern: &Pattern) -> Option<Slot>
    ensures { result ≡ first (where_offenders (plain_pattern pattern.now)) }
{
    match pattern {
        Pattern::Atom(_) => None,
        Pattern::Both(_, left, right) => where_offender(left).or(where_offender(right)),
        Pattern::Either(left, right) => where_offender(left).or(where_offender(right)),
        Pattern::Where(of, cond) => {
            let own = Some(vars_of(of));
            where_offender(of).or(outside_condition(cond, &own))
        }
        Pattern::Exact(of, _) => where_offender(of),
        Pattern::Within(of, _) => where_offender(of),
        Pattern::Not {
            inner,
            before,
            after,
        } => {
            let in_edges = where_offender(before).or(where_offender(after));
            where_offender(inner).or(in_edges)
        }
    }
}

fn narrowed(may: &Option<Slots>, to: &Slots) -> Option<Slots>
    ensures { (s : ℕ) → allowed result s ≡ (allowed may.now s && slot_in to.now s) }
{
    match may {
        Some(slots) => Some(slots.meet(to)),
        None => Some(*to),
    }
}

// The first variable of one side of an OR that the other doesn't have, or that may not stand there.
#[tactic(auto, using(crate::proofs::FirstOutside::steps))]
pub(crate) fn or_offender(pattern: &Pattern, may: &Option<Slots>) -> Option<Slot>
    ensures { result ≡ first (or_offenders (allowed may.now) (plain_pattern pattern.now)) }
{
    match pattern {
        Pattern::Atom(atom) => outside_arguments(atom.args.as_slice(), may),
        Pattern::Both(_, left, right) => or_offender(left, may).or(or_offender(right, may)),
        Pattern::Either(left, right) => {
            let for_left = narrowed(may, &vars_of(right));
            let for_right = narrowed(may, &vars_of(left));
            or_offender(left, &for_left).or(or_offender(right, &for_right))
        }
        Pattern::Where(of, _) => or_offender(of, may),
        Pattern::Exact(of, _) => or_offender(of, may),
        Pattern::Within(of, _) => or_offender(of, may),
        Pattern::Not {
            inner,
            before,
            after,
        } => {
            let in_edges = or_offender(before, may).or(or_offender(after, may));
            or_offender(inner, &None).or(in_edges)
        }
    }
}

// The first variable of a negated pattern that the start and end patterns don't have, or that may not stand there.
#[tactic(auto, using(crate::proofs::FirstOutside::steps))]
pub(crate) fn not_offender(pattern: &Pattern, may: &Option<Slots>) -> Option<Slot>
    ensures { result ≡ first (not_offenders (allowed may.now) (plain_pattern pattern.now)) }
{
    match pattern {
        Pattern::Atom(atom) => outside_arguments(atom.args.as_slice(), may),
        Pattern::Both(_, left, right) => not_offender(left, may).or(not_offender(right, may)),
        Pattern::Either(left, right) => not_offender(left, may).or(not_offender(right, may)),
        Pattern::Where(of, _) => not_offender(of, may),
        Pattern::Exact(of, _) => not_offender(of, may),
        Pattern::Within(of, _) => not_offender(of, may),
        Pattern::Not {
            inner,
            before,
            after,
        } => {
            let bound = Some(vars_of(before).union(&vars_of(after)));
            let in_edges = not_offender(before, may).or(not_offender(after, may));
            not_offender(inner, &bound).or(in_edges)
        }
    }
}
