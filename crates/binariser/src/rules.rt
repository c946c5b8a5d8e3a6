// The steps of the rules of a name, and the step of the name.
ghost use Rattle.std.specs.Prelude.{◌≡◌, ◌≤◌, ◌∷◌, [], length, map};
ghost use Rattle.rule_ast.specs.Plain.{plain_rule};
ghost use Rattle.rule_ast.specs.PlainPlans.{plain_step};
ghost use Rattle.step_meaning.specs.PlanOf.{rule_steps};
ghost use Rattle.binariser.specs.Heads.{rules_in};
ghost use Rattle.binariser.specs.Making.{place_in, AreAdded, AreLeft, AreMade, named_steps, names_steps_by};

use crate::bodies::{body_steps, push_step};
use crate::faults::{MOST_STEPS, PlanFault};
use crate::heads::HeadRules;
use crate::places::Places;
use crate::sharing::{share_atom, share_name};
use event_model::NameArity;
use rule_ast::{Rule, Step, StepId};
use std::alloc::Global;

// The steps of one rule more, and the number of its head.
fn push_rule(
    alloc: Global,
    places: &Places,
    rule: &Rule,
    steps: &mut Vec<Step>,
    heads: &mut Vec<StepId>,
) -> Result<(), PlanFault>
    requires { length steps.old.items ≤ MOST_STEPS }
    ensures { AreAdded result (rule_steps (place_in places.now) (plain_rule rule.now ∷ []) (map plain_step steps.old.items) heads.old.items)
        (map plain_step steps.new.items) heads.new.items }
{
    let body = body_steps(alloc, places, &rule.body, steps)?;
    let head = share_atom(&rule.head)?;
    let number = push_step(steps, Step::Head { of: body, head })?;
    heads.push(number)?;
    Ok(())
}

// The steps of rules, one behind the other, and the numbers of their heads.
fn push_rules(
    alloc: Global,
    places: &Places,
    rules: &[&Rule],
    steps: &mut Vec<Step>,
    heads: &mut Vec<StepId>,
) -> Result<(), PlanFault>
    requires { length steps.old.items ≤ MOST_STEPS }
    ensures { AreAdded result
        (rule_steps (place_in places.now) (map (λ r. plain_rule r.now) rules.now) (map plain_step steps.old.items) heads.old.items)
        (map plain_step steps.new.items) heads.new.items }
{
    for rule in rules {
        push_rule(alloc, places, rule, steps, heads)?;
    }
    Ok(())
}

// The steps of a name: those of its rules, and then its own.
fn push_name(
    alloc: Global,
    places: &Places,
    name: &NameArity,
    rules: &HeadRules,
    steps: &mut Vec<Step>,
) -> Result<StepId, PlanFault>
    requires { length steps.old.items ≤ MOST_STEPS }
    ensures { AreMade result (named_steps (place_in places.now) (rules_in rules.now name.now) (map plain_step steps.old.items) name.now)
        (map plain_step steps.new.items) }
{
    let mut heads = Vec::new(alloc);
    if let Some(own) = rules.of(name) {
        push_rules(alloc, places, own.as_slice(), steps, &mut heads)?;
    }
    let name = share_name(name)?;
    push_step(steps, Step::Named { name, heads })
}

// The steps of names, one behind the other.
pub(crate) fn push_names(
    alloc: Global,
    names: &[NameArity],
    rules: &HeadRules,
    steps: &mut Vec<Step>,
) -> Result<(), PlanFault>
    requires { length steps.old.items ≤ MOST_STEPS }
    ensures { AreLeft result (names_steps_by (rules_in rules.now) names.now (place_in []) (map plain_step steps.old.items))
        (map plain_step steps.new.items) }
{
    let mut places = Places::new(alloc);
    for name in names {
        let number = push_name(alloc, &places, name, rules, steps)?;
        places.add(name, number)?;
    }
    Ok(())
}
