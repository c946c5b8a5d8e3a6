// The plan of checked rules.
ghost use Rattle.std.specs.Prelude.{◌≡◌, ◌≤◌, ℕ, length, map, IfOk, OnOk};
ghost use Rattle.event_model.specs.declared.atoms.NameArity.{NameArity as NameArity_};
ghost use Rattle.rule_ast.specs.Plain.{plain_rules};
ghost use Rattle.rule_ast.specs.PlainPlans.{plain_step};
ghost use Rattle.step_meaning.specs.PlanOf.{plan_of, step_of};
ghost use Rattle.binariser.specs.Making.{IsPlan, place_or, with_place};

use crate::faults::{MOST_STEPS, PlanFault};
use crate::heads::head_rules;
use crate::indexes::plan_indexes;
use crate::names::plan_names;
use crate::rules::push_names;
use crate::sharing::share_name;
use event_model::NameArity;
use indexmap::IndexMap;
use rule_ast::{Plan, Step, StepId};
use rule_check::Checked;
use std::alloc::{AllocError, Global};

// A name gets this number.
fn put_number(
    named: &mut IndexMap<NameArity, StepId>,
    name: &NameArity,
    number: StepId,
) -> Result<(), AllocError>
    ensures { (other : ℕ) (n : NameArity_)
        → OnOk result (place_or other named.new.entries n ≡ with_place (place_or other named.old.entries) name.now number n) }
{
    named.insert(share_name(name)?, number)?;
    Ok(())
}

// The numbers of the steps of names: where two are of the same name, that of the first.
fn named_steps(alloc: Global, steps: &[Step]) -> Result<IndexMap<NameArity, StepId>, AllocError>
    requires { length steps.now ≤ MOST_STEPS }
    ensures { (n : NameArity_) → IfOk result (λ m. place_or (length steps.now) m.entries n ≡ step_of (map plain_step steps.now) n) }
{
    let mut named = IndexMap::new(alloc);
    let mut number = steps.len();
    while number > 0 {
        number -= 1;
        if let Step::Named { name, .. } = &steps[number] {
            put_number(&mut named, name, number as StepId)?;
        }
    }
    Ok(named)
}

// The number of a name, or this one where it has none.
fn number_of(named: &IndexMap<NameArity, StepId>, name: &NameArity, none: StepId) -> StepId
    ensures { result ≡ place_or none named.now.entries name.now }
{
    match named.get(name) {
        Some(number) => *number,
        None => none,
    }
}

// The number of the step of each name, or that of no step.
fn shown_steps(
    alloc: Global,
    steps: &[Step],
    names: &[NameArity],
) -> Result<Vec<StepId>, AllocError>
    requires { length steps.now ≤ MOST_STEPS }
    ensures { IfOk result (λ v. v.items ≡ map (step_of (map plain_step steps.now)) names.now) }
{
    let named = named_steps(alloc, steps)?;
    let mut shown = Vec::with_capacity(alloc, names.len())?;
    for name in names {
        shown.push(number_of(&named, name, steps.len() as StepId))?;
    }
    Ok(shown)
}

/// The steps, indexes and shown steps of checked rules.
pub fn binarise(alloc: Global, checked: &Checked) -> Result<Plan, PlanFault>
    ensures { IsPlan result (plan_of (plain_rules checked.now)) }
{
    let rules = checked.rules();
    let heads = head_rules(alloc, rules.statements.as_slice())?;
    let names = plan_names(alloc, checked, &heads)?;
    let mut steps = Vec::new(alloc);
    push_names(alloc, &names, &heads, &mut steps)?;
    let indexes = plan_indexes(alloc, &steps)?;
    let shown = shown_steps(alloc, &steps, checked.shown())?;
    Ok(Plan {
        steps,
        indexes,
        shown,
    })
}
