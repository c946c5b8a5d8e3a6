// Whether the variables of rules are bound where they are used.
ghost use Rattle.std.specs.Prelude.{◌≡◌, ◌<◌, true, length, IfOk};
ghost use Rattle.rule_ast.specs.Plain.{plain_rule};
ghost use Rattle.rule_ast.specs.Shaped.{is_shaped_rule};
ghost use Rattle.rule_check.specs.Faults.{name_of, rule_faults, variable_faults, IsVerdict};
ghost use Rattle.rule_check.specs.Gathered.{rules_at, AreShaped};

use crate::faults::CheckFault;
use crate::offenders::{head_offender, not_offender, or_offender, where_offender};
use event_model::{Name, Slot};
use rule_ast::Rule;
use std::alloc::AllocError;

// What the variable of a slot is called.
fn name_at(rule: &Rule, slot: Slot) -> Result<Name, AllocError>
    requires { slot < length rule.now.vars.items }
    ensures { IfOk result (λ n. n ≡ name_of (plain_rule rule.now) slot) }
{
    rule.vars[slot.number() as usize].share()
}

// The first fault of a rule's variables.
fn check_rule(rule: &Rule, number: u32) -> Result<(), CheckFault>
    requires { is_shaped_rule (plain_rule rule.now) ≡ true }
    ensures { IsVerdict result (rule_faults number (plain_rule rule.now)) }
{
    if let Some(slot) = head_offender(rule) {
        return Err(CheckFault::HeadUnbound(number, name_at(rule, slot)?));
    }
    if let Some(slot) = where_offender(&rule.body) {
        return Err(CheckFault::WhereUnbound(number, name_at(rule, slot)?));
    }
    if let Some(slot) = or_offender(&rule.body, &None) {
        return Err(CheckFault::OrVariables(number, name_at(rule, slot)?));
    }
    if let Some(slot) = not_offender(&rule.body, &None) {
        return Err(CheckFault::NotVariables(number, name_at(rule, slot)?));
    }
    Ok(())
}

// The first fault of the rules' variables.
pub(crate) fn check_variables(rules: &[&Rule]) -> Result<(), CheckFault>
    requires { AreShaped (rules_at rules.now) }
    ensures { IsVerdict result (variable_faults 1 (rules_at rules.now)) }
{
    let mut number: u32 = 0;
    for rule in rules {
        number += 1;
        check_rule(rule, number)?;
    }
    Ok(())
}
