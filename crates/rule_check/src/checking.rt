// The check of rules.
ghost use Rattle.std.specs.Prelude.{◌≡◌, ◌<◌, ◌^◌, ◌⊎◌, ℕ, length, map, IsOk, IfOk, IfErr};
ghost use Rattle.ordered_lists.specs.Canon.{canon};
ghost use Rattle.event_model.specs.EventOrder.{name_cmp};
ghost use Rattle.rule_ast.specs.Plain.{plain_rules, plain_statement};
ghost use Rattle.rule_ast.specs.Shaped.{IsShaped};
ghost use Rattle.rule_ast.specs.Shown.{shown_names};
ghost use Rattle.rule_check.specs.Faults.{IsVerdict};
ghost use Rattle.rule_check.specs.Gathered.{rules_at, AreShaped};
ghost use Rattle.rule_check.specs.Names.{head_names, outputs};
ghost use Rattle.rule_check.specs.Numbers.{first_seen};
ghost use Rattle.rule_check.specs.Sound.{rules_of};
ghost use Rattle.rule_check.specs.Verdict.{IsSound, IsRefusal, IsCycleFault, AreNameRanks, show_faults};
ghost use Rattle.rule_check.specs.declared.faults.CheckFault.TheVariants.{Memory};

use crate::checked::Checked;
use crate::dependencies::{first_cycle, graph_of};
use crate::faults::CheckFault;
use crate::gathering::{has_show, push_names, rules_of, shown_names, unknown_show};
use crate::graph::ranks_of;
use crate::numbers::{Numbers, heads_of};
use crate::variables::check_variables;
use event_model::NameArity;
use ordered_lists::sort_unique;
use rule_ast::{Rule, RuleSet, Statement};
use std::alloc::{AllocError, Global};

// The names in order, each once.
#[tactic(auto, using(event_model::specs::EventOrder::exact_names))]
fn in_order(names: Vec<NameArity>) -> Result<Vec<NameArity>, AllocError>
    ensures { IfOk result (λ v. v.items ≡ canon name_cmp names.items) }
{
    let mut sorted = names;
    sort_unique(&mut sorted)?;
    Ok(sorted)
}

// The names that are given out: those that are shown, or all that head rules where there is no `show` statement.
fn given_out(
    statements: &[Statement],
    shown: Vec<NameArity>,
    heads: &Numbers,
) -> Result<Vec<NameArity>, AllocError>
    requires shown { shown.items ≡ shown_names (map plain_statement statements.now) }
    requires heads { heads.now ≡ first_seen (head_names (rules_of (map plain_statement statements.now))) }
    ensures { IfOk result (λ v. v.items ≡ outputs (map plain_statement statements.now)) }
{
    let mut names = shown;
    if !has_show(statements) {
        push_names(&mut names, heads.as_slice())?;
    }
    Ok(in_order(names)?)
}

// The names that are given out, or the first shown name that heads no rule.
fn check_shown(
    alloc: Global,
    statements: &[Statement],
    heads: &Numbers,
) -> Result<Vec<NameArity>, CheckFault>
    requires few { length (shown_names (map plain_statement statements.now)) < 2 ^ 32 }
    requires heads { heads.now ≡ first_seen (head_names (rules_of (map plain_statement statements.now))) }
    ensures shown { IfOk result (λ v. v.items ≡ outputs (map plain_statement statements.now)) }
    ensures verdict { IsVerdict result (show_faults (map plain_statement statements.now)) }
{
    let shown = shown_names(alloc, statements)?;
    match unknown_show(&shown, heads) {
        Some(number) => Err(CheckFault::ShowUnknown(number)),
        None => Ok(given_out(statements, shown, heads)?),
    }
}

// The ranks of the names that head rules, or the first rule on a cycle.
fn rank_heads(alloc: Global, rules: &[&Rule], heads: &Numbers) -> Result<Vec<u32>, CheckFault>
    requires shaped { AreShaped (rules_at rules.now) }
    requires heads { heads.now ≡ first_seen (head_names (rules_at rules.now)) }
    ensures ranks { IfOk result (λ v. AreNameRanks (rules_at rules.now) heads.now v.items) }
    ensures cycle { IfErr result (λ f. (f ≡ Memory) ⊎ IsCycleFault f (rules_at rules.now)) }
{
    let graph = graph_of(alloc, rules, heads)?;
    match ranks_of(alloc, &graph)? {
        Some(ranks) => Ok(ranks),
        None => {
            match first_cycle(alloc, rules, heads, &graph)? {
                Some(number) => Err(CheckFault::Cycle(number)),
                None => unreachable!(),
            }
        }
    }
}

/// Keeps sound rules, and refuses others with the first fault: for each rule in the order of the file the first that its
/// variables have, after all rules the first shown name that heads none, and last the first rule on a cycle. A refusal gives
/// the rules up.
pub fn check(alloc: Global, rules: RuleSet) -> Result<Checked, CheckFault>
    requires shaped { IsShaped (plain_rules rules) }
    requires few { length (shown_names (plain_rules rules)) < 2 ^ 32 }
    ensures kept { IfOk result (λ c. c ≡ rules) }
    ensures sound { IsOk result → IsSound (plain_rules rules) }
    ensures refused { IfErr result (λ f. IsRefusal f (plain_rules rules)) }
    ensures exact { IsSound (plain_rules rules) → IfErr result (λ f. f ≡ Memory) }
{
    let statements = rules.statements.as_slice();
    let gathered = rules_of(alloc, statements)?;
    check_variables(&gathered)?;
    let heads = heads_of(alloc, &gathered)?;
    let shown = check_shown(alloc, statements, &heads)?;
    let ranks = rank_heads(alloc, &gathered, &heads)?;
    drop(gathered);
    Ok(Checked::new(rules, shown, heads, ranks))
}
