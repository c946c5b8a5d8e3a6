// The names that have steps: those that are given out and those that they need.
ghost use Rattle.std.specs.Prelude.{◌≡◌, ◌<◌, ◌++◌, length, map, get_or, OnOk, IfOk};
ghost use Rattle.ordered_lists.specs.Canon.{has};
ghost use Rattle.event_model.specs.EventOrder.{name_cmp};
ghost use Rattle.event_model.specs.declared.atoms.NameArity.{NameArity as NameArity_};
ghost use Rattle.rule_ast.specs.Plain.{plain_pattern, plain_rule, plain_rules};
ghost use Rattle.rule_check.specs.Cycles.{rank_of, IsRanking};
ghost use Rattle.rule_check.specs.Names.{body_names};
ghost use Rattle.rule_check.specs.Sound.{rules_of};
ghost use Rattle.step_meaning.specs.PlanOf.{plan_names};
ghost use Rattle.binariser.specs.Heads.{rules_in, rules_for};
ghost use Rattle.binariser.specs.Needed.{IsGrown, own_names, parts_of, bodies_names, AreShort};

use crate::heads::HeadRules;
use crate::ranks::in_plan_order;
use crate::sharing::share_name;
use event_model::NameArity;
use indexmap::IndexSet;
use rule_ast::{Pattern, Rule};
use rule_check::Checked;
use std::alloc::{AllocError, Global};

// Adds the name of an atom, or takes another pattern apart.
fn add_part<'a>(
    needed: &mut IndexSet<NameArity>,
    part: &'a Pattern,
    parts: &mut Vec<&'a Pattern>,
) -> Result<(), AllocError>
    requires { AreShort (body_names (plain_pattern part.now)) }
    ensures names { OnOk result (IsGrown needed.old.keys (own_names (plain_pattern part.now)) needed.new.keys) }
    ensures parts { OnOk result
        (map (λ p. plain_pattern p.now) parts.new.items
        ≡ map (λ p. plain_pattern p.now) parts.old.items ++ parts_of (plain_pattern part.now)) }
{
    match part {
        Pattern::Atom(atom) => {
            let name = NameArity {
                name: atom.name.share()?,
                arity: atom.args.as_slice().len() as u8,
            };
            needed.insert(name)?;
        }
        Pattern::Both(_, left, right) | Pattern::Either(left, right) => {
            parts.push(left)?;
            parts.push(right)?;
        }
        Pattern::Where(of, _) | Pattern::Exact(of, _) | Pattern::Within(of, _) => parts.push(of)?,
        Pattern::Not {
            inner,
            before,
            after,
        } => {
            parts.push(inner)?;
            parts.push(before)?;
            parts.push(after)?;
        }
    }
    Ok(())
}

// Adds the names of a body.
fn add_body(
    alloc: Global,
    needed: &mut IndexSet<NameArity>,
    body: &Pattern,
) -> Result<(), AllocError>
    requires { AreShort (body_names (plain_pattern body.now)) }
    ensures { OnOk result (IsGrown needed.old.keys (body_names (plain_pattern body.now)) needed.new.keys) }
{
    let mut parts = Vec::new(alloc);
    parts.push(body)?;
    while let Some(part) = parts.pop() {
        add_part(needed, part, &mut parts)?;
    }
    Ok(())
}

// Adds the names in the bodies of rules.
fn add_bodies(
    alloc: Global,
    needed: &mut IndexSet<NameArity>,
    rules: &[&Rule],
) -> Result<(), AllocError>
    requires { AreShort (bodies_names (map (λ r. plain_rule r.now) rules.now)) }
    ensures { OnOk result (IsGrown needed.old.keys (bodies_names (map (λ r. plain_rule r.now) rules.now)) needed.new.keys) }
{
    for rule in rules {
        add_body(alloc, needed, &rule.body)?;
    }
    Ok(())
}

// The names of a slice as a set.
fn set_of(alloc: Global, names: &[NameArity]) -> Result<IndexSet<NameArity>, AllocError>
    ensures { IfOk result (λ s. (m : NameArity_) → has name_cmp m s.keys ≡ has name_cmp m names.now) }
{
    let mut set = IndexSet::new(alloc);
    for name in names {
        set.insert(share_name(name)?)?;
    }
    Ok(set)
}

// Adds the names in the bodies of the rules of the name at this place.
fn add_needs(
    alloc: Global,
    heads: &HeadRules,
    needed: &mut IndexSet<NameArity>,
    place: usize,
) -> Result<(), AllocError>
    requires inside { place < length needed.old.keys }
    requires short { (n : NameArity_) → AreShort (bodies_names (rules_in heads.now n)) }
    ensures { (n : NameArity_) → n ≡ get_or needed.old.keys place n
        → OnOk result (IsGrown needed.old.keys (bodies_names (rules_in heads.now n)) needed.new.keys) }
{
    let name = share_name(&needed.as_slice()[place])?;
    match heads.of(&name) {
        Some(rules) => add_bodies(alloc, needed, rules.as_slice()),
        None => Ok(()),
    }
}

// The names that are given out, and those that they need.
fn needed_names(
    alloc: Global,
    checked: &Checked,
    heads: &HeadRules,
) -> Result<IndexSet<NameArity>, AllocError>
    requires short { (n : NameArity_) → AreShort (bodies_names (rules_in heads.now n)) }
    requires heads { (n : NameArity_) → rules_in heads.now n ≡ rules_for (plain_rules checked.now) n }
    requires ranking { IsRanking (rules_of (plain_rules checked.now)) (rank_of (rules_of (plain_rules checked.now))) }
    ensures { IfOk result (λ s. (m : NameArity_) → has name_cmp m s.keys ≡ has name_cmp m (plan_names (plain_rules checked.now))) }
{
    let mut needed = set_of(alloc, checked.shown())?;
    let mut next = 0;
    while next < needed.len() {
        add_needs(alloc, heads, &mut needed, next)?;
        next += 1;
    }
    Ok(needed)
}

// The names of the plan, in its order.
pub(crate) fn plan_names(
    alloc: Global,
    checked: &Checked,
    heads: &HeadRules,
) -> Result<Vec<NameArity>, AllocError>
    requires short { (n : NameArity_) → AreShort (bodies_names (rules_in heads.now n)) }
    requires heads { (n : NameArity_) → rules_in heads.now n ≡ rules_for (plain_rules checked.now) n }
    requires ranking { IsRanking (rules_of (plain_rules checked.now)) (rank_of (rules_of (plain_rules checked.now))) }
    ensures { IfOk result (λ v. v.items ≡ plan_names (plain_rules checked.now)) }
{
    let needed = needed_names(alloc, checked, heads)?;
    in_plan_order(alloc, checked, needed.as_slice())
}
