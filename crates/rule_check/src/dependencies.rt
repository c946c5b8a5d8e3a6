// The graph of the names that head rules, and the rules on a cycle.
ghost use Rattle.std.specs.Prelude.{◌≡◌, ℕ, ◌++◌, List, [], Some, true, length, IfOk, OnOk};
ghost use Rattle.std.specs.Bool.{Decides};
ghost use Rattle.ordered_lists.specs.Canon.{has};
ghost use Rattle.event_model.specs.EventOrder.{name_cmp};
ghost use Rattle.event_model.specs.declared.atoms.NameArity.{NameArity};
ghost use Rattle.rule_ast.specs.Plain.{plain_pattern, plain_rule};
ghost use Rattle.rule_ast.specs.Trees.{PlainRule};
ghost use Rattle.rule_check.specs.Cycles.{graph_of, IsOnCycle, IsCycleAnswer, IsRowGrown};
ghost use Rattle.rule_check.specs.Gathered.{rules_at, AreShaped};
ghost use Rattle.rule_check.specs.Graphs.{IsGraph};
ghost use Rattle.rule_check.specs.Names.{body_names, head_name, head_names};
ghost use Rattle.rule_check.specs.Numbers.{first_seen, place, places, AreNarrow};

use crate::graph::Targets;
use crate::marking::any_reaches;
use crate::numbers::{Numbers, number_in};
use rule_ast::{Pattern, Rule};
use std::alloc::{AllocError, Global};

// Puts the numbers of the pattern's names behind the nodes.
#[tactic(auto, using(crate::proofs::Placing::placings))]
fn push_nodes(nodes: &mut Vec<usize>, heads: &Numbers, pattern: &Pattern) -> Result<(), AllocError>
    requires { AreNarrow heads.now }
    ensures { OnOk result (nodes.new.items ≡ nodes.old.items ++ places heads.now (body_names (plain_pattern pattern.now))) }
{
    match pattern {
        Pattern::Atom(atom) => {
            let number = number_in(heads, &atom.name, atom.args.as_slice().len())?;
            match number {
                Some(node) => Ok(nodes.push(node)?),
                None => Ok(()),
            }
        }
        Pattern::Both(_, left, right) => {
            push_nodes(nodes, heads, left)?;
            push_nodes(nodes, heads, right)
        }
        Pattern::Either(left, right) => {
            push_nodes(nodes, heads, left)?;
            push_nodes(nodes, heads, right)
        }
        Pattern::Where(of, _) => push_nodes(nodes, heads, of),
        Pattern::Exact(of, _) => push_nodes(nodes, heads, of),
        Pattern::Within(of, _) => push_nodes(nodes, heads, of),
        Pattern::Not {
            inner,
            before,
            after,
        } => {
            push_nodes(nodes, heads, inner)?;
            push_nodes(nodes, heads, before)?;
            push_nodes(nodes, heads, after)
        }
    }
}

// The number of a rule's head name.
fn head_node(heads: &Numbers, rule: &Rule) -> Result<usize, AllocError>
    requires narrow { AreNarrow heads.now }
    requires known { has name_cmp (head_name (plain_rule rule.now)) heads.now ≡ true }
    ensures { IfOk result (λ node. place heads.now (head_name (plain_rule rule.now)) ≡ Some node) }
{
    let number = number_in(heads, &rule.head.name, rule.head.args.as_slice().len())?;
    match number {
        Some(node) => Ok(node),
        None => unreachable!(),
    }
}

fn empty_rows(alloc: Global, heads: &Numbers) -> Result<Vec<Targets>, AllocError>
    ensures { IfOk result (λ v. v.items ≡ graph_of heads.now []) }
{
    let mut rows = Vec::with_capacity(alloc, heads.len())?;
    for _node in 0..heads.len() {
        rows.push(Targets::new(alloc))?;
    }
    Ok(rows)
}

fn add_rule(
    alloc: Global,
    rows: &mut Vec<Targets>,
    heads: &Numbers,
    rule: &Rule,
) -> Result<(), AllocError>
    requires narrow { AreNarrow heads.now }
    requires known { has name_cmp (head_name (plain_rule rule.now)) heads.now ≡ true }
    requires sized { length rows.old.items ≡ length heads.now }
    ensures { OnOk result (IsRowGrown heads.now (plain_rule rule.now) rows.old.items rows.new.items) }
{
    let mut nodes = Vec::new(alloc);
    push_nodes(&mut nodes, heads, &rule.body)?;
    let node = head_node(heads, rule)?;
    rows[node].extend(&nodes)
}

// For each name that heads rules, the numbers of those in the bodies of its rules.
pub(crate) fn graph_of(
    alloc: Global,
    rules: &[&Rule],
    heads: &Numbers,
) -> Result<Vec<Targets>, AllocError>
    requires shaped { AreShaped (rules_at rules.now) }
    requires heads { heads.now ≡ first_seen (head_names (rules_at rules.now)) }
    ensures { IfOk result (λ v. v.items ≡ graph_of heads.now (rules_at rules.now)) }
{
    let mut rows = empty_rows(alloc, heads)?;
    for rule in rules {
        add_rule(alloc, &mut rows, heads, rule)?;
    }
    Ok(rows)
}

// Whether the head name of a rule is reached from a name of its body.
fn is_on_cycle(
    alloc: Global,
    heads: &Numbers,
    graph: &[Targets],
    rule: &Rule,
) -> Result<bool, AllocError>
    requires narrow { AreNarrow heads.now }
    requires known { has name_cmp (head_name (plain_rule rule.now)) heads.now ≡ true }
    requires sized { length graph.now ≡ length heads.now }
    requires graph { IsGraph graph.now }
    ensures { IfOk result (λ b. (rules : List PlainRule)
        → ((n : NameArity) → has name_cmp n heads.now ≡ has name_cmp n (head_names rules)) → graph.now ≡ graph_of heads.now rules
        → Decides b (IsOnCycle rules (plain_rule rule.now))) }
{
    let mut nodes = Vec::new(alloc);
    push_nodes(&mut nodes, heads, &rule.body)?;
    let node = head_node(heads, rule)?;
    let found = any_reaches(alloc, graph, &nodes, node)?;
    Ok(found)
}

// The number of the first rule that is on a cycle. Each rule walks the graph anew, so this takes as many steps as there are
// rules times edges: it is called only where a cycle is known.
pub(crate) fn first_cycle(
    alloc: Global,
    rules: &[&Rule],
    heads: &Numbers,
    graph: &[Targets],
) -> Result<Option<u32>, AllocError>
    requires shaped { AreShaped (rules_at rules.now) }
    requires heads { heads.now ≡ first_seen (head_names (rules_at rules.now)) }
    requires graph { graph.now ≡ graph_of heads.now (rules_at rules.now) }
    ensures { IfOk result (λ o. IsCycleAnswer o (rules_at rules.now)) }
{
    let mut number: u32 = 0;
    for rule in rules {
        number += 1;
        if is_on_cycle(alloc, heads, graph, rule)? {
            return Ok(Some(number));
        }
    }
    Ok(None)
}
