// The plain evaluator of rules. It evaluates each rule once, in the order of the ranks of heads, and looks at all pairs of rows.
ghost use Rattle.std.specs.Prelude.{◌≡◌, ◌++◌, map, IfOk, OnOk};
ghost use Rattle.std.specs.List.{flat_map};
ghost use Rattle.rule_ast.specs.Plain.{plain_rule, plain_rules};
ghost use Rattle.pattern_meaning.specs.PatternRows.{is_of};
ghost use Rattle.pattern_meaning.specs.Standing.{standing};
ghost use Rattle.pattern_meaning.specs.Found.{of_name, head_detection, as_detection, rule_detections, with_all, with_rules};
ghost use Rattle.pattern_meaning.specs.Words.{words_of};
ghost use Rattle.pattern_meaning.specs.RuleOrder.{rules_at};

use crate::bodies::pattern_rows;
use crate::found::Found;
use crate::rule_order::{Ranked, rules_by_rank};
use ev_bind::{Row, instance_atom};
use event_model::{Atom, Detection, Event, NameArity, PatAtom};
use ordered_lists::sort_unique;
use rule_ast::Rule;
use rule_check::Checked;
use std::alloc::{AllocError, Global};

/// The detections that stand over the set of these events, each once, in order. It compares all pairs of rows.
pub fn scratch(
    alloc: Global,
    checked: &Checked,
    events: &[Event],
) -> Result<Vec<Detection>, AllocError>
    ensures { IfOk result (λ found. found.items ≡ standing (plain_rules checked.now) events.now) }
{
    let rules = rules_by_rank(alloc, checked)?;
    let mut found = Found::new(alloc);
    push_events(alloc, events, &mut found)?;
    push_rules(alloc, &rules, &mut found)?;
    let mut shown = found_of_names(alloc, checked.shown(), &found)?;
    sort_unique(&mut shown)?;
    Ok(shown)
}

// The events, as detections on their spans.
fn push_events(alloc: Global, events: &[Event], found: &mut Found) -> Result<(), AllocError>
    ensures { OnOk result (words_of found.new ≡ with_all (words_of found.old) (map as_detection events.now)) }
{
    for event in events {
        let atom = event.atom.share()?;
        let detection = Detection {
            atom,
            span: event.span,
        };
        found.push(alloc, detection)?;
    }
    Ok(())
}

// What the rules give, each over what was found before it.
fn push_rules(alloc: Global, rules: &[Ranked], found: &mut Found) -> Result<(), AllocError>
    ensures { OnOk result (words_of found.new ≡ with_rules (words_of found.old) (rules_at rules.now)) }
{
    for ranked in rules {
        push_rule(alloc, ranked.rule, found)?;
    }
    Ok(())
}

fn push_rule(alloc: Global, rule: &Rule, found: &mut Found) -> Result<(), AllocError>
    ensures { OnOk result (words_of found.new
        ≡ with_all (words_of found.old) (rule_detections (words_of found.old) (plain_rule rule.now))) }
{
    let rows = pattern_rows(alloc, found, &rule.body)?;
    push_heads(alloc, &rule.head, &rows, found)
}

// The head instances of rows.
fn push_heads(
    alloc: Global,
    head: &PatAtom,
    rows: &[Row],
    found: &mut Found,
) -> Result<(), AllocError>
    ensures { OnOk result (words_of found.new ≡ with_all (words_of found.old) (map (head_detection head.now) rows.now)) }
{
    for row in rows {
        let atom = instance_atom(alloc, head, &row.binding)?;
        let detection = Detection {
            atom,
            span: row.span,
        };
        found.push(alloc, detection)?;
    }
    Ok(())
}

fn is_of(name: &NameArity, atom: &Atom) -> bool
    ensures { result ≡ is_of name.now atom.now }
{
    name.name.as_str() == atom.name.as_str()
        && usize::from(name.arity) == atom.args.as_slice().len()
}

// Those of the names, name by name.
fn found_of_names(
    alloc: Global,
    names: &[NameArity],
    found: &Found,
) -> Result<Vec<Detection>, AllocError>
    ensures { IfOk result (λ v. v.items ≡ flat_map (λ n. of_name n (words_of found.now n.name)) names.now) }
{
    let mut shown = Vec::new(alloc);
    for name in names {
        push_named(name, found.of_word(&name.name), &mut shown)?;
    }
    Ok(shown)
}

fn push_named(
    name: &NameArity,
    found: &[Detection],
    shown: &mut Vec<Detection>,
) -> Result<(), AllocError>
    ensures { OnOk result (shown.new.items ≡ shown.old.items ++ of_name name.now found.now) }
{
    for detection in found {
        if is_of(name, &detection.atom) {
            let atom = detection.atom.share()?;
            shown.push(Detection {
                atom,
                span: detection.span,
            })?;
        }
    }
    Ok(())
}
