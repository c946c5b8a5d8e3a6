// The rows of the bodies of rules. A chain without brackets is gone down and up again by loops, and an atom or a NOT in it has no
// level of its own: `pattern_rows` calls itself only for what stands in a bracket.
ghost use Rattle.std.specs.Prelude.{◌≡◌, ◌++◌, None, IfOk, OnOk};
ghost use Rattle.std.specs.List.{flat_map};
ghost use Rattle.std.specs.Option.{option_map};
ghost use Rattle.rule_ast.specs.Plain.{plain_pattern};
ghost use Rattle.pattern_meaning.specs.Climbing.{left_part, rows_over};
ghost use Rattle.pattern_meaning.specs.PatternRows.{matched, name_of, rows_of};
ghost use Rattle.pattern_meaning.specs.RuleRows.{rows};
ghost use Rattle.pattern_meaning.specs.Found.{named_by, matched_rows};
ghost use Rattle.pattern_meaning.specs.Words.{words_of};

use crate::forms::{in_order, join_rows, remaining_rows, rows_of_length, rows_where, rows_within};
use crate::found::Found;
use ev_bind::{Row, match_atom};
use event_model::{Detection, PatAtom};
use rule_ast::Pattern;
use std::alloc::{AllocError, Global};

// The rows of a pattern over what was found.
#[cycle(bodies)]
pub(crate) fn pattern_rows(
    alloc: Global,
    found: &Found,
    pattern: &Pattern,
) -> Result<Vec<Row>, AllocError>
    ensures { IfOk result (λ v. v.items ≡ rows (named_by (words_of found.now)) (plain_pattern pattern.now)) }
{
    let mut spine = Vec::new(alloc);
    let mut first = pattern;
    while let Some(left) = left_part(first) {
        spine.push(first)?;
        first = left;
    }
    let mut rows = first_rows(alloc, found, first)?;
    while let Some(whole) = spine.pop() {
        rows = rows_over(alloc, found, whole, rows)?;
    }
    Ok(rows)
}

fn left_part(pattern: &Pattern) -> Option<&Pattern>
    ensures { option_map (λ p. plain_pattern p.now) result ≡ left_part (plain_pattern pattern.now) }
{
    match pattern {
        Pattern::Both(_, left, _) | Pattern::Either(left, _) => Some(left),
        Pattern::Where(of, _) | Pattern::Exact(of, _) | Pattern::Within(of, _) => Some(of),
        Pattern::Atom(_) | Pattern::Not { .. } => None,
    }
}

// The rows of a pattern without a left part.
#[cycle(bodies)]
fn first_rows(alloc: Global, found: &Found, first: &Pattern) -> Result<Vec<Row>, AllocError>
    requires { left_part (plain_pattern first.now) ≡ None }
    ensures { IfOk result (λ v. v.items ≡ rows (named_by (words_of found.now)) (plain_pattern first.now)) }
{
    match first {
        Pattern::Atom(atom) => atom_rows(alloc, found, atom),
        Pattern::Not {
            inner,
            before,
            after,
        } => {
            let before_rows = pattern_rows(alloc, found, before)?;
            let inner_rows = pattern_rows(alloc, found, inner)?;
            let after_rows = pattern_rows(alloc, found, after)?;
            remaining_rows(alloc, &before_rows, &inner_rows, &after_rows)
        }
        Pattern::Both(..)
        | Pattern::Either(..)
        | Pattern::Where(..)
        | Pattern::Exact(..)
        | Pattern::Within(..) => unreachable!(),
    }
}

// The rows of a right operand: an atom, a NOT, or a pattern in brackets.
#[cycle(bodies)]
fn operand_rows(alloc: Global, found: &Found, operand: &Pattern) -> Result<Vec<Row>, AllocError>
    ensures { IfOk result (λ v. v.items ≡ rows (named_by (words_of found.now)) (plain_pattern operand.now)) }
{
    match left_part(operand) {
        None => first_rows(alloc, found, operand),
        Some(_) => pattern_rows(alloc, found, operand),
    }
}

// The rows of a pattern, from those of its left part.
#[cycle(bodies)]
fn rows_over(
    alloc: Global,
    found: &Found,
    whole: &Pattern,
    left_rows: Vec<Row>,
) -> Result<Vec<Row>, AllocError>
    ensures { IfOk result (λ v. v.items ≡ rows_over (named_by (words_of found.now)) (plain_pattern whole.now) left_rows.items) }
{
    match whole {
        Pattern::Both(op, _, right) => {
            let right_rows = operand_rows(alloc, found, right)?;
            join_rows(alloc, *op, &left_rows, &right_rows)
        }
        Pattern::Either(_, right) => {
            let mut either = left_rows;
            let mut more = operand_rows(alloc, found, right)?;
            either.append(&mut more)?;
            in_order(either)
        }
        Pattern::Where(_, cond) => rows_where(alloc, left_rows, cond),
        Pattern::Exact(_, length) => rows_of_length(alloc, left_rows, *length),
        Pattern::Within(_, length) => rows_within(alloc, left_rows, *length),
        Pattern::Atom(_) | Pattern::Not { .. } => Ok(left_rows),
    }
}

// The rows of an atom of a rule over what was found.
fn atom_rows(alloc: Global, found: &Found, pat: &PatAtom) -> Result<Vec<Row>, AllocError>
    ensures { IfOk result (λ v. v.items ≡ rows_of (flat_map (matched pat.now) (named_by (words_of found.now) (name_of pat.now)))) }
{
    let matching = matching_rows(alloc, found.of_word(&pat.name), pat)?;
    let sorted = in_order(matching)?;
    Ok(sorted)
}

// The rows of the detections that match, in the order of these.
fn matching_rows(alloc: Global, found: &[Detection], pat: &PatAtom) -> Result<Vec<Row>, AllocError>
    ensures { IfOk result (λ v. v.items ≡ flat_map (matched_rows pat.now) found.now) }
{
    let mut rows = Vec::new(alloc);
    for detection in found {
        push_match(alloc, pat, detection, &mut rows)?;
    }
    Ok(rows)
}

fn push_match(
    alloc: Global,
    pat: &PatAtom,
    detection: &Detection,
    rows: &mut Vec<Row>,
) -> Result<(), AllocError>
    ensures { OnOk result (rows.new.items ≡ rows.old.items ++ matched_rows pat.now detection.now) }
{
    match match_atom(alloc, pat, &detection.atom)? {
        None => Ok(()),
        Some(binding) => {
            rows.push(Row {
                binding,
                span: detection.span,
            })?;
            Ok(())
        }
    }
}
