// The forms of patterns, over lists of rows.
ghost use Rattle.std.specs.Prelude.{◌≡◌, ◌-◌, ◌++◌, IfOk, OnOk};
ghost use Rattle.std.specs.List.{filter};
ghost use Rattle.ordered_lists.specs.Canon.{Rising};
ghost use Rattle.ordered_lists.specs.Lists.{some_of, joins, with_each};
ghost use Rattle.ordered_lists.specs.Members.{without};
ghost use Rattle.ev_bind.specs.Rows.{row_cmp};
ghost use Rattle.rule_ast.specs.Plain.{plain_cond};
ghost use Rattle.term_eval.specs.Values.{holds};
ghost use Rattle.pattern_meaning.specs.PatternRows.{rows_of};
ghost use Rattle.pattern_meaning.specs.RuleRows.{joined, joined_rows, is_long, is_short, remaining};

use ev_bind::Row;
use event_model::{Op, Span};
use interval_ops::pair;
use ordered_lists::{is_member, sort_unique};
use rule_ast::Cond;
use std::alloc::{AllocError, Global};
use term_eval::holds;

// The rows in order, each once.
#[tactic(auto, using(ev_bind::specs::Rows::exact_rows))]
pub(crate) fn in_order(rows: Vec<Row>) -> Result<Vec<Row>, AllocError>
    ensures { IfOk result (λ v. v.items ≡ rows_of rows.items) }
{
    let mut sorted = rows;
    sort_unique(&mut sorted)?;
    Ok(sorted)
}

fn push_joined(
    alloc: Global,
    op: Op,
    left: &Row,
    right: &Row,
    rows: &mut Vec<Row>,
) -> Result<(), AllocError>
    ensures { OnOk result (rows.new.items ≡ rows.old.items ++ some_of (joined op left.now right.now)) }
{
    match pair(op, left.span, right.span) {
        None => Ok(()),
        Some(span) => match left.binding.merge(alloc, &right.binding)? {
            None => Ok(()),
            Some(binding) => {
                rows.push(Row { binding, span })?;
                Ok(())
            }
        },
    }
}

fn push_partners(
    alloc: Global,
    op: Op,
    row: &Row,
    right: &[Row],
    rows: &mut Vec<Row>,
) -> Result<(), AllocError>
    ensures { OnOk result (rows.new.items ≡ rows.old.items ++ with_each (joined op) right.now row.now) }
{
    for partner in right {
        push_joined(alloc, op, row, partner, rows)?;
    }
    Ok(())
}

// The rows of two patterns under an operator: all pairs are looked at.
pub(crate) fn join_rows(
    alloc: Global,
    op: Op,
    left: &[Row],
    right: &[Row],
) -> Result<Vec<Row>, AllocError>
    ensures { IfOk result (λ v. v.items ≡ joined_rows op left.now right.now) }
{
    let mut rows = Vec::new(alloc);
    for row in left {
        push_partners(alloc, op, row, right, &mut rows)?;
    }
    in_order(rows)
}

// The rows whose binding makes the condition true.
pub(crate) fn rows_where(alloc: Global, rows: Vec<Row>, cond: &Cond) -> Result<Vec<Row>, AllocError>
    ensures { IfOk result (λ v. v.items ≡ rows_of (filter (λ r. holds (plain_cond cond.now) r.binding) rows.items)) }
{
    let mut kept = Vec::new(alloc);
    for row in rows {
        if holds(cond, &row.binding) {
            kept.push(row)?;
        }
    }
    in_order(kept)
}

fn ticks(span: Span) -> u64
    ensures { result ≡ span.end - span.start }
{
    span.end() - span.start()
}

// The rows of exactly this length.
pub(crate) fn rows_of_length(
    alloc: Global,
    rows: Vec<Row>,
    length: u64,
) -> Result<Vec<Row>, AllocError>
    ensures { IfOk result (λ v. v.items ≡ rows_of (filter (is_long length) rows.items)) }
{
    let mut kept = Vec::new(alloc);
    for row in rows {
        if ticks(row.span) == length {
            kept.push(row)?;
        }
    }
    in_order(kept)
}

// The rows of at most this length.
pub(crate) fn rows_within(
    alloc: Global,
    rows: Vec<Row>,
    length: u64,
) -> Result<Vec<Row>, AllocError>
    ensures { IfOk result (λ v. v.items ≡ rows_of (filter (is_short length) rows.items)) }
{
    let mut kept = Vec::new(alloc);
    for row in rows {
        if ticks(row.span) <= length {
            kept.push(row)?;
        }
    }
    in_order(kept)
}

// The rows that are not among the others.
#[tactic(auto, using(ev_bind::specs::Rows::exact_rows))]
fn rows_without(alloc: Global, rows: Vec<Row>, others: &[Row]) -> Result<Vec<Row>, AllocError>
    requires { Rising row_cmp others.now }
    ensures { IfOk result (λ v. v.items ≡ rows_of (without row_cmp rows.items others.now)) }
{
    let mut kept = Vec::new(alloc);
    for row in rows {
        if !is_member(&row, others) {
            kept.push(row)?;
        }
    }
    in_order(kept)
}

// The rows of a NOT, over those of its start and end patterns and of what may not lie between them.
#[tactic(auto, using(ev_bind::specs::Rows::exact_rows, ordered_lists::specs::Members::rising_after_sort))]
pub(crate) fn remaining_rows(
    alloc: Global,
    before: &[Row],
    inner: &[Row],
    after: &[Row],
) -> Result<Vec<Row>, AllocError>
    ensures { IfOk result (λ v. v.items ≡ remaining before.now inner.now after.now) }
{
    let front = join_rows(alloc, Op::Seq, before, inner)?;
    let chains = join_rows(alloc, Op::Seq, &front, after)?;
    let pairs = join_rows(alloc, Op::Seq, before, after)?;
    rows_without(alloc, pairs, &chains)
}
