// The indexes by which the rows of steps are looked for.
ghost use Rattle.std.specs.Prelude.{◌≡◌, ◌<◌, ℕ, [], length, map, IfOk, OnOk};
ghost use Rattle.std.specs.Str.{bytes_eq};
ghost use Rattle.rule_ast.specs.PlainPlans.{Join, Minus, plain_index, plain_step, slots_list};
ghost use Rattle.rule_ast.specs.Vars.{atom_vars, is_in};
ghost use Rattle.step_meaning.specs.Operands.{AreLower, IsLower};
ghost use Rattle.step_meaning.specs.PlanOf.{each_once, in_both, in_either, index, partner_edge, plan_indexes, same_index, slots_in, slots_that, step_indexes, step_slots, with_index};

use event_model::{Edge, MOST_SLOTS, Op, PatAtom, Slot, Slots, Span};
use interval_ops::{Side, partner_range};
use rule_ast::{Index, Step, StepId, vars_of_atom};
use std::alloc::{AllocError, Global};

fn slots_at(slots: &[Slots], step: StepId) -> Slots
    requires { step < length slots.now }
    ensures { slots_list result ≡ slots_in (map slots_list slots.now) step }
{
    slots[step as usize]
}

fn no_slots() -> Slots
    ensures { slots_list result ≡ [] }
{
    Slots::empty()
}

// The slots that are in either.
fn either_slots(left: &Slots, right: &Slots) -> Slots
    ensures { slots_list result ≡ in_either (slots_list left.now) (slots_list right.now) }
{
    left.union(right)
}

// The slots that are in both.
fn both_slots(left: &Slots, right: &Slots) -> Slots
    ensures { slots_list result ≡ in_both (slots_list left.now) (slots_list right.now) }
{
    left.meet(right)
}

fn leaf_slots(pat: &PatAtom) -> Slots
    ensures { slots_list result ≡ slots_that (λ s. is_in s (atom_vars pat.now)) }
{
    vars_of_atom(pat)
}

// The slots that the rows of a step bind, from those of the steps before.
fn step_slots(slots: &[Slots], step: &Step) -> Slots
    requires { IsLower (length slots.now) (plain_step step.now) }
    ensures { slots_list result ≡ step_slots (slots_in (map slots_list slots.now)) (plain_step step.now) }
{
    match step {
        Step::Named { .. } => no_slots(),
        Step::Leaf { pat, .. } => leaf_slots(pat),
        Step::Join { left, right, .. } => {
            either_slots(&slots_at(slots, *left), &slots_at(slots, *right))
        }
        Step::Either { left, right } => {
            either_slots(&slots_at(slots, *left), &slots_at(slots, *right))
        }
        Step::Where { of, .. } => slots_at(slots, *of),
        Step::Exact { of, .. } => slots_at(slots, *of),
        Step::Within { of, .. } => slots_at(slots, *of),
        Step::Minus { joined, .. } => slots_at(slots, *joined),
        Step::Head { .. } => no_slots(),
    }
}

// At which edge the partners of a side's spans lie in a range.
fn partner_edge(op: Op, side: Side) -> Edge
    ensures { result ≡ partner_edge op side }
{
    partner_range(op, side, Span::new(0, 0)).edge
}

fn is_same_key(left: &Slots, right: &Slots) -> bool
    ensures { result ≡ bytes_eq (slots_list left.now) (slots_list right.now) }
{
    for number in 0..MOST_SLOTS as u8 {
        let slot = Slot::new(number);
        if left.has(slot) != right.has(slot) {
            return false;
        }
    }
    true
}

fn is_same(left: &Index, right: &Index) -> bool
    ensures { result ≡ same_index (plain_index left.now) (plain_index right.now) }
{
    left.of == right.of && is_same_key(&left.key, &right.key) && left.edge == right.edge
}

// One index more, where it isn't there yet.
fn push_once(indexes: &mut Vec<Index>, index: Index) -> Result<(), AllocError>
    ensures { OnOk result (map plain_index indexes.new.items ≡ with_index (map plain_index indexes.old.items) (plain_index index)) }
{
    for known in indexes.as_slice() {
        if is_same(&index, known) {
            return Ok(());
        }
    }
    indexes.push(index)?;
    Ok(())
}

fn index(of: StepId, key: Slots, edge: Edge) -> Index
    ensures { plain_index result ≡ index of (slots_list key) edge }
{
    Index { of, key, edge }
}

fn join_indexes(
    alloc: Global,
    slots: &[Slots],
    op: Op,
    left: StepId,
    right: StepId,
) -> Result<Vec<Index>, AllocError>
    requires left { left < length slots.now }
    requires right { right < length slots.now }
    ensures { IfOk result
        (λ v. map plain_index v.items ≡ each_once (step_indexes (slots_in (map slots_list slots.now)) (Join op left right))) }
{
    let key = both_slots(&slots_at(slots, left), &slots_at(slots, right));
    let mut own = Vec::new(alloc);
    push_once(&mut own, index(left, key, partner_edge(op, Side::Right)))?;
    push_once(&mut own, index(right, key, partner_edge(op, Side::Left)))?;
    Ok(own)
}

fn minus_indexes(
    alloc: Global,
    slots: &[Slots],
    joined: StepId,
    before: StepId,
    inner: StepId,
    after: StepId,
) -> Result<Vec<Index>, AllocError>
    requires before { before < length slots.now }
    requires inner { inner < length slots.now }
    requires after { after < length slots.now }
    ensures { IfOk result
        (λ v. map plain_index v.items ≡ each_once (step_indexes (slots_in (map slots_list slots.now)) (Minus joined before inner after))) }
{
    let before_key = slots_at(slots, before);
    let inner_key = slots_at(slots, inner);
    let after_key = slots_at(slots, after);
    let mut own = Vec::new(alloc);
    push_once(&mut own, index(joined, inner_key, Edge::Start))?;
    push_once(&mut own, index(joined, before_key, Edge::Start))?;
    push_once(&mut own, index(joined, after_key, Edge::End))?;
    push_once(&mut own, index(before, before_key, Edge::Start))?;
    push_once(&mut own, index(inner, inner_key, Edge::Start))?;
    push_once(&mut own, index(after, after_key, Edge::End))?;
    Ok(own)
}

// The indexes of one step.
fn step_indexes(alloc: Global, slots: &[Slots], step: &Step) -> Result<Vec<Index>, AllocError>
    requires { IsLower (length slots.now) (plain_step step.now) }
    ensures { IfOk result
        (λ v. map plain_index v.items ≡ each_once (step_indexes (slots_in (map slots_list slots.now)) (plain_step step.now))) }
{
    match step {
        Step::Join { op, left, right } => join_indexes(alloc, slots, *op, *left, *right),
        Step::Minus {
            joined,
            before,
            inner,
            after,
        } => minus_indexes(alloc, slots, *joined, *before, *inner, *after),
        Step::Named { .. }
        | Step::Leaf { .. }
        | Step::Either { .. }
        | Step::Where { .. }
        | Step::Exact { .. }
        | Step::Within { .. }
        | Step::Head { .. } => Ok(Vec::new(alloc)),
    }
}

// The indexes of all steps, in their order.
pub(crate) fn plan_indexes(alloc: Global, steps: &[Step]) -> Result<Vec<Index>, AllocError>
    requires { AreLower (map plain_step steps.now) }
    ensures { IfOk result (λ v. map plain_index v.items ≡ plan_indexes (map plain_step steps.now)) }
{
    let mut indexes = Vec::new(alloc);
    let mut slots = Vec::with_capacity(alloc, steps.len())?;
    for step in steps {
        let mut own = step_indexes(alloc, &slots, step)?;
        indexes.append(&mut own)?;
        let bound = step_slots(&slots, step);
        slots.push(bound)?;
    }
    Ok(indexes)
}
