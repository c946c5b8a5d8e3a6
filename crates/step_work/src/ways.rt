// How the steps of a plan work, from the order of its indexes: each step has its own behind those of the steps before it.
ghost use Rattle.std.specs.Prelude.{◌≡◌, ◌+◌, List, [], length, map, get_or, slice_get, None, Some, IfOk, OnOk};
ghost use Rattle.event_model.specs.declared.operators.Edge.{Edge as EdgeOf};
ghost use Rattle.rule_ast.specs.PlainPlans.{PlainIndex, Join, Minus, plain_index, plain_step, slots_list};
ghost use Rattle.step_meaning.specs.PlanOf.{each_once, index, plan_indexes, slots_in, step_indexes, with_index};
ghost use Rattle.change_meaning.specs.Caps.{caps_in};
ghost use Rattle.step_work.specs.Asked.{in_place};
ghost use Rattle.step_work.specs.Ways.{AreWays, IsByJoin, IsByMinus, IsWayOf};

use crate::keys::{all_slots, both_slots, is_same, partner_edge, slots_at};
use event_model::{Edge, Op, Slots};
use interval_ops::Side;
use match_step::JoinWay;
use negation_witness::MinusWay;
use row_changes::CapList;
use rule_ast::{Index, IndexId, Plan, Step, StepId};
use std::alloc::{AllocError, Global};

/// How a step works: a join and a Minus look for rows by indexes, and every other step only goes over changed rows.
#[derive(Clone, Copy, Drop)]
pub enum StepWay {
    Plain,
    Join(JoinWay),
    Minus(MinusWay),
}

// The indexes that a step has asked for, each once; the first of them has this number in the plan.
#[derive(Drop)]
struct Asked {
    first: usize,
    indexes: Vec<Index>,
}

// The place of an index among others, behind which it goes where it is new.
fn place_of(indexes: &mut Vec<Index>, wanted: Index) -> Result<usize, AllocError>
    ensures indexes { OnOk result
        (map plain_index indexes.new.items ≡ with_index (map plain_index indexes.old.items) (plain_index wanted)) }
    ensures place { IfOk result (λ n. slice_get (map plain_index indexes.new.items) n ≡ Some (plain_index wanted)) }
{
    let mut place = 0;
    for known in indexes.as_slice() {
        if is_same(&wanted, known) {
            return Ok(place);
        }
        place += 1;
    }
    indexes.push(wanted)?;
    Ok(place)
}

// The number of an index in a plan. One past 32 bits is refused as memory is.
fn number_at(first: usize, place: usize) -> Result<IndexId, AllocError>
    ensures { IfOk result (λ n. n ≡ first + place) }
{
    match first.checked_add(place) {
        None => Err(AllocError),
        Some(number) => {
            if number > u32::MAX as usize {
                return Err(AllocError);
            }
            Ok(number as IndexId)
        }
    }
}

impl Asked {
    fn none(alloc: Global, first: usize) -> Asked
        ensures first { result.first ≡ first }
        ensures indexes { map plain_index result.indexes.items ≡ [] }
    {
        Asked {
            first,
            indexes: Vec::new(alloc),
        }
    }

    // The number of an index. It stays that, whatever more is asked for.
    fn number(&mut self, of: StepId, key: &Slots, edge: Edge) -> Result<IndexId, AllocError>
        ensures first { OnOk result (self.new.first ≡ self.old.first) }
        ensures indexes { OnOk result (map plain_index self.new.indexes.items
            ≡ with_index (map plain_index self.old.indexes.items) (index of (slots_list key.now) edge)) }
        ensures number { (before more after : List PlainIndex) → length before ≡ self.old.first
            → IfOk result (λ n. slice_get (in_place before (map plain_index self.new.indexes.items) more after) n
            ≡ Some (index of (slots_list key.now) edge)) }
    {
        let wanted = Index {
            of,
            key: *key,
            edge,
        };
        let place = place_of(&mut self.indexes, wanted)?;
        number_at(self.first, place)
    }
}

// The way of a join, and the number of its indexes.
fn join_way(
    alloc: Global,
    slots: &[Slots],
    first: usize,
    cap: Option<u64>,
    op: Op,
    left: StepId,
    right: StepId,
) -> Result<(StepWay, usize), AllocError>
    ensures way { (before after : List PlainIndex) → length before ≡ first → IfOk result
        (λ p. IsByJoin (in_place before [] (step_indexes (slots_in (map slots_list slots.now)) (Join op left right)) after) cap
        (slots_in (map slots_list slots.now)) op left right p.0) }
    ensures number { IfOk result
        (λ p. p.1 ≡ length (each_once (step_indexes (slots_in (map slots_list slots.now)) (Join op left right)))) }
{
    let key = both_slots(&slots_at(slots, left), &slots_at(slots, right));
    let mut asked = Asked::none(alloc, first);
    let lefts = asked.number(left, &key, partner_edge(op, Side::Right))?;
    let rights = asked.number(right, &key, partner_edge(op, Side::Left))?;
    let way = JoinWay {
        op,
        cap,
        lefts,
        rights,
    };
    Ok((StepWay::Join(way), asked.indexes.len()))
}

// The way of a Minus, and the number of its indexes.
fn minus_way(
    alloc: Global,
    slots: &[Slots],
    first: usize,
    cap: Option<u64>,
    joined: StepId,
    before: StepId,
    inner: StepId,
    after: StepId,
) -> Result<(StepWay, usize), AllocError>
    ensures way { (front behind : List PlainIndex) → length front ≡ first → IfOk result
        (λ p. IsByMinus
        (in_place front [] (step_indexes (slots_in (map slots_list slots.now)) (Minus joined before inner after)) behind) cap
        (slots_in (map slots_list slots.now)) joined before inner after p.0) }
    ensures number { IfOk result
        (λ p. p.1 ≡ length (each_once (step_indexes (slots_in (map slots_list slots.now)) (Minus joined before inner after)))) }
{
    let before_key = slots_at(slots, before);
    let inner_key = slots_at(slots, inner);
    let after_key = slots_at(slots, after);
    let mut asked = Asked::none(alloc, first);
    let joined_inner = asked.number(joined, &inner_key, Edge::Start)?;
    let joined_before = asked.number(joined, &before_key, Edge::Start)?;
    let joined_after = asked.number(joined, &after_key, Edge::End)?;
    let before_number = asked.number(before, &before_key, Edge::Start)?;
    let inner_number = asked.number(inner, &inner_key, Edge::Start)?;
    let after_number = asked.number(after, &after_key, Edge::End)?;
    let way = MinusWay {
        cap,
        joined_before,
        joined_inner,
        joined_after,
        before: before_number,
        inner: inner_number,
        after: after_number,
    };
    Ok((StepWay::Minus(way), asked.indexes.len()))
}

// The way of a step, and the number of its indexes.
fn way_of(
    alloc: Global,
    slots: &[Slots],
    first: usize,
    cap: Option<u64>,
    step: &Step,
) -> Result<(StepWay, usize), AllocError>
    ensures way { (before after : List PlainIndex) → length before ≡ first → IfOk result
        (λ p. IsWayOf (in_place before [] (step_indexes (slots_in (map slots_list slots.now)) (plain_step step.now)) after) cap
        (slots_in (map slots_list slots.now)) (plain_step step.now) p.0) }
    ensures number { IfOk result
        (λ p. p.1 ≡ length (each_once (step_indexes (slots_in (map slots_list slots.now)) (plain_step step.now)))) }
{
    match step {
        Step::Join { op, left, right } => join_way(alloc, slots, first, cap, *op, *left, *right),
        Step::Minus {
            joined,
            before,
            inner,
            after,
        } => minus_way(alloc, slots, first, cap, *joined, *before, *inner, *after),
        Step::Named { .. }
        | Step::Leaf { .. }
        | Step::Either { .. }
        | Step::Where { .. }
        | Step::Exact { .. }
        | Step::Within { .. }
        | Step::Head { .. } => Ok((StepWay::Plain, 0)),
    }
}

fn cap_at(caps: &CapList, step: usize) -> Option<u64>
    ensures { result ≡ get_or caps.now.cap.items step None }
{
    if step < caps.cap.len() {
        return caps.cap[step];
    }
    None
}

/// How each step of a plan works.
pub fn ways_of(alloc: Global, plan: &Plan, caps: &CapList) -> Result<Vec<StepWay>, AllocError>
    requires { map plain_index plan.now.indexes.items ≡ plan_indexes (map plain_step plan.now.steps.items) }
    ensures { IfOk result
        (λ v. AreWays (map plain_index plan.now.indexes.items) (caps_in caps.now) (map plain_step plan.now.steps.items) v.items) }
{
    let slots = all_slots(alloc, &plan.steps)?;
    let mut ways = Vec::with_capacity(alloc, plan.steps.len())?;
    let mut first = 0;
    for step in &plan.steps {
        let cap = cap_at(caps, ways.len());
        let (way, number) = way_of(alloc, &slots, first, cap, step)?;
        ways.push(way)?;
        first += number;
    }
    Ok(ways)
}
