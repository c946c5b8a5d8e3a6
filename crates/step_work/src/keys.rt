// The slots that the rows of steps bind, and when two indexes are the same.
ghost use Rattle.std.specs.Prelude.{◌≡◌, ℕ, [], map, IfOk};
ghost use Rattle.std.specs.Str.{bytes_eq};
ghost use Rattle.rule_ast.specs.PlainPlans.{plain_index, plain_step, slots_list};
ghost use Rattle.rule_ast.specs.Vars.{atom_vars, is_in};
ghost use Rattle.step_meaning.specs.PlanOf.{in_both, in_either, partner_edge, same_index, slots_in, slots_table, slots_that, step_slots};

use event_model::{Edge, MOST_SLOTS, Op, PatAtom, Slot, Slots, Span};
use interval_ops::{Side, partner_range};
use rule_ast::{Index, Step, StepId, vars_of_atom};
use std::alloc::{AllocError, Global};

fn no_slots() -> Slots
    ensures { slots_list result ≡ [] }
{
    Slots::empty()
}

// The slots of a step; none past the last.
pub(crate) fn slots_at(slots: &[Slots], step: StepId) -> Slots
    ensures { slots_list result ≡ slots_in (map slots_list slots.now) step }
{
    let at = step as usize;
    if at < slots.len() {
        return slots[at];
    }
    no_slots()
}

fn either_slots(left: &Slots, right: &Slots) -> Slots
    ensures { slots_list result ≡ in_either (slots_list left.now) (slots_list right.now) }
{
    left.union(right)
}

pub(crate) fn both_slots(left: &Slots, right: &Slots) -> Slots
    ensures { slots_list result ≡ in_both (slots_list left.now) (slots_list right.now) }
{
    left.meet(right)
}

fn leaf_slots(pat: &PatAtom) -> Slots
    ensures { slots_list result ≡ slots_that (λ s. is_in s (atom_vars pat.now)) }
{
    vars_of_atom(pat)
}

// The slots of a step, from those of the steps before.
fn step_slots(slots: &[Slots], step: &Step) -> Slots
    ensures { slots_list result ≡ step_slots (slots_in (map slots_list slots.now)) (plain_step step.now) }
{
    match step {
        Step::Named { .. } => no_slots(),
        Step::Leaf { pat, .. } => leaf_slots(pat),
        Step::Join { left, right, .. } => {
            either_slots(&slots_at(slots, *left), &slots_at(slots, *right))
        }
        Step::Either { left, right } => {
            either_slots(&slots_at(slots, *left), &slots_at(slots, *right))
        }
        Step::Where { of, .. } => slots_at(slots, *of),
        Step::Exact { of, .. } => slots_at(slots, *of),
        Step::Within { of, .. } => slots_at(slots, *of),
        Step::Minus { joined, .. } => slots_at(slots, *joined),
        Step::Head { .. } => no_slots(),
    }
}

// The slots of each of the steps.
pub(crate) fn all_slots(alloc: Global, steps: &[Step]) -> Result<Vec<Slots>, AllocError>
    ensures { IfOk result (λ v. map slots_list v.items ≡ slots_table (map plain_step steps.now) []) }
{
    let mut slots = Vec::with_capacity(alloc, steps.len())?;
    for step in steps {
        let own = step_slots(&slots, step);
        slots.push(own)?;
    }
    Ok(slots)
}

// At which edge the partners of a side's spans lie in a range.
pub(crate) fn partner_edge(op: Op, side: Side) -> Edge
    ensures { result ≡ partner_edge op side }
{
    partner_range(op, side, Span::new(0, 0)).edge
}

fn is_same_key(left: &Slots, right: &Slots) -> bool
    ensures { result ≡ bytes_eq (slots_list left.now) (slots_list right.now) }
{
    for number in 0..MOST_SLOTS as u8 {
        let slot = Slot::new(number);
        if left.has(slot) != right.has(slot) {
            return false;
        }
    }
    true
}

pub(crate) fn is_same(left: &Index, right: &Index) -> bool
    ensures { result ≡ same_index (plain_index left.now) (plain_index right.now) }
{
    left.of == right.of && is_same_key(&left.key, &right.key) && left.edge == right.edge
}
