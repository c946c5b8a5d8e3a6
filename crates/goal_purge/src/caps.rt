// Caps and reaches of the steps of a plan.
ghost use Rattle.std.specs.Prelude.{cond, ◌≡◌, ◌∷◌, [], ◌<◌, length, map, replicate, IfOk, vec_len};
ghost use Rattle.std.specs.List.{All};
ghost use Rattle.rule_ast.specs.Plain.{plain_rules};
ghost use Rattle.rule_ast.specs.PlainPlans.{plain_plan, plain_step};
ghost use Rattle.row_changes.specs.declared.caps.Reach.TheVariants.{NoUser};
ghost use Rattle.step_meaning.specs.Operands.{AreLower};
ghost use Rattle.step_meaning.specs.PlanOf.{plan_of};
ghost use Rattle.horizon_meaning.specs.Caps.{AreCaps, below_join, below_of, belows, length_at, operands, seeks};
ghost use Rattle.goal_purge.specs.Charges.{charged};

use crate::ticks::{further, greatest, least, needed, sum_of};
use event_model::Op;
use row_changes::{CapList, Reach};
use rule_ast::{Plan, Step, StepId};
use rule_check::Checked;
use std::alloc::{AllocError, Global};

// How long a row is at most that is joined from rows of these lengths.
fn below_join(op: Op, left: Option<u64>, right: Option<u64>) -> Option<u64>
    ensures { result ≡ below_join op left right }
{
    match op {
        Op::Seq | Op::And => None,
        Op::Par | Op::Meets => sum_of(left, right),
        Op::Equals => least(left, right),
        Op::During | Op::Starts | Op::Finishes => right,
    }
}

// How long the rows of a step can be, from the lengths of the steps before it.
fn below_of(belows: &[Option<u64>], step: &Step) -> Option<u64>
    requires { All (λ i. i < length belows.now) (operands (plain_step step.now)) }
    ensures { result ≡ below_of (length_at belows.now) (plain_step step.now) }
{
    match step {
        Step::Named { .. } | Step::Minus { .. } => None,
        Step::Leaf { of, .. } | Step::Where { of, .. } | Step::Head { of, .. } => {
            belows[*of as usize]
        }
        Step::Join { op, left, right } => {
            below_join(*op, belows[*left as usize], belows[*right as usize])
        }
        Step::Either { left, right } => greatest(belows[*left as usize], belows[*right as usize]),
        Step::Exact { of, q } | Step::Within { of, q } => least(Some(*q), belows[*of as usize]),
    }
}

// How long the rows of each step can be.
fn belows_of(alloc: Global, steps: &[Step]) -> Result<Vec<Option<u64>>, AllocError>
    requires { AreLower (map plain_step steps.now) }
    ensures items { IfOk result (λ v. v.items ≡ belows (map plain_step steps.now) []) }
    ensures size { IfOk result (λ v. vec_len v ≡ length steps.now) }
{
    let mut belows = Vec::new(alloc);
    for step in steps {
        let below = below_of(&belows, step);
        belows.push(below)?;
    }
    Ok(belows)
}

// A user with this cap more, for one step.
fn charge(reaches: &mut Vec<Reach>, step: StepId, cap: Option<u64>)
    requires { step < length reaches.old.items }
    ensures { reaches.new.items ≡ charged cap (step ∷ []) reaches.old.items }
{
    let place = step as usize;
    reaches[place] = further(cap, reaches[place]);
}

// The user with this cap more, for each of these steps.
fn charge_all(reaches: &mut Vec<Reach>, steps: &[StepId], cap: Option<u64>)
    requires { All (λ i. i < length reaches.old.items) steps.now }
    ensures { reaches.new.items ≡ charged cap steps.now reaches.old.items }
{
    for step in steps {
        charge(reaches, *step, cap);
    }
}

// The user with this cap more, for its operands.
fn charge_step(reaches: &mut Vec<Reach>, user: &Step, cap: Option<u64>)
    requires { All (λ i. i < length reaches.old.items) (operands (plain_step user.now)) }
    ensures { reaches.new.items ≡ charged cap (operands (plain_step user.now)) reaches.old.items }
{
    match user {
        Step::Named { heads, .. } => charge_all(reaches, heads, cap),
        Step::Leaf { of, .. } | Step::Where { of, .. } | Step::Head { of, .. } => {
            charge(reaches, *of, cap)
        }
        Step::Exact { of, .. } | Step::Within { of, .. } => charge(reaches, *of, cap),
        Step::Join { left, right, .. } | Step::Either { left, right } => {
            charge(reaches, *left, cap);
            charge(reaches, *right, cap);
        }
        Step::Minus {
            joined,
            before,
            inner,
            after,
        } => {
            charge(reaches, *joined, cap);
            charge(reaches, *before, cap);
            charge(reaches, *inner, cap);
            charge(reaches, *after, cap);
        }
    }
}

// Whether a step looks for partners among the rows of its operands.
fn seeks(step: &Step) -> bool
    ensures { result ≡ seeks (plain_step step.now) }
{
    match step {
        Step::Join { .. } | Step::Minus { .. } => true,
        Step::Named { .. } | Step::Leaf { .. } | Step::Either { .. } => false,
        Step::Where { .. } | Step::Exact { .. } | Step::Within { .. } | Step::Head { .. } => false,
    }
}

// The user with this cap more, for its operands, if it looks for partners in them.
fn charge_seeker(reaches: &mut Vec<Reach>, user: &Step, cap: Option<u64>)
    requires { All (λ i. i < length reaches.old.items) (operands (plain_step user.now)) }
    ensures { reaches.new.items
        ≡ cond (seeks (plain_step user.now)) (charged cap (operands (plain_step user.now)) reaches.old.items) reaches.old.items }
{
    if seeks(user) {
        charge_step(reaches, user, cap);
    }
}

// So many reaches without a user, but for the steps that are given out, which have one without a cap.
fn given_out(alloc: Global, count: usize, shown: &[StepId]) -> Result<Vec<Reach>, AllocError>
    ensures items { IfOk result (λ v. v.items ≡ charged None shown.now (replicate count NoUser)) }
    ensures size { IfOk result (λ v. vec_len v ≡ count) }
{
    let mut reaches = vec![in alloc; Reach::NoUser; count]?;
    for step in shown {
        if (*step as usize) < reaches.len() {
            charge(&mut reaches, *step, None);
        }
    }
    Ok(reaches)
}

/// The cap and the reach of each step of a plan whose operands come first. It takes time of the number of all operands. An `Err` says
/// that there was no memory.
pub fn caps_of(alloc: Global, plan: &Plan) -> Result<CapList, AllocError>
    requires { AreLower (map plain_step plan.now.steps.items) }
    ensures { IfOk result (AreCaps (plain_plan plan.now)) }
{
    let steps = plan.steps.as_slice();
    let belows = belows_of(alloc, steps)?;
    let mut users = given_out(alloc, steps.len(), plan.shown.as_slice())?;
    let mut seekers = vec![in alloc; Reach::NoUser; steps.len()]?;
    let mut cap = Vec::new(alloc);
    let mut reach = Vec::new(alloc);
    for i in (0..steps.len()).rev() {
        let step = &steps[i];
        let reached = seekers[i];
        let most = least(belows[i], needed(users[i]));
        charge_step(&mut users, step, most);
        charge_seeker(&mut seekers, step, most);
        cap.push(most)?;
        reach.push(reached)?;
    }
    cap.reverse();
    reach.reverse();
    Ok(CapList { cap, reach })
}

/// The cap and the reach of each step of the plan that these rules have. An `Err` says that there was no memory.
pub fn lengths(alloc: Global, checked: &Checked, plan: &Plan) -> Result<CapList, AllocError>
    requires { plain_plan plan.now ≡ plan_of (plain_rules checked.now) }
    ensures { IfOk result (AreCaps (plan_of (plain_rules checked.now))) }
{
    // Rules that are checked have ranks, so the operands of their plan come first.
    let _rules = checked.rules();
    caps_of(alloc, plan)
}
