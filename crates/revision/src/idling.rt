// Steps that have nothing to do.
ghost use Rattle.std.specs.Prelude.{◌≡◌, [], true};
ghost use Rattle.rule_ast.specs.PlainPlans.{plain_step};
ghost use Rattle.revision.specs.Idle.{IsIdle};
ghost use Rattle.revision.specs.Lists.{rows_at};

use crate::lists::rows_of;
use rule_ast::{Step, StepId};
use step_changes::Delta;

fn has_none(changed: &[Vec<Delta>], id: StepId) -> bool
    ensures { result ≡ true → rows_at changed.now id ≡ [] }
{
    rows_of(changed, id).is_empty()
}

fn have_none(changed: &[Vec<Delta>], left: StepId, right: StepId) -> bool
    ensures { result ≡ true → (rows_at changed.now left ≡ []) × (rows_at changed.now right ≡ []) }
{
    if !has_none(changed, left) {
        return false;
    }
    has_none(changed, right)
}

/// Whether no row of an operand of a step has changed. Of a name this is never said, since events are its operand too.
pub(crate) fn is_idle(step: &Step, changed: &[Vec<Delta>]) -> bool
    ensures { result ≡ true → IsIdle (plain_step step.now) changed.now }
{
    match step {
        Step::Named { .. } => false,
        Step::Leaf { of, .. } => has_none(changed, *of),
        Step::Join { left, right, .. } => have_none(changed, *left, *right),
        Step::Either { left, right } => have_none(changed, *left, *right),
        Step::Where { of, .. } => has_none(changed, *of),
        Step::Exact { of, .. } => has_none(changed, *of),
        Step::Within { of, .. } => has_none(changed, *of),
        Step::Minus {
            joined,
            before,
            inner,
            after,
        } => {
            if !have_none(changed, *joined, *before) {
                return false;
            }
            have_none(changed, *inner, *after)
        }
        Step::Head { of, .. } => has_none(changed, *of),
    }
}
