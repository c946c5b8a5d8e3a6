// The partners of one row, as far as the units go.
ghost use Rattle.std.specs.Prelude.{IfOk, OnOk};
ghost use Rattle.goal_store.specs.declared.kept.GoalStore.{GoalStore};
ghost use Rattle.step_changes.specs.Tasks.{WorksOn};
ghost use Rattle.match_step.specs.Left.{IsOver, meeting_at};

use crate::matches::Matches;
use event_changes::Sign;
use std::alloc::AllocError;
use step_changes::{Hint, Pending, note_item};

// Makes a visit for each partner that is left. Answers the units that are left, or `None` where they are used up before.
pub(crate) fn meet(
    matches: &mut Matches,
    sign: Sign,
    pending: &mut Pending,
    units: u32,
) -> Result<Option<u32>, AllocError>
    ensures works { IfOk result (WorksOn (meeting_at sign matches.old pending.old) (meeting_at sign matches.new pending.new) units) }
    ensures store { (goals : GoalStore) → IsOver goals matches.old → OnOk result (IsOver goals matches.new) }
{
    let mut units = units;
    while units > 0 {
        match matches.next() {
            None => return Ok(Some(units)),
            Some(item) => {
                note_item(sign, item?, Hint::none(), pending)?;
                units -= 1;
            }
        }
    }
    if matches.remain() {
        return Ok(None);
    }
    Ok(Some(0))
}
