// The lists of changed rows of steps.
ghost use Rattle.std.specs.Prelude.{◌≡◌, ◌≢◌, ℕ, [], length};
ghost use Rattle.step_work.specs.Seen.{changed_rows};
ghost use Rattle.revision.specs.Lists.{rows_at};

use rule_ast::StepId;
use step_changes::Delta;

/// The changed rows of the step of a number; none past the last list.
pub(crate) fn rows_of(changed: &[Vec<Delta>], id: StepId) -> &[Delta]
    ensures { result.now ≡ changed_rows changed.now id }
{
    let at = id as usize;
    if at < changed.len() {
        let rows = &changed[at];
        return rows.as_slice();
    }
    &[]
}

/// Empties the list of a step.
pub(crate) fn clear_rows(changed: &mut Vec<Vec<Delta>>, at: usize)
    ensures cleared { rows_at changed.new.items at ≡ [] }
    ensures others { (j : ℕ) → j ≢ at → rows_at changed.new.items j ≡ rows_at changed.old.items j }
    ensures lists { length changed.new.items ≡ length changed.old.items }
{
    if let Some(rows) = changed.get_mut(at) {
        rows.clear();
    }
}
