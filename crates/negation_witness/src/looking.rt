// Walks over the rows of an index, as they are after the change.
ghost use Rattle.std.specs.Prelude.{◌≡◌, Some, IfSome};
ghost use Rattle.goal_store.specs.Goals.{seen};
ghost use Rattle.goal_store.specs.declared.marks.When.TheVariants.{After};
ghost use Rattle.interval_ops.specs.Operators.{partner_range};
ghost use Rattle.interval_ops.specs.declared.ranges.Side.TheVariants.{Left};
ghost use Rattle.row_changes.specs.Partners.{listed};
ghost use Rattle.step_changes.specs.Indexed.{index_at, index_of};
ghost use Rattle.negation_witness.specs.Looking.{rows_or_none};

use ev_bind::Binding;
use event_model::{Op, Span};
use goal_store::{GoalStore, RowsFrom, When};
use interval_ops::{Side, partner_range};
use rule_ast::IndexId;

// The rows of an index that have a key and lie where an operator has the partners of a span.
pub(crate) fn rows_by<'a>(
    goals: &'a GoalStore,
    index: IndexId,
    key: &'a Binding,
    op: Op,
    span: Span,
) -> Option<RowsFrom<'a>>
    requires there { index_at goals.now index ≡ Some (index_of goals.now index) }
    requires edge { (index_of goals.now index).edge ≡ (partner_range op Left span).edge }
    ensures rows { rows_or_none result
        ≡ listed (index_of goals.now index).key (partner_range op Left span) key.now (seen goals.now (index_of goals.now index).of After) }
    ensures store { IfSome result (λ w. w.store.now ≡ goals.now) }
{
    goals.rows_of(index, key, partner_range(op, Side::Left, span), When::After)
}
