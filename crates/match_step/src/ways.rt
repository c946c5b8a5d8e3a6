// How the partners of a row are found in the store.
ghost use Rattle.std.specs.Prelude.{◌≡◌, IfSome};
ghost use Rattle.change_meaning.specs.JoinVisits.{partners};
ghost use Rattle.match_step.specs.Joining.{IsWay, view_of};
ghost use Rattle.match_step.specs.Left.{rows_in};

use ev_bind::Row;
use event_model::Op;
use goal_store::{GoalStore, RowsFrom, When};
use interval_ops::{Side, partner_range};
use rule_ast::IndexId;

/// How a join finds partners.
#[derive(Clone, Copy, Drop)]
pub struct JoinWay {
    pub op: Op,
    /// A joined row that takes more ticks isn't given.
    pub cap: Option<u64>,
    /// The index over the left operand, in which right rows look for their partners.
    pub lefts: IndexId,
    /// The index over the right operand, in which left rows look for theirs.
    pub rights: IndexId,
}

// A walk over the partners of a row: left rows look among the right ones after the change, right rows among the left ones before it.
pub(crate) fn partner_rows<'a>(
    goals: &'a GoalStore,
    way: JoinWay,
    side: Side,
    row: &'a Row,
) -> Option<RowsFrom<'a>>
    requires { IsWay goals.now way }
    ensures rows { rows_in result ≡ partners (view_of goals.now way) side row.now }
    ensures store { IfSome result (λ w. w.store.now ≡ goals.now) }
{
    let range = partner_range(way.op, side, row.span);
    match side {
        Side::Left => goals.rows_of(way.rights, &row.binding, range, When::After),
        Side::Right => goals.rows_of(way.lefts, &row.binding, range, When::Before),
    }
}
