// A row that looks for partners, and what it gives with each.
ghost use Rattle.std.specs.Prelude.{◌≡◌, IfOk};
ghost use Rattle.pattern_meaning.specs.RuleRows.{joined};
ghost use Rattle.change_meaning.specs.Caps.{fitting};
ghost use Rattle.match_step.specs.Left.{item};

use ev_bind::Row;
use event_model::Op;
use interval_ops::{Side, pair};
use std::alloc::{AllocError, Global};
use step_changes::fits;

// A row on a side of a join, with the operator and the cap of the join.
#[derive(Drop)]
pub(crate) struct Seeker {
    pub(crate) op: Op,
    pub(crate) cap: Option<u64>,
    pub(crate) side: Side,
    pub(crate) row: Row,
}

// The row of two rows, or `None` where they don't join or it is too long.
fn join(
    alloc: Global,
    op: Op,
    cap: Option<u64>,
    left: &Row,
    right: &Row,
) -> Result<Option<Row>, AllocError>
    ensures { IfOk result (λ o. o ≡ fitting cap (joined op left.now right.now)) }
{
    let Some(span) = pair(op, left.span, right.span) else {
        return Ok(None);
    };
    if !fits(cap, span) {
        return Ok(None);
    }
    match left.binding.merge(alloc, &right.binding)? {
        None => Ok(None),
        Some(binding) => Ok(Some(Row { binding, span })),
    }
}

impl Seeker {
    // What a partner gives.
    pub(crate) fn join(&self, alloc: Global, partner: &Row) -> Result<Option<Row>, AllocError>
        ensures { IfOk result (λ o. o ≡ item self.now partner.now) }
    {
        match self.side {
            Side::Left => join(alloc, self.op, self.cap, &self.row, partner),
            Side::Right => join(alloc, self.op, self.cap, partner, &self.row),
        }
    }
}
