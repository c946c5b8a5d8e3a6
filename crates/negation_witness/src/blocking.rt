// Whether a chain gives a row.
ghost use Rattle.std.specs.Prelude.{◌≡◌};
ghost use Rattle.change_meaning.specs.MinusVisits.{blocks, ends_chain, goes_on};
ghost use Rattle.negation_witness.specs.Ways.{IsMinusWay, minus_view};

use crate::looking::rows_by;
use crate::ways::MinusWay;
use ev_bind::Row;
use event_model::Op;
use goal_store::GoalStore;

// Whether a row after ends a chain that gives the row, behind a row inside.
fn ends_chain(goals: &GoalStore, way: &MinusWay, row: &Row, middle: &Row) -> bool
    requires { IsMinusWay goals.now way.now }
    ensures { result ≡ ends_chain (minus_view goals.now way.now) row.now middle.now }
{
    let Some(rows) = rows_by(goals, way.after, &row.binding, Op::Finishes, row.span) else {
        return false;
    };
    let mut rows = rows;
    while let Some((last, behind)) = rows.next_row() {
        if middle.span.end() < last.span.start() {
            return true;
        }
        rows = behind;
    }
    false
}

// Whether a row inside goes on with a chain that gives the row, behind a row before.
fn goes_on(goals: &GoalStore, way: &MinusWay, row: &Row, first: &Row) -> bool
    requires { IsMinusWay goals.now way.now }
    ensures { result ≡ goes_on (minus_view goals.now way.now) row.now first.now }
{
    let Some(rows) = rows_by(goals, way.inner, &row.binding, Op::Seq, first.span) else {
        return false;
    };
    let mut rows = rows;
    while let Some((middle, behind)) = rows.next_row() {
        if ends_chain(goals, way, row, middle) {
            return true;
        }
        rows = behind;
    }
    false
}

/// Whether a chain of a row of each of `before`, `inner` and `after` gives this row, as they are after the change. It looks from the
/// row's start on, and stops at the first that it finds.
pub fn blocked(goals: &GoalStore, way: &MinusWay, row: &Row) -> bool
    requires { IsMinusWay goals.now way.now }
    ensures { result ≡ blocks (minus_view goals.now way.now) row.now }
{
    let Some(rows) = rows_by(goals, way.before, &row.binding, Op::Starts, row.span) else {
        return false;
    };
    let mut rows = rows;
    while let Some((first, behind)) = rows.next_row() {
        if goes_on(goals, way, row, first) {
            return true;
        }
        rows = behind;
    }
    false
}
