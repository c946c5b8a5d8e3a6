// The table of the operators.
ghost use Rattle.std.specs.Prelude.{◌≡◌, min, max, true};
ghost use Rattle.interval_ops.specs.Operators.{pair, pairs, hull};

use event_model::{Op, Span};

// Whether the spans meet the operator's condition.
fn pairs(op: Op, left: Span, right: Span) -> bool
    ensures { result ≡ pairs op left right }
{
    match op {
        Op::Seq => left.end() < right.start(),
        Op::And => true,
        Op::Par => left.start().max(right.start()) < left.end().min(right.end()),
        Op::Equals => left.start() == right.start() && left.end() == right.end(),
        Op::Meets => left.end() == right.start(),
        Op::During => {
            right.start() < left.start() && left.start() < left.end() && left.end() < right.end()
        }
        Op::Starts => left.start() == right.start() && left.end() < right.end(),
        Op::Finishes => left.end() == right.end() && right.start() < left.start(),
    }
}

// From the earlier start to the later end.
fn hull(left: Span, right: Span) -> Span
    ensures { result ≡ hull left right }
{
    Span::new(left.start().min(right.start()), left.end().max(right.end()))
}

/// The span of the two spans under the operator, or `None` where they don't meet its condition.
pub fn pair(op: Op, left: Span, right: Span) -> Option<Span>
    ensures { result ≡ pair op left right }
{
    if !pairs(op, left, right) {
        return None;
    }
    Some(match op {
        Op::Seq | Op::Meets => Span::new(left.start(), right.end()),
        Op::And | Op::Par => hull(left, right),
        Op::Equals => left,
        Op::During | Op::Starts | Op::Finishes => right,
    })
}
