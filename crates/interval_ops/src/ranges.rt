// The table of the ranges in which partners lie.
ghost use Rattle.std.specs.Prelude.{◌≡◌};
ghost use Rattle.interval_ops.specs.Operators.{partner_range, in_range, edge_of, range_from, range_at, range_before};

use event_model::{Edge, Op, Span, TIME_LIMIT};

/// On which side of an operator a span stands.
#[derive(Clone, Copy, Debug, PartialEq, Eq)]
pub enum Side {
    Left,
    Right,
}

/// The spans of which the edge lies from `low` to `high`, both of which belong to it: none where `low > high`.
#[derive(Clone, Copy, Debug, PartialEq, Eq)]
pub struct Range {
    pub edge: Edge,
    pub low: u64,
    pub high: u64,
}

fn range_from(edge: Edge, low: u64) -> Range
    ensures { result ≡ range_from edge low }
{
    Range {
        edge,
        low,
        high: TIME_LIMIT - 1,
    }
}

fn range_at(edge: Edge, tick: u64) -> Range
    ensures { result ≡ range_at edge tick }
{
    Range {
        edge,
        low: tick,
        high: tick,
    }
}

// The ticks from a first one on that are before the tick.
fn range_before(edge: Edge, first: u64, tick: u64) -> Range
    ensures { result ≡ range_before edge first tick }
{
    if tick == 0 {
        return Range {
            edge,
            low: 1,
            high: 0,
        };
    }
    Range {
        edge,
        low: first,
        high: tick - 1,
    }
}

/// Where the partners of a span lie, which stands on the side itself. Under `Seq`, `And` and `Meets` each span that lies
/// there is a partner; under the other operators some are not, and [`crate::pair`] tells.
pub fn partner_range(op: Op, side: Side, span: Span) -> Range
    ensures { result ≡ partner_range op side span }
{
    match (op, side) {
        (Op::Seq, Side::Left) => range_from(Edge::Start, span.end() + 1),
        (Op::Seq, Side::Right) => range_before(Edge::End, 0, span.start()),
        (Op::And, _) => range_from(Edge::Start, 0),
        (Op::Par, _) => range_before(Edge::Start, 0, span.end()),
        (Op::Meets, Side::Left) => range_at(Edge::Start, span.end()),
        (Op::Meets, Side::Right) => range_at(Edge::End, span.start()),
        (Op::During, Side::Left) => range_before(Edge::Start, 0, span.start()),
        (Op::During, Side::Right) => range_before(Edge::Start, span.start() + 1, span.end()),
        (Op::Equals | Op::Starts, _) => range_at(Edge::Start, span.start()),
        (Op::Finishes, _) => range_at(Edge::End, span.end()),
    }
}

fn edge_of(edge: Edge, span: Span) -> u64
    ensures { result ≡ edge_of edge span }
{
    match edge {
        Edge::Start => span.start(),
        Edge::End => span.end(),
    }
}

/// Whether the range's edge of the span lies from `low` to `high`.
pub fn in_range(range: Range, span: Span) -> bool
    ensures { result ≡ in_range range span }
{
    let tick = edge_of(range.edge, span);
    range.low <= tick && tick <= range.high
}
