// The operators at their strict edges, and the ranges of the spans that pair there.
use crate::{Side, in_range, pair, partner_range};
use event_model::{Op, Span};
use std::test::Fail;

#[test]
fn spans_pair_at_strict_edges(rt: HostRuntime) -> Result<(), Fail> {
    let table = [
        (Op::Seq, Span::new(1, 2), Span::new(2, 4), None),
        (Op::Seq, Span::new(1, 2), Span::new(3, 4), Some((1, 4))),
        (Op::And, Span::new(3, 4), Span::new(1, 2), Some((1, 4))),
        (Op::Par, Span::new(1, 2), Span::new(2, 4), None),
        (Op::Par, Span::new(1, 3), Span::new(2, 4), Some((1, 4))),
        (Op::Equals, Span::new(1, 2), Span::new(1, 3), None),
        (Op::Equals, Span::new(1, 2), Span::new(1, 2), Some((1, 2))),
        (Op::Meets, Span::new(1, 2), Span::new(3, 4), None),
        (Op::Meets, Span::new(1, 2), Span::new(2, 4), Some((1, 4))),
        (Op::During, Span::new(1, 3), Span::new(1, 4), None),
        (Op::During, Span::new(2, 3), Span::new(1, 4), Some((1, 4))),
        (Op::Starts, Span::new(1, 4), Span::new(1, 4), None),
        (Op::Starts, Span::new(1, 3), Span::new(1, 4), Some((1, 4))),
        (Op::Finishes, Span::new(1, 4), Span::new(1, 4), None),
        (Op::Finishes, Span::new(2, 4), Span::new(1, 4), Some((1, 4))),
    ];
    for (op, left, right, edges) in table {
        let joined = pair(op, left, right);
        assert_eq!(rt; joined.map(|span| (span.start(), span.end())), edges);
        if joined.is_some() {
            assert!(rt; in_range(partner_range(op, Side::Left, left), right));
            assert!(rt; in_range(partner_range(op, Side::Right, right), left));
        }
    }
    Ok(())
}
