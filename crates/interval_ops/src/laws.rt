// What the tables of the operators and of the ranges come to.
ghost use Rattle.std.specs.Prelude.{◌≡◌, ◌↔◌, ℕ, IsTrue, IsSome, IfSome, Some, ◌&&◌};
ghost use Rattle.event_model.specs.Spans.{PlainSpan};
ghost use Rattle.event_model.specs.declared.operators.Op.{Op};
ghost use Rattle.interval_ops.specs.declared.ranges.Side.TheVariants.{Left, Right};
ghost use Rattle.interval_ops.specs.Operators.{IsSpan, pair, hull, partner_range, in_range, decided_by_range, inside};

/// Each partner of a span lies in the range of its side.
pub fn partners_lie_in_range()
    ensures left { (op : Op) (x y : PlainSpan) → IsSpan x → IsSpan y → IsSome (pair op x y)
        → IsTrue (in_range (partner_range op Left x) y) }
    ensures right { (op : Op) (x y : PlainSpan) → IsSpan x → IsSpan y → IsSome (pair op x y)
        → IsTrue (in_range (partner_range op Right y) x) }
{}

/// Under `Seq`, `And` and `Meets` each span in the range is a partner.
pub fn ranges_are_exact()
    ensures left { (op : Op) (x y : PlainSpan) → IsSpan x → IsSpan y → IsTrue (decided_by_range op)
        → IsTrue (in_range (partner_range op Left x) y) → IsSome (pair op x y) }
    ensures right { (op : Op) (x y : PlainSpan) → IsSpan x → IsSpan y → IsTrue (decided_by_range op)
        → IsTrue (in_range (partner_range op Right y) x) → IsSome (pair op x y) }
{}

/// The span of a pair goes from the earlier start to the later end of the two, under each operator, and is itself a span.
pub fn pairs_span_both()
    ensures hull { (op : Op) (x y : PlainSpan) → IsSpan x → IsSpan y → IfSome (pair op x y) (λ z. z ≡ hull x y) }
    ensures valid { (op : Op) (x y : PlainSpan) → IsSpan x → IsSpan y → IfSome (pair op x y) IsSpan }
{}

/// The span of a pair lies between two ticks exactly where both spans do.
pub fn windows_cut_pairs()
    ensures { (first last : ℕ) (op : Op) (x y : PlainSpan) → IsSpan x → IsSpan y
        → IfSome (pair op x y) (λ z. inside first last z ≡ (inside first last x && inside first last y)) }
{}
