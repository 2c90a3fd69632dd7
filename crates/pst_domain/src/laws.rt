// Laws of spans. These functions do nothing: their contracts are the laws.
ghost use Rattle.pst_domain.specs.Laws.{SpansHoldValues, NarrowerBoundsGiveInnerSpans, SpansAreSane, DecideAllPairs};

/// The span of an expression holds each value that the expression has under values within the bounds, and an
/// expression without a span has no value.
pub fn spans_hold_values()
    ensures { SpansHoldValues }
{
    pst_expr::values_are_in_range();
}

/// Narrower bounds give a span inside the span of the wider bounds.
pub fn narrower_bounds_give_inner_spans()
    ensures { NarrowerBoundsGiveInnerSpans }
{}

/// A span lies between the least and the greatest value, and its low is at most its high.
pub fn spans_are_sane()
    ensures { SpansAreSane }
{}

/// The span of a comparison is 1 to 1 exactly where all pairs of the operands' spans compare, and 0 to 0 exactly where
/// none does.
pub fn comparisons_decide_all_pairs()
    ensures { DecideAllPairs }
{}
