//! Spans of expressions: from bounds of the variables a span that holds each value of the expression.
//!
//! A constraint whose span has no number but 0 can't hold within the bounds, and is refused.
#![tactic(auto)]

mod arithmetic;
mod bits;
mod bounds;
mod comparison;
mod cut;
mod element;
mod exact;
mod interval;
mod laws;
mod operators;
mod shifts;
mod truth;

pub use bounds::Bounds;
pub use interval::{refused, span_of};
pub use laws::{
    comparisons_decide_all_pairs, narrower_bounds_give_inner_spans, spans_are_sane,
    spans_hold_values,
};
