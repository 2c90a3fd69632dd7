// Laws of spans that were given. These functions do nothing: their contracts are the laws.
ghost use Rattle.pst_reasons.specs.Laws.{GivenSpansRefuseNothing, ReasonsHoldBeforeNarrowing};

use pst_domain::{narrower_bounds_give_inner_spans, spans_are_sane};

/// No constraint is refused at bounds that hold the spans that variables were given and, of all other variables, the
/// bounds at the start.
pub fn given_spans_refuse_nothing()
    ensures { GivenSpansRefuseNothing }
{
    narrower_bounds_give_inner_spans();
    spans_are_sane();
}

/// Where bounds were narrowed by all constraints, reasons why no values within the new bounds meet them are reasons why
/// no values within the former bounds do.
pub fn reasons_hold_before_narrowing()
    ensures { ReasonsHoldBeforeNarrowing }
{}
