//! The laws of refused values.
ghost use Rattle.pst_value_search.specs.Laws.{RefusalsHoldNothing, ExcludedValuesHoldNothing};

/// Where values that options name are refused, no options that agree with them at the places named keep all
/// constraints without that a plan refuses them.
pub fn refusals_hold_nothing()
    ensures { RefusalsHoldNothing }
{}

/// So it is with one choice more, where its value is excluded by those that were given at the places named.
pub fn excluded_values_hold_nothing()
    ensures { ExcludedValuesHoldNothing }
{}
