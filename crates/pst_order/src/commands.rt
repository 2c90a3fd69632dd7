//! Laws of the core.
ghost use Rattle.pst_order.specs.Laws.{CoreIsByRule, CoreIsOne, CoreGrows, CoreMakesAgain};

/// The core makes one trace of a list of commands, a further command goes on from there, and of the
/// commands of a trace that it made it makes the trace again.
pub fn core_is_one()
    ensures one { CoreIsOne }
    ensures grows { CoreGrows }
    ensures again { CoreMakesAgain }
{}

/// What the core makes is made by its rule.
pub fn core_is_by_rule()
    ensures { CoreIsByRule }
{}
