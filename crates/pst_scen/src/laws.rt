//! Laws of the order of actions and of legal traces, each the contract of a function that does
//! nothing.
ghost use Rattle.pst_scen.specs.Laws.{BeforeIsNeverItself, WiderTracesAreLegal, PrefixesAreLegal, WholeTracesArePrefixes};

/// No action stands in an earlier statement than itself.
pub fn before_is_never_itself()
    ensures { BeforeIsNeverItself }
{}

/// A trace that is legal on some lanes is legal on more.
pub fn wider_traces_are_legal()
    ensures { WiderTracesAreLegal }
{}

/// What begins a whole legal trace is legal.
pub fn prefixes_are_legal()
    ensures { PrefixesAreLegal }
{}

/// A whole legal trace begins itself.
pub fn whole_traces_are_prefixes()
    ensures { WholeTracesArePrefixes }
{}
