//! The law of lists behind the sources.
ghost use Rattle.pst_read_domains.specs.WholeAheadLaws.{WholeListsLieAhead};

/// A list of choices that reads the activity and the sources of a sound model, for a root that isn't
/// abstract, and perhaps claims and values behind them, goes on to a list that is read whole: each
/// claim has an instance, and each field a value.
pub fn whole_lists_lie_ahead()
    ensures { WholeListsLieAhead }
{}
