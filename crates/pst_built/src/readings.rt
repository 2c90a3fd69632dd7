//! Laws of whole readings.
ghost use Rattle.pst_built.specs.Laws.{WholeReadingsAreBuilt, WholeReadingsAreWithin, WholeReadingsAreLinked, WholeReadingsHaveSources, WholeReadingsAreScenarios};

/// A scenario that a list of choices reads whole is built, of the level that was asked for, and
/// within the limits on its size.
pub fn whole_readings_are_built()
    ensures built { WholeReadingsAreBuilt }
    ensures within { WholeReadingsAreWithin }
{}

/// Its links are of their references' kinds and name references that there are, and the ends of a
/// stream name each other.
pub fn whole_readings_are_linked()
    ensures { WholeReadingsAreLinked }
{}

/// Its needs have their sources: each link leads to one in the same pool, no two outputs to a pool
/// have one previous writer, binds are kept, and inferred actions are of types that may be inferred.
pub fn whole_readings_have_sources()
    ensures { WholeReadingsHaveSources }
{}

/// Of a sound model and a root that isn't abstract, it is a scenario: it also has one first object
/// for each state pool that its actions use.
pub fn whole_readings_are_scenarios()
    ensures { WholeReadingsAreScenarios }
{}
