//! Laws of the definitions: each function here does nothing but call other laws, and its contract
//! is a law.
ghost use Rattle.pst_front_laws.specs.ContentLaws.{ActivitiesAreFound, CompoundsAreFound};
ghost use Rattle.pst_front_laws.specs.ContentTried.{ContentsAreTried};

/// The activity that a declared action has by the rules of types is the one that is found for it,
/// and none is found where it has none.
pub fn activities_are_found()
    ensures { ActivitiesAreFound }
{}

/// A declared action is compound exactly where it has an activity by the rules of types.
pub fn compounds_are_found()
    ensures { CompoundsAreFound }
{}

/// The activities of derived actions in a small source.
pub fn contents_are_tried()
    ensures { ContentsAreTried }
{}
