//! Laws of the definitions: each function here does nothing, and its contract is a law.
ghost use Rattle.pst_sound_model.specs.SoundActivitiesLaws.{ArmsAreApart, HandlesAreSound, JoinsAreSound, WeightsAreSound};

/// No two ranges of a `match` of sources that keep the rules of types meet in their model.
pub fn arms_are_apart()
    ensures { ArmsAreApart }
{}

/// A block with a join form has no more branches than it may have, and waits for branches that it
/// has.
pub fn joins_are_sound()
    ensures { JoinsAreSound }
{}

/// The weight of each branch of a `select` is within its limits.
pub fn weights_are_sound()
    ensures { WeightsAreSound }
{}

/// In the model of sources that keep the rules, the handles of each activity are of action types.
pub fn handles_are_sound()
    ensures { HandlesAreSound }
{}
