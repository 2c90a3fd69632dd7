//! Laws of longer lists of choices.
ghost use Rattle.pst_built.specs.LongerLaws.{PlacesGoOn, DeadStaysDead, WholeListsEnd, ChoicesNameOptions, PartsAreOne};

/// Where a list has no choice left at a place, the place has an option, and longer lists read just
/// that place, from the scenario so far, and what comes after it. A choice that names no option is
/// dead.
pub fn places_go_on()
    ensures places { PlacesGoOn }
    ensures options { ChoicesNameOptions }
{}

/// A longer list of a dead one is dead.
pub fn dead_stays_dead()
    ensures { DeadStaysDead }
{}

/// Nothing stands behind a list that is read whole.
pub fn whole_lists_end()
    ensures { WholeListsEnd }
{}

/// The activity, the sources and the values, read one after another, each from what the one before
/// came to and at the place that counts the choices so far, are what the whole list reads.
pub fn parts_are_one()
    ensures { PartsAreOne }
{}
