//! The laws of places.
//!
//! Each law is the contract of a function that does nothing. A caller that needs a law in a proof
//! calls its function.
ghost use Rattle.pst_addr.specs.Laws.{PlacedAreApart, PlacesAreOne, PlacedOrNot, NoRoomIsOne, RunningActionsMeet, AsksAreOfPlan};

use pst_order::running_meet;

/// The bytes of asks that meet have none in common.
pub fn placed_are_apart()
    ensures { PlacedAreApart }
{}

/// Asks have one list of places, or one of them is the first without a place.
pub fn places_are_one()
    ensures one { PlacesAreOne }
    ensures either { PlacedOrNot }
    ensures no_room { NoRoomIsOne }
{}

/// Two actions that run at one moment of a whole legal trace meet, so that the bytes that they ask
/// for have none in common.
pub fn running_actions_meet()
    ensures { RunningActionsMeet }
{
    running_meet();
}

/// What a scenario's actions ask for can be placed by its plan: the asks are of its actions, at most
/// one of each, with at least one byte and an alignment of at least 1.
pub fn asks_are_of_plan()
    ensures { AsksAreOfPlan }
{}
