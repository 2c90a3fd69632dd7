//! Laws of the order of lists of choices.
ghost use Rattle.pst_list_order.specs.Laws.{BeforeIsStrict, BeforeGoesOn, NothingIsFirst, GoesDown, GoesToNext, GoesUp, GoesOver, LevelsEnd, LiveListsRise};

use pst_built::{legal_scenarios_are_read, places_go_on};

/// The lexicographic order is strict and goes on from list to list.
pub fn before_is_an_order()
    ensures strict { BeforeIsStrict }
    ensures on { BeforeGoesOn }
{}

/// A search begins at the empty list, before which there is none. It goes down to the first choice
/// behind a list, on to the next choice, up past the last option of a place, and over a list that
/// begins no list that reads a legal scenario. None of these steps passes a list that reads one.
pub fn steps_keep_the_order()
    ensures first { NothingIsFirst }
    ensures down { GoesDown }
    ensures next { GoesToNext }
    ensures up { GoesUp }
    ensures over { GoesOver }
{
    places_go_on();
}

/// Where a search of a level has passed all lists, no legal scenario of a sound model is of that
/// level.
pub fn levels_end()
    ensures { LevelsEnd }
{
    legal_scenarios_are_read();
}

/// A live list behind the last of strictly rising ones is one more of them.
pub fn live_lists_rise()
    ensures { LiveListsRise }
{}
