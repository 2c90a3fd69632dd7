//! The law of answers, the contract of a function that does nothing.
ghost use Rattle.pst_place_answers.specs.Shown.{PlaceAnswersAreOne};

use pst_addr::{asks_are_of_plan, places_are_one};

/// At most one answer with one text is right for a scenario and a space.
pub fn place_answers_are_one()
    ensures { PlaceAnswersAreOne }
{
    asks_are_of_plan();
    places_are_one();
}
