//! Trials of the laws of reading: small models of which all that is read is written out, and what
//! fails where a premise of a law is taken away. Each fact is part of the contract of a function that
//! does nothing.
#![tactic(auto)]

ghost use Rattle.pst_law_trials.specs.Read.{AllAreRead, LegalOnesAreRead};
ghost use Rattle.pst_law_trials.specs.Premises.{LongerListsAreTried, BlanksAreTried, ReadingsAreTried, RefusalsAreTried, OrdersAreTried};
ghost use Rattle.pst_law_trials.specs.Places.{PlacesAreTried};
ghost use Rattle.pst_law_trials.specs.Steps.{StepsAreTried};
ghost use Rattle.pst_law_trials.specs.Ahead.{OrdersAheadAreTried, PlansAreTried, DomainsAreTried};

use pst_built::{parallel_disputes_stay, places_go_on, scenarios_are_well_formed};
use pst_model::trials_of_sound_models;
use pst_read_domains::read_values_are_in_domains;
use pst_read_legal::whole_readings_are_numbered;
use pst_trials::{inference_is_tried, locks_are_tried, states_are_tried, supplies_are_tried};

/// All that is read of four small models: buffers with one or two inferred producers, streams, a
/// choice among branches, and a join form with a bind.
pub fn all_are_read()
    ensures { AllAreRead }
{}

/// The legal ones among what is read, of a model with claims and of one with states.
pub fn legal_ones_are_read()
    ensures { LegalOnesAreRead }
{}

/// Places, dead lists and whole ones, and longer lists of them.
pub fn longer_lists_are_tried()
    ensures { LongerListsAreTried }
{}

/// Open blanks and the places to come; and open slots before the sources are read, or of a model that
/// isn't sound.
pub fn blanks_are_tried()
    ensures { BlanksAreTried }
{}

/// What is read of an abstract root, which doesn't fit; a scenario that isn't supplied, which isn't
/// read; and a list that lives but begins no whole one.
pub fn readings_are_tried()
    ensures { ReadingsAreTried }
{
    trials_of_sound_models();
    whole_readings_are_numbered();
    supplies_are_tried();
}

/// Constraints that are refused or not, and lists that nothing refuses.
pub fn refusals_are_tried()
    ensures { RefusalsAreTried }
{
    inference_is_tried();
}

/// Steps of a search that would pass a legal scenario, and lists that aren't live or don't rise.
pub fn orders_are_tried()
    ensures { OrdersAreTried }
{
    inference_is_tried();
}

/// Two claims of one instance in different branches of a parallel block: nothing legal is ahead, and no
/// options that agree with them at their two places have a plan.
pub fn places_are_tried()
    ensures { PlacesAreTried }
{
    parallel_disputes_stay();
}

/// More steps of a search that would pass a legal scenario: behind a list that isn't the least, on from a
/// choice that isn't passed, up from an option that isn't the last, and a level for another.
pub fn steps_are_tried()
    ensures { StepsAreTried }
{
    places_go_on();
    inference_is_tried();
    states_are_tried();
}

/// What is known ahead of what isn't legal, or isn't read by a longer list; and a conflict that refuses
/// nothing.
pub fn orders_ahead_are_tried()
    ensures { OrdersAheadAreTried }
{
    locks_are_tried();
}

/// Two linked scenarios of which one alone goes on from the other: one has a conflict.
pub fn plans_are_tried()
    ensures { PlansAreTried }
{
    scenarios_are_well_formed();
}

/// The values of a domain, one beyond it, and a domain of a model that isn't sound.
pub fn domains_are_tried()
    ensures { DomainsAreTried }
{
    trials_of_sound_models();
    read_values_are_in_domains();
}
