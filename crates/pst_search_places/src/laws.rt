//! Laws of conflicts by places.
ghost use Rattle.pst_search_places.specs.Laws.{PlaceFactsHold, BarrenListsConflict, PlacesRestOnEarlierOnes, FewPlacesConflict, FewPlacesExclude, PlacesRestOnTheSources};

use pst_built::places_go_on;
use pst_few_places::few_places_refuse;

/// What each choice of a list stands for holds of that list.
pub fn place_facts_hold()
    ensures { PlaceFactsHold }
{}

/// Where no list that begins with these choices reads a legal scenario, all their places are a
/// conflict.
pub fn barren_lists_conflict()
    ensures { BarrenListsConflict }
{}

/// A place rests on all places before it.
pub fn places_rest_on_earlier_ones()
    ensures { PlacesRestOnEarlierOnes }
{
    places_go_on();
}

/// Behind the sources, where no options that agree at some places keep all constraints without that a plan
/// refuses them, these places and the last one up to the sources are a conflict.
pub fn few_places_conflict()
    ensures { FewPlacesConflict }
{
    few_places_refuse();
}

/// Where that is so with one more choice, at its place and at some before it, its option is excluded by the
/// choices at these and at the last place up to the sources.
pub fn few_places_exclude()
    ensures { FewPlacesExclude }
{
    few_places_refuse();
}

/// A place behind the sources rests on the last one up to them alone.
pub fn places_rest_on_the_sources()
    ensures { PlacesRestOnTheSources }
{}
