//! Laws of the definitions: each function here does nothing, and its contract is a law.
ghost use Rattle.pst_range_rules.specs.Laws.{ArmsAreJudged, PlainTypesAreJudged, TypesAreJudged};

use pst_base::places_are_ordered;
use pst_evaluate::constants_are_found;

/// What is found at a plain type is the first of what it breaks.
pub fn plain_types_are_judged()
    ensures { PlainTypesAreJudged }
{
    constants_are_found();
}

/// What is found at the arms of a match is the first of what they break.
pub fn arms_are_judged()
    ensures { ArmsAreJudged }
{
    constants_are_found();
    places_are_ordered();
}

/// What is found at the type of a field is the first of what it breaks.
pub fn types_are_judged()
    ensures { TypesAreJudged }
{
    constants_are_found();
    places_are_ordered();
}
