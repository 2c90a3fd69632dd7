//! The law of few places.
ghost use Rattle.pst_few_places.specs.Laws.{FewPlacesRefuse};

use pst_read_legal::legal_is_unrefused;

/// Behind choices that read the activity and the sources: where no options of the blanks agree with
/// the present ones at some places and keep all constraints without that a plan refuses them, no list
/// that keeps the choices of those places reads a legal scenario.
pub fn few_places_refuse()
    ensures { FewPlacesRefuse }
{
    legal_is_unrefused();
}
