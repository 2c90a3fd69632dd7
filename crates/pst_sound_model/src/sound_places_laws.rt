//! Laws of the definitions: each function here does nothing, and its contract is a law.
ghost use Rattle.pst_sound_model.specs.SoundPlacesLaws.{NamesHaveOwnPlaces, NamesStandApart, TokensOfUnitsRise};

use pst_token::laws::{tokens_are_in_order, tokens_belong};

/// Where the tokens of all sources together stand at rising places, names are declared at places of
/// their own.
pub fn names_have_own_places()
    ensures { NamesHaveOwnPlaces }
{}

/// Where the tokens of all sources together stand at rising places, no two declarations stand at
/// one place.
pub fn names_stand_apart()
    ensures { NamesStandApart }
{}

/// The tokens of the units that several texts spell stand at rising places.
pub fn tokens_of_units_rise()
    ensures { TokensOfUnitsRise }
{
    tokens_are_in_order();
    tokens_belong();
}
