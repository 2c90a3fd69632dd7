//! Values by places.
ghost use Rattle.std.specs.Prelude.{◌≡◌, ℤ, IfOk, map, Option};
ghost use Rattle.std.specs.List.{find};
ghost use Rattle.pst_base.specs.declared.position.Place.{Place as APlace};
ghost use Rattle.pst_ast.specs.Sorts.{same_place};

use pst_base::{NoMemory, Place};
use pst_places::PlaceList;
use pst_type_rules::ConstantValue;
use std::alloc::Global;

/// The places of constants.
pub fn places_of_constants(
    alloc: Global,
    constants: &[ConstantValue],
) -> Result<PlaceList, NoMemory>
    ensures { IfOk result (λ places. places ≡ map (λ c. c.at) constants.now) }
{
    let mut places = Vec::new(alloc);
    for constant in constants {
        places.push(constant.at)?;
    }
    PlaceList::new(alloc, places)
}

/// The constant at a place.
pub fn constant_in(
    constants: &[ConstantValue],
    places: &PlaceList,
    place: Place,
) -> Option<ConstantValue>
    requires { places.now ≡ map (λ c. c.at) constants.now }
    ensures { result ≡ find (λ c. same_place c.at place) constants.now }
{
    match places.number(place) {
        None => None,
        Some(number) => constants.get(number).copied(),
    }
}

/// The places of items.
pub fn places_of_items(alloc: Global, items: &[(Place, Option<i64>)]) -> Result<PlaceList, NoMemory>
    ensures { IfOk result (λ places. places ≡ map (λ (x : APlace × Option ℤ). x.0) items.now) }
{
    let mut places = Vec::new(alloc);
    for item in items {
        places.push(item.0)?;
    }
    PlaceList::new(alloc, places)
}

/// The item at a place, with its value.
pub fn item_in(
    items: &[(Place, Option<i64>)],
    places: &PlaceList,
    place: Place,
) -> Option<(Place, Option<i64>)>
    requires { places.now ≡ map (λ (x : APlace × Option ℤ). x.0) items.now }
    ensures { result ≡ find (λ (x : APlace × Option ℤ). same_place x.0 place) items.now }
{
    match places.number(place) {
        None => None,
        Some(number) => items.get(number).copied(),
    }
}
