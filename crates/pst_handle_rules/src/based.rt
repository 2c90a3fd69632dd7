//! Actions from which others are derived.
ghost use Rattle.std.specs.Prelude.{◌≡◌, IfOk, is_some};
ghost use Rattle.pst_places.specs.Numbers.{number_in};
ghost use Rattle.pst_handle_rules.specs.Based.{base_place as the_place, places_of_bases};

use pst_ast::Declaration;
use pst_base::{NoMemory, Place};
use pst_index::Index;
use pst_places::PlaceList;
use std::alloc::Global;

// The place of the name of the base of an action.
fn base_place(index: &Index, declaration: &Declaration) -> Option<Place>
    ensures { result ≡ the_place index.now declaration.now }
{
    match index.base_of(declaration) {
        None => None,
        Some(base) => Some(base.name.place),
    }
}

/// The places of the names of all bases.
pub fn base_places(alloc: Global, index: &Index) -> Result<PlaceList, NoMemory>
    ensures { IfOk result (λ places. places ≡ places_of_bases index.now) }
{
    let mut places = Vec::new(alloc);
    for declaration in index.as_slice() {
        if let Some(place) = base_place(index, declaration) {
            places.push(place)?;
        }
    }
    PlaceList::new(alloc, places)
}

/// Whether the name of a base stands at the place of that of an action.
pub fn is_base(base_places: &PlaceList, action: &Declaration) -> bool
    ensures { result ≡ is_some (number_in base_places.now action.now.name.place) }
{
    base_places.number(action.name.place).is_some()
}
