//! The values of the enum items of sources.
ghost use Rattle.std.specs.Prelude.{◌≡◌, ℕ, None, slice_index_or, IfOk, OnOk, map};
ghost use Rattle.pst_ast.specs.DeclarationView.{view_unit};
ghost use Rattle.pst_ast.specs.Declarations.{declarations};
ghost use Rattle.pst_evaluate.specs.Known.{known_by};
ghost use Rattle.pst_evaluate.specs.Kept.{known_in};
ghost use Rattle.pst_evaluate.specs.Settled.{AreDerived, AreItemValues, AreListed};

use crate::item::ListedItem;
use crate::listing::list_items;
use crate::order::order_of_items;
use crate::settled::{are_settled, settle_each};
use crate::sources::ItemSources;
use pst_ast::Unit;
use pst_base::{Names, NoMemory, Place};
use pst_index::Index;
use pst_places::PlaceList;
use std::alloc::Global;
use std::marker::Model;

/// The values of the enum items of sources.
///
/// Contracts see the places of the items' names, and the value of each that has one. A look-up takes
/// expected constant time.
#[derive(Drop)]
pub struct ItemValues {
    places: PlaceList,
    values: Vec<Option<i64>>,
}

impl Model for ItemValues {
    ghost use Rattle.pst_evaluate.specs.Kept.{Kept};

    ghost Value = { Kept };

    ghost view = { λ v. record { places = v.places; values = v.values.items } };
}

impl ItemValues {
    /// The places of the items' names.
    pub fn places(&self) -> &PlaceList
        ensures { result.now ≡ self.now.places }
    {
        &self.places
    }

    /// The value of each item, by its number.
    pub fn values(&self) -> &[Option<i64>]
        ensures { result.now ≡ self.now.values }
    {
        self.values.as_slice()
    }

    /// The value of the item whose name stands at a place, where it has one.
    pub fn value_at(&self, place: Place) -> Option<i64>
        ensures { result ≡ known_in self.now place }
    {
        match self.places.number(place) {
            None => None,
            Some(number) => self.values.get(number).copied().flatten(),
        }
    }
}

// The places of the items' names.
fn places_of(alloc: Global, items: &[ListedItem]) -> Result<PlaceList, NoMemory>
    ensures { IfOk result (λ places. places ≡ map (λ i. i.name.place) items.now) }
{
    let mut places = Vec::new(alloc);
    for item in items {
        places.push(item.name.place)?;
    }
    PlaceList::new(alloc, places)
}

// Gives all items their values. One pass settles them, as far as is known; that they are settled is
// looked at, and each pass that doesn't settle them gives one more its value.
fn settle_all(sources: &ItemSources, values: &mut [Option<i64>]) -> Result<(), NoMemory>
    requires listed { AreListed sources.now }
    requires derived { AreDerived sources.now values.old }
    ensures { OnOk result (AreItemValues (map view_unit sources.now.units.now) sources.now.names.now (known_by sources.now.places.now values.new)) }
{
    let order = order_of_items(sources)?;
    for _pass in 0..=sources.items.len() {
        settle_each(sources, &order, values)?;
        if are_settled(sources, values)? {
            return Ok(());
        }
    }
    Err(NoMemory)
}

// The values of items, none of which has one yet.
fn without_values(alloc: Global, count: usize) -> Result<Vec<Option<i64>>, NoMemory>
    ensures { IfOk result (λ values. (n : ℕ) → slice_index_or values.items n None ≡ None) }
{
    let mut values = Vec::new(alloc);
    for _item in 0..count {
        values.push(None)?;
    }
    Ok(values)
}

/// The values of the enum items of sources, by their index.
///
/// Items may need one another in chains of any length; an item that needs itself has no value. Each
/// is evaluated once behind those that it needs, and time grows with the length of the sources.
pub fn item_values(
    alloc: Global,
    units: &[Unit],
    index: &Index,
    names: &Names,
) -> Result<ItemValues, NoMemory>
    requires { index.now ≡ declarations (map view_unit units.now) }
    ensures { IfOk result (λ v. AreItemValues (map view_unit units.now) names.now (known_in v)) }
{
    let items = list_items(alloc, units)?;
    let places = places_of(alloc, items.as_slice())?;
    let sources = ItemSources {
        alloc,
        units,
        index,
        names,
        places: &places,
        items: items.as_slice(),
    };
    let mut values = without_values(alloc, items.len())?;
    settle_all(&sources, values.as_mut_slice())?;
    Ok(ItemValues { places, values })
}
