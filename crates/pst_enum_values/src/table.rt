//! The values of all enums.
ghost use Rattle.std.specs.Prelude.{◌≡◌, IfOk, map, slice_get};
ghost use Rattle.std.specs.List.{AllZip};
ghost use Rattle.std.specs.Option.{option_and_then, option_map};
ghost use Rattle.pst_places.specs.Numbers.{number_in};
ghost use Rattle.pst_enum_values.specs.Kept.{IsFoundRow, IsRowOf, places_of_site};

use crate::row::EnumValues;
use pst_base::{NoMemory, Place};
use pst_evaluate::ItemValues;
use pst_places::PlaceList;
use pst_sites::EnumSite;
use std::alloc::Global;
use std::marker::Model;

/// The values of the items of each enum, by the place of the enum's name.
///
/// Contracts see the enums, and what is kept of their items. A look-up takes expected constant time.
#[derive(Drop)]
pub struct EnumTable<'a> {
    enums: &'a [EnumSite<'a>],
    values: &'a ItemValues,
    places: PlaceList,
    rows: Vec<EnumValues>,
}

impl<'a> Model for EnumTable<'a> {
    ghost use Rattle.std.specs.Prelude.{map};
    ghost use Rattle.pst_enum_values.specs.Kept.{EnumsKept, places_of_site};
    ghost use Rattle.pst_enum_values.specs.KeptTable.{IsEnumTable};

    ghost Value = { EnumsKept };

    ghost view = { λ t. record { enums = map places_of_site t.enums.now; items = t.values.now } };

    ghost invariant = { IsEnumTable };
}

// The places of the names of enums.
fn places_of(alloc: Global, enums: &[EnumSite]) -> Result<PlaceList, NoMemory>
    ensures { IfOk result (λ places. places ≡ map (λ e. e.node.now.name.place) enums.now) }
{
    let mut places = Vec::new(alloc);
    for site in enums {
        places.push(site.node.name.place)?;
    }
    PlaceList::new(alloc, places)
}

// The row of each enum.
fn rows_of(
    alloc: Global,
    enums: &[EnumSite],
    values: &ItemValues,
) -> Result<Vec<EnumValues>, NoMemory>
    ensures { IfOk result (λ rows. AllZip (IsRowOf values.now) enums.now rows.items) }
{
    let mut rows = Vec::new(alloc);
    for site in enums {
        let row = EnumValues::new(alloc, values, site)?;
        rows.push(row)?;
    }
    Ok(rows)
}

// The row with the number of a place.
fn row_at<'a>(rows: &'a [EnumValues], places: &PlaceList, place: Place) -> Option<&'a EnumValues>
    ensures { option_map (λ r. r.now) result ≡ option_and_then (slice_get rows.now) (number_in places.now place) }
{
    let number = places.number(place)?;
    rows.get(number)
}

impl<'a> EnumTable<'a> {
    /// The table of enums, by the values of their items.
    pub fn new(
        alloc: Global,
        enums: &'a [EnumSite<'a>],
        values: &'a ItemValues,
    ) -> Result<EnumTable<'a>, NoMemory>
        ensures { IfOk result (λ t. t ≡ record { enums = map places_of_site enums.now; items = values.now }) }
    {
        let places = places_of(alloc, enums)?;
        let rows = rows_of(alloc, enums, values)?;
        Ok(EnumTable {
            enums,
            values,
            places,
            rows,
        })
    }

    /// The values of the enum items of the sources.
    pub fn values(&self) -> &'a ItemValues
        ensures { result.now ≡ self.now.items }
    {
        self.values
    }

    /// The values of the enum whose name stands at a place; none where there is no enum.
    pub fn values_at(&self, place: Place) -> Option<&EnumValues>
        ensures { IsFoundRow self.now place (option_map (λ r. r.now) result) }
    {
        row_at(self.rows.as_slice(), &self.places, place)
    }
}
