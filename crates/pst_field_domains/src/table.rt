//! The values of all enums as spans.
ghost use Rattle.std.specs.Prelude.{◌≡◌, IfOk, map, slice_get};
ghost use Rattle.std.specs.List.{AllZip};
ghost use Rattle.std.specs.Option.{option_and_then, option_map};
ghost use Rattle.pst_enum_values.specs.Kept.{enum_in, places_of_site};
ghost use Rattle.pst_evaluate.specs.Kept.{known_in};
ghost use Rattle.pst_places.specs.Numbers.{number_in};
ghost use Rattle.pst_field_domains.specs.Kept.{IsRowOf};
ghost use Rattle.pst_field_domains.specs.Known.{IsFound};

use crate::row::SpanRow;
use pst_base::{NoMemory, Place};
use pst_evaluate::ItemValues;
use pst_places::PlaceList;
use pst_sites::EnumSite;
use std::alloc::Global;
use std::marker::Model;

/// The values of the items of each enum as spans, by the place of the enum's name.
///
/// Contracts see the enums, and what is kept of their items. A look-up takes expected constant time.
#[derive(Drop)]
pub struct EnumSpans<'a> {
    enums: &'a [EnumSite<'a>],
    values: &'a ItemValues,
    places: PlaceList,
    rows: Vec<SpanRow>,
}

impl<'a> Model for EnumSpans<'a> {
    ghost use Rattle.std.specs.Prelude.{map};
    ghost use Rattle.pst_enum_values.specs.Kept.{EnumsKept, places_of_site};
    ghost use Rattle.pst_field_domains.specs.KeptTable.{IsEnumTable};

    ghost Value = { EnumsKept };

    ghost view = { λ t. record { enums = map places_of_site t.enums.now; items = t.values.now } };

    ghost invariant = { IsEnumTable };
}

// The places of the names of enums.
fn places_of(alloc: Global, enums: &[EnumSite]) -> Result<PlaceList, NoMemory>
    ensures { IfOk result (λ places. places ≡ map (λ e. e.node.now.name.place) enums.now) }
{
    let mut places = Vec::new(alloc);
    for site in enums {
        places.push(site.node.name.place)?;
    }
    PlaceList::new(alloc, places)
}

// The spans of each enum.
fn rows_of(alloc: Global, enums: &[EnumSite], values: &ItemValues) -> Result<Vec<SpanRow>, NoMemory>
    ensures { IfOk result (λ rows. AllZip (IsRowOf values.now) enums.now rows.items) }
{
    let mut rows = Vec::new(alloc);
    for site in enums {
        let row = SpanRow::of_enum(alloc, values, site)?;
        rows.push(row)?;
    }
    Ok(rows)
}

// The row with the number of a place.
fn row_at<'a>(rows: &'a [SpanRow], places: &PlaceList, place: Place) -> Option<&'a SpanRow>
    ensures { option_map (λ r. r.now) result ≡ option_and_then (slice_get rows.now) (number_in places.now place) }
{
    let number = places.number(place)?;
    rows.get(number)
}

impl<'a> EnumSpans<'a> {
    /// The table of enums, by the values of their items.
    pub fn new(
        alloc: Global,
        enums: &'a [EnumSite<'a>],
        values: &'a ItemValues,
    ) -> Result<EnumSpans<'a>, NoMemory>
        ensures { IfOk result (λ t. t ≡ record { enums = map places_of_site enums.now; items = values.now }) }
    {
        let places = places_of(alloc, enums)?;
        let rows = rows_of(alloc, enums, values)?;
        Ok(EnumSpans {
            enums,
            values,
            places,
            rows,
        })
    }

    /// The spans of the enum whose name stands at a place; none where there is no enum.
    pub fn spans_at(&self, place: Place) -> Option<&SpanRow>
        ensures { IsFound (known_in self.now.items) (enum_in self.now.enums place) (option_map (λ r. r.now) result) }
    {
        row_at(self.rows.as_slice(), &self.places, place)
    }
}
