//! The numbers of the fields of types, kept by type and field.
ghost use Rattle.std.specs.Prelude.{◌≡◌, ◌+◌, map, IfOk, IfSome, IsTrue, List, OnOk};
ghost use Rattle.pst_ast.specs.declared.scope_declaration.Declaration.{Declaration as Declared};
ghost use Rattle.pst_ast.specs.Sorts;
ghost use Rattle.pst_tree.specs.Bases;
ghost use Rattle.pst_terms.specs.Fields as numbering;
ghost use Rattle.pst_terms.specs.Sources.{Sources};
ghost use Rattle.pst_sources.specs.Numbered;
ghost use Rattle.pst_sources.specs.Numbered.{AreFieldRows, AreNumbersOf};
ghost use Rattle.pst_sources.specs.Shown.{sources_of};

use crate::known::Known;
use pst_ast::{Declaration, Sort};
use pst_base::{NoMemory, Place};
use pst_members::is_same_action;
use pst_places::PlaceList;
use pst_type_members::MemberSort;
use std::alloc::Global;

// A field by its place, with its number in a type.
#[derive(Clone, Copy)]
pub(crate) struct FieldNumber {
    // The place of its name.
    pub(crate) place: Place,
    // Its number, for an array that of its first element.
    pub(crate) number: u32,
}

// The fields of a type with their numbers.
#[derive(Drop)]
pub(crate) struct FieldRow {
    // The type.
    pub(crate) owner: Declaration,
    // Its fields, its base's first.
    pub(crate) fields: Vec<FieldNumber>,
}

// The numbers of the fields of the types that have fields.
#[derive(Drop)]
pub(crate) struct FieldNumbers {
    // The types.
    pub(crate) rows: Vec<FieldRow>,
    // The places of their names.
    pub(crate) places: PlaceList,
}

// Whether it is an object type.
fn is_object(sort: Sort) -> bool
    ensures { result ≡ Sorts.is_object sort }
{
    matches!(sort, Sort::Object { .. })
}

// Whether two places are one.
fn is_same_place(one: Place, other: Place) -> bool
    ensures { IsTrue result → one ≡ other }
{
    one == other
}

// Whether two declarations are one type, so that their fields are the same.
fn is_same_type(one: &Declaration, other: &Declaration) -> bool
    ensures { IsTrue result → (ds : List Declared) → Bases.fields_of ds one.now ≡ Bases.fields_of ds other.now }
{
    if is_object(one.sort) && is_object(other.sort) {
        return is_same_place(one.name.place, other.name.place);
    }
    is_same_action(one, other)
}

// The number behind fields that count as so many.
fn number_behind(number: u32, count: u64) -> Result<u32, NoMemory>
    ensures { IfOk result (λ n. n ≡ number + count) }
{
    let Some(sum) = u64::from(number).checked_add(count) else {
        return Err(NoMemory);
    };
    match u32::try_from(sum) {
        Ok(sum) => Ok(sum),
        Err(_) => Err(NoMemory),
    }
}

// The fields of a type with their numbers.
fn numbered(known: &Known<'_>, fields: &[Declaration]) -> Result<Vec<FieldNumber>, NoMemory>
    ensures { IfOk result (λ found. found.items ≡ Numbered.numbered (sources_of known.now) 0 fields.now) }
{
    let mut found = Vec::new(known.alloc());
    let mut number: u32 = 0;
    for field in fields {
        found.push(FieldNumber {
            place: field.name.place,
            number,
        })?;
        number = number_behind(number, known.count_of(field))?;
    }
    Ok(found)
}

// The row of a type.
fn row_of(known: &Known<'_>, owner: &Declaration) -> Result<FieldRow, NoMemory>
    ensures { IfOk result (λ row. AreNumbersOf (sources_of known.now) row.owner row.fields.items) }
{
    let fields = known
        .members()
        .those(known.alloc(), MemberSort::Field, owner)?;
    let numbers = numbered(known, fields.as_slice())?;
    Ok(FieldRow {
        owner: *owner,
        fields: numbers,
    })
}

// Adds the row of a type that has fields.
fn add_row(known: &Known<'_>, rows: &mut Vec<FieldRow>, owner: &Declaration) -> Result<(), NoMemory>
    ensures { OnOk result (AreFieldRows (sources_of known.now) rows.old.items → AreFieldRows (sources_of known.now) rows.new.items) }
{
    let row = row_of(known, owner)?;
    if row.fields.is_empty() {
        return Ok(());
    }
    rows.push(row)?;
    Ok(())
}

// The rows of the types that have fields.
fn rows_of(known: &Known<'_>) -> Result<Vec<FieldRow>, NoMemory>
    ensures { IfOk result (λ rows. AreFieldRows (sources_of known.now) rows.items) }
{
    let mut rows = Vec::new(known.alloc());
    for declaration in known.index().as_slice() {
        if matches!(declaration.sort, Sort::Action { .. } | Sort::Object { .. }) {
            add_row(known, &mut rows, declaration)?;
        }
    }
    Ok(rows)
}

// The places of the names of the types of rows.
fn places_of(alloc: Global, rows: &[FieldRow]) -> Result<PlaceList, NoMemory>
    ensures { IfOk result (λ places. places ≡ map (λ r. r.owner.name.place) rows.now) }
{
    let mut places = Vec::new(alloc);
    for row in rows {
        places.push(row.owner.name.place)?;
    }
    PlaceList::new(alloc, places)
}

// The number that is kept at a place.
fn number_at(fields: &[FieldNumber], place: Place) -> Option<u32>
    ensures { result ≡ Numbered.number_at fields.now place }
{
    for field in fields {
        if field.place == place {
            return Some(field.number);
        }
    }
    None
}

impl FieldNumbers {
    // The numbers of the fields of the types of sources.
    pub(crate) fn new(known: &Known<'_>) -> Result<FieldNumbers, NoMemory>
        ensures { IfOk result (λ numbers. AreFieldRows (sources_of known.now) numbers.rows.items) }
    {
        let rows = rows_of(known)?;
        let places = places_of(known.alloc(), rows.as_slice())?;
        Ok(FieldNumbers { rows, places })
    }

    // The number of a field of a type, where it is kept.
    pub(crate) fn number(&self, owner: &Declaration, field: &Declaration) -> Option<u32>
        ensures { (s : Sources) → AreFieldRows s self.now.rows.items → IfSome result (λ n. n ≡ numbering.field_number s owner.now field.now) }
    {
        let number = self.places.number(owner.name.place)?;
        let row = self.rows.as_slice().get(number)?;
        if is_same_type(&row.owner, owner) {
            return number_at(row.fields.as_slice(), field.name.place);
        }
        None
    }
}
