//! What names mean, and the values of enum items.
use crate::reading::{Sources, read_units};
use pst_ast::{Scopes, TypeEntry, TypeSort};
use pst_base::{NoMemory, Place};
use pst_cases::{Mark, write_mark};
use pst_collect::declarations;
use pst_evaluate::item_values;
use pst_index::Index;
use std::alloc::{AllocError, Global};

// The letter of a sort.
fn letter(sort: TypeSort) -> char {
    match sort {
        TypeSort::Component => 'c',
        TypeSort::Action => 'a',
        TypeSort::Object => 'o',
        TypeSort::Enumeration => 'e',
        TypeSort::Function => 'f',
    }
}

// The number of the component in which a type stands, as a digit, or `-`.
fn component_of(entry: &TypeEntry, types: &[TypeEntry]) -> char {
    let mut component = '-';
    let mut number = 0;
    for other in types {
        if other.sort == TypeSort::Component && entry.component == Some(other.name) {
            component = char::from_digit(number, 10).unwrap_or('?');
        }
        number = u32::wrapping_add(number, 1);
    }
    component
}

/// The types and functions, with their places.
pub fn declared(alloc: Global, scopes: &Scopes) -> Result<String, AllocError> {
    let types = scopes.types.as_slice();
    let mut answer = String::from_str(alloc, "declared")?;
    for entry in types {
        let mut label = String::new(alloc);
        label.push(letter(entry.sort))?;
        label.push(component_of(entry, types))?;
        write_mark(&mut answer, label.as_str(), entry.place)?;
    }
    Ok(answer)
}

/// The places of the names that are used.
pub fn meanings(alloc: Global, scopes: &Scopes) -> Result<String, AllocError> {
    let mut answer = String::from_str(alloc, "meanings")?;
    for meaning in scopes.meanings.as_slice() {
        let label = format!(in alloc; "{}.{}", meaning.target, meaning.member)?;
        write_mark(&mut answer, label.as_str(), meaning.at)?;
    }
    Ok(answer)
}

// The value of the item whose name stands at a place.
fn value_at(alloc: Global, sources: &Sources, place: Place) -> Result<Option<i64>, NoMemory> {
    let units = sources.units.as_slice();
    let index = Index::new(alloc, declarations(alloc, units)?)?;
    let values = item_values(alloc, units, &index, &sources.names)?;
    Ok(values.value_at(place))
}

// The value of an item as a text.
fn item_value(alloc: Global, sources: &Sources, place: Place) -> Result<String, AllocError> {
    match value_at(alloc, sources, place) {
        Ok(Some(value)) => format!(in alloc; "{value}"),
        Ok(None) => String::from_str(alloc, "none"),
        Err(NoMemory) => String::from_str(alloc, "no memory"),
    }
}

/// Answers `item`: the value of the enum item whose name is marked, or `none`.
pub fn item(alloc: Global, files: &[Vec<u8>], marks: &[Mark]) -> Result<String, AllocError> {
    let (Some((mark, _)), Some(sources)) = (marks.split_first(), read_units(alloc, files)) else {
        return String::from_str(alloc, "unread");
    };
    let mut answer = item_value(alloc, &sources, mark.place)?;
    write_mark(&mut answer, "", mark.place)?;
    Ok(answer)
}
