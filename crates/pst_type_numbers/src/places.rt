//! The places of the types of one sort.
ghost use Rattle.std.specs.Prelude.{◌≡◌, IfOk, map};
ghost use Rattle.pst_type_rules.specs.Members.{those_that};
ghost use Rattle.pst_type_numbers.specs.Placed.{ArePlaces, AreTables, is_of, number_or};

use pst_ast::{Declaration, Sort};
use pst_base::{NoMemory, Place};
use pst_places::PlaceList;
use std::alloc::Global;

/// A sort of types that are numbered by themselves.
#[derive(Clone, Copy, PartialEq, Eq)]
pub enum TypeSort {
    /// Action types.
    Action,
    /// Object types.
    Object,
    /// Functions.
    Function,
}

// Whether a declaration is of that sort.
fn is_of_sort(by: TypeSort, sort: Sort) -> bool
    ensures { result ≡ is_of by sort }
{
    match by {
        TypeSort::Action => matches!(sort, Sort::Action { .. }),
        TypeSort::Object => matches!(sort, Sort::Object { .. }),
        TypeSort::Function => matches!(sort, Sort::Function),
    }
}

/// The places of the types of one sort.
#[derive(Drop)]
pub struct TypePlaces {
    /// The places of their names, in order of declaration.
    pub places: PlaceList,
    /// How many there are.
    pub count: u32,
}

/// The places of the types of each sort.
#[derive(Drop)]
pub struct TypeTables {
    /// Those of action types.
    pub actions: TypePlaces,
    /// Those of object types.
    pub objects: TypePlaces,
    /// Those of functions.
    pub functions: TypePlaces,
}

// The places of the names of the types of a sort, in order of declaration.
fn list_places(
    alloc: Global,
    by: TypeSort,
    declarations: &[Declaration],
) -> Result<Vec<Place>, NoMemory>
    ensures { IfOk result (λ places. places.items ≡ map (λ d. d.name.place) (those_that (is_of by) declarations.now)) }
{
    let mut places = Vec::new(alloc);
    for declaration in declarations {
        if is_of_sort(by, declaration.sort) {
            places.push(declaration.name.place)?;
        }
    }
    Ok(places)
}

// The places of the types of a sort.
fn places_of(
    alloc: Global,
    by: TypeSort,
    declarations: &[Declaration],
) -> Result<TypePlaces, NoMemory>
    ensures { IfOk result (ArePlaces by declarations.now) }
{
    let places = list_places(alloc, by, declarations)?;
    let Ok(count) = u32::try_from(places.len()) else {
        return Err(NoMemory);
    };
    let places = PlaceList::new(alloc, places)?;
    Ok(TypePlaces { places, count })
}

/// The places of the types of each sort.
pub fn tables_of(alloc: Global, declarations: &[Declaration]) -> Result<TypeTables, NoMemory>
    ensures { IfOk result (AreTables declarations.now) }
{
    let actions = places_of(alloc, TypeSort::Action, declarations)?;
    let objects = places_of(alloc, TypeSort::Object, declarations)?;
    let functions = places_of(alloc, TypeSort::Function, declarations)?;
    Ok(TypeTables {
        actions,
        objects,
        functions,
    })
}

/// How many types of that sort stand before one; all, where it isn't there.
pub fn number_of(places: &TypePlaces, declaration: &Declaration) -> Result<u32, NoMemory>
    ensures { IfOk result (λ n. n ≡ number_or places.now.places places.now.count declaration.now) }
{
    match places.places.number(declaration.name.place) {
        None => Ok(places.count),
        Some(number) => match u32::try_from(number) {
            Ok(number) => Ok(number),
            Err(_) => Err(NoMemory),
        },
    }
}
