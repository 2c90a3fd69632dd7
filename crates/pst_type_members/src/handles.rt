//! The action handles that types declare themselves, found by place.
ghost use Rattle.std.specs.Prelude.{◌≡◌, List, map, IfOk, IfSome, OnOk};
ghost use Rattle.std.specs.HashMap.{get};
ghost use Rattle.pst_ast.specs.declared.scope_declaration.Declaration.{Declaration as Declared};
ghost use Rattle.pst_ast.specs.Sorts.{is_handle};
ghost use Rattle.pst_type_rules.specs.Members.{those_that};
ghost use Rattle.pst_type_members.specs.Among.{IsAmong};
ghost use Rattle.pst_type_members.specs.Keyed.{members_at, same_key};
ghost use Rattle.pst_type_members.specs.Kept.{AreRows};
ghost use Rattle.pst_type_members.specs.KeptHandles.{AreHandleRows, IsHandleRow, or_row};

use crate::among::Among;
use crate::key::{ScopeKey, scope_key};
use crate::scopes::ScopeRows;
use pst_ast::{Declaration, Sort};
use pst_base::{NoMemory, Place};
use pst_places::PlaceList;
use std::alloc::Global;
use std::collections::HashMap;

// The handles that a type declares itself.
#[derive(Drop)]
pub(crate) struct HandleRow {
    // The places of their names, in order of declaration.
    pub(crate) places: PlaceList,
    // How many there are.
    pub(crate) count: usize,
}

// The handles that actions declare themselves.
#[derive(Drop)]
pub(crate) struct HandleRows {
    pub(crate) rows: HashMap<ScopeKey, HandleRow>,
}

// The places of the names of the handles among declarations.
fn handle_places(alloc: Global, declarations: &[Declaration]) -> Result<Vec<Place>, NoMemory>
    ensures { IfOk result (λ places. places.items ≡ map (λ d. d.name.place) (those_that is_handle declarations.now)) }
{
    let mut places = Vec::new(alloc);
    for declaration in declarations {
        if matches!(declaration.sort, Sort::Handle { .. }) {
            places.push(declaration.name.place)?;
        }
    }
    Ok(places)
}

// The handles among declarations.
fn handle_row(alloc: Global, declarations: &[Declaration]) -> Result<HandleRow, NoMemory>
    ensures { IfOk result (IsHandleRow declarations.now) }
{
    let places = handle_places(alloc, declarations)?;
    let count = places.len();
    let places = PlaceList::new(alloc, places)?;
    Ok(HandleRow { places, count })
}

// Keeps a row at its key, where nothing is there yet.
fn keep(
    rows: &mut HashMap<ScopeKey, HandleRow>,
    key: ScopeKey,
    row: HandleRow,
) -> Result<(), NoMemory>
    ensures { OnOk result ((q : ScopeKey) → get same_key rows.new q ≡ or_row (get same_key rows.old q) (same_key q key) row) }
{
    if !rows.contains_key(&key) {
        rows.insert(key, row)?;
    }
    Ok(())
}

// Keeps the handles that an action declares itself.
fn keep_handles(
    alloc: Global,
    scopes: &ScopeRows,
    kept: &mut HandleRows,
    action: &Declaration,
) -> Result<(), NoMemory>
    ensures { OnOk result ((ds : List Declared) → AreRows ds scopes.now → AreHandleRows ds kept.old → AreHandleRows ds kept.new) }
{
    let row = handle_row(alloc, scopes.at(action.name.place))?;
    keep(&mut kept.rows, scope_key(action.name.place), row)
}

/// The handles that the actions among declarations declare themselves, by what is declared in each
/// scope.
pub(crate) fn handle_rows_of(
    alloc: Global,
    scopes: &ScopeRows,
    declarations: &[Declaration],
) -> Result<HandleRows, NoMemory>
    requires { AreRows declarations.now scopes.now }
    ensures { IfOk result (AreHandleRows declarations.now) }
{
    let mut kept = HandleRows {
        rows: HashMap::new(alloc),
    };
    for declaration in declarations {
        if matches!(declaration.sort, Sort::Action { .. }) {
            keep_handles(alloc, scopes, &mut kept, declaration)?;
        }
    }
    Ok(kept)
}

impl HandleRow {
    // Where a handle stands among these.
    fn among(&self, handle: &Declaration) -> Among
        ensures { (ds : List Declared) → IsHandleRow ds self.now → IsAmong (those_that is_handle ds) handle.now result }
    {
        match self.places.number(handle.name.place) {
            None => Among {
                number: self.count,
                count: self.count,
            },
            Some(number) => Among {
                number,
                count: self.count,
            },
        }
    }
}

impl HandleRows {
    /// Where a handle stands among those that a type declares itself, where these are kept.
    pub(crate) fn among(&self, type_: &Declaration, handle: &Declaration) -> Option<Among>
        ensures { (ds : List Declared) → AreHandleRows ds self.now → IfSome result (IsAmong (those_that is_handle (members_at ds type_.now.name.place)) handle.now) }
    {
        match self.rows.get(&scope_key(type_.name.place)) {
            None => None,
            Some(row) => Some(row.among(handle)),
        }
    }
}
