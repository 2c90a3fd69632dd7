//! What is declared in each scope.
ghost use Rattle.std.specs.Prelude.{◌≡◌, ◌++◌, ◌∷◌, [], None, IfOk, OnOk, if◌then◌else◌};
ghost use Rattle.std.specs.HashMap.{get};
ghost use Rattle.pst_type_members.specs.Keyed;
ghost use Rattle.pst_type_members.specs.Keyed.{place_in, row_in, same_key};
ghost use Rattle.pst_type_members.specs.Kept.{AreRows};

use crate::key::{ScopeKey, scope_key};
use pst_ast::{Declaration, Scope};
use pst_base::{NoMemory, Place};
use std::alloc::Global;
use std::collections::HashMap;

// What is declared in the scope of each place, in order of declaration.
#[derive(Drop)]
pub(crate) struct ScopeRows {
    pub(crate) rows: HashMap<ScopeKey, Vec<Declaration>>,
}

impl ScopeRows {
    // What is declared in the scope of a place.
    pub(crate) fn at(&self, place: Place) -> &[Declaration]
        ensures { result.now ≡ row_in (get same_key self.now.rows (Keyed.scope_key place)) }
    {
        match self.rows.get(&scope_key(place)) {
            Some(row) => row.as_slice(),
            None => &[],
        }
    }
}

// The place in whose scope something is declared.
fn place_of(declaration: &Declaration) -> Option<Place>
    ensures { result ≡ place_in declaration.now.scope }
{
    match declaration.scope {
        Scope::Files => None,
        Scope::Part(place) => Some(place),
    }
}

// Begins the row of a key with a declaration.
fn begin(
    alloc: Global,
    rows: &mut HashMap<ScopeKey, Vec<Declaration>>,
    key: ScopeKey,
    declaration: Declaration,
) -> Result<(), NoMemory>
    requires { get same_key rows.old key ≡ None }
    ensures { OnOk result ((q : ScopeKey) → row_in (get same_key rows.new q) ≡ row_in (get same_key rows.old q) ++ (if same_key q key then declaration ∷ [] else [])) }
{
    let mut row = Vec::new(alloc);
    row.push(declaration)?;
    rows.insert(key, row)?;
    Ok(())
}

// Adds a declaration to the row of a key.
fn add(
    alloc: Global,
    rows: &mut HashMap<ScopeKey, Vec<Declaration>>,
    key: ScopeKey,
    declaration: Declaration,
) -> Result<(), NoMemory>
    ensures { OnOk result ((q : ScopeKey) → row_in (get same_key rows.new q) ≡ row_in (get same_key rows.old q) ++ (if same_key q key then declaration ∷ [] else [])) }
{
    if !rows.contains_key(&key) {
        return begin(alloc, rows, key, declaration);
    }
    if let Some(row) = rows.get_mut(&key) {
        row.push(declaration)?;
    }
    Ok(())
}

/// What is declared in each scope.
pub(crate) fn rows_of(alloc: Global, declarations: &[Declaration]) -> Result<ScopeRows, NoMemory>
    ensures { IfOk result (AreRows declarations.now) }
{
    let mut rows = HashMap::new(alloc);
    for declaration in declarations {
        if let Some(place) = place_of(declaration) {
            add(alloc, &mut rows, scope_key(place), *declaration)?;
        }
    }
    Ok(ScopeRows { rows })
}
