//! What types declare in their own scopes.
ghost use Rattle.std.specs.Prelude.{◌≡◌, ◌++◌, ◌∷◌, [], None, IfOk, OnOk, if◌then◌else◌};
ghost use Rattle.std.specs.HashMap.{get};
ghost use Rattle.pst_tree.specs.Members;
ghost use Rattle.pst_tree.specs.Members.{is_member, member_scope, same_key, row_in};
ghost use Rattle.pst_tree.specs.Kept.{AreRows};

use crate::key::{PlaceKey, place_key};
use pst_ast::{Declaration, Scope, Sort};
use pst_base::{NoMemory, Place};
use std::alloc::Global;
use std::collections::HashMap;

/// A sort of members.
#[derive(Clone, Copy, PartialEq, Eq)]
pub enum Member {
    /// Component instances.
    Instance,
    /// Pools.
    Pool,
    /// References and claims.
    Need,
}

/// The members of one sort that each type declares in its own scope, in order of declaration.
#[derive(Drop)]
pub struct Rows {
    pub(crate) rows: HashMap<PlaceKey, Vec<Declaration>>,
}

// Whether a declaration is of that sort.
fn is_of(by: Member, sort: Sort) -> bool
    ensures { result ≡ is_member by sort }
{
    match by {
        Member::Instance => matches!(sort, Sort::Instance { .. }),
        Member::Pool => matches!(sort, Sort::Pool { .. }),
        Member::Need => matches!(sort, Sort::Reference { .. } | Sort::Claim { .. }),
    }
}

// The place in whose scope a member of that sort is declared.
fn scope_of(by: Member, declaration: &Declaration) -> Option<Place>
    ensures { result ≡ member_scope by declaration.now }
{
    if !is_of(by, declaration.sort) {
        return None;
    }
    match declaration.scope {
        Scope::Files => None,
        Scope::Part(place) => Some(place),
    }
}

// Begins the row of a key with a declaration.
fn begin(
    alloc: Global,
    rows: &mut HashMap<PlaceKey, Vec<Declaration>>,
    key: PlaceKey,
    declaration: Declaration,
) -> Result<(), NoMemory>
    requires { get same_key rows.old key ≡ None }
    ensures { OnOk result ((q : PlaceKey) → row_in (get same_key rows.new q) ≡ row_in (get same_key rows.old q) ++ (if same_key q key then declaration ∷ [] else [])) }
{
    let mut row = Vec::new(alloc);
    row.push(declaration)?;
    rows.insert(key, row)?;
    Ok(())
}

// Adds a declaration to the row of a key.
fn add(
    alloc: Global,
    rows: &mut HashMap<PlaceKey, Vec<Declaration>>,
    key: PlaceKey,
    declaration: Declaration,
) -> Result<(), NoMemory>
    ensures { OnOk result ((q : PlaceKey) → row_in (get same_key rows.new q) ≡ row_in (get same_key rows.old q) ++ (if same_key q key then declaration ∷ [] else [])) }
{
    if !rows.contains_key(&key) {
        return begin(alloc, rows, key, declaration);
    }
    if let Some(row) = rows.get_mut(&key) {
        row.push(declaration)?;
    }
    Ok(())
}

impl Rows {
    /// The members of a sort among declarations.
    pub fn new(alloc: Global, by: Member, declarations: &[Declaration]) -> Result<Rows, NoMemory>
        ensures { IfOk result (AreRows by declarations.now) }
    {
        let mut rows = HashMap::new(alloc);
        for declaration in declarations {
            if let Some(place) = scope_of(by, declaration) {
                add(alloc, &mut rows, place_key(place), *declaration)?;
            }
        }
        Ok(Rows { rows })
    }

    /// Those of the type whose name stands at a place.
    pub fn at(&self, place: Place) -> &[Declaration]
        ensures { result.now ≡ row_in (get same_key self.now.rows (Members.place_key place)) }
    {
        match self.rows.get(&place_key(place)) {
            Some(row) => row.as_slice(),
            None => &[],
        }
    }
}
