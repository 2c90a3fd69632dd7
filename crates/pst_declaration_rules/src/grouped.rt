//! Declarations by the place of what they stand in.
ghost use Rattle.std.specs.Prelude.{◌≡◌, ◌++◌, ◌∷◌, [], IfOk, OnOk, if◌then◌else◌};
ghost use Rattle.std.specs.HashMap.{get};
ghost use Rattle.std.specs.List.{filter};
ghost use Rattle.pst_declaration_rules.specs.Grouped;
ghost use Rattle.pst_declaration_rules.specs.Grouped.{has_key, items_at, same_key};

use crate::member::Member;
use pst_ast::{Declaration, Scope, Sort};
use pst_base::{NoMemory, Place};
use std::alloc::Global;
use std::collections::HashMap;

/// A place.
#[derive(Clone, Copy, PartialEq, Eq, Hash)]
pub struct PlaceKey {
    /// The file.
    pub file: u32,
    /// The line.
    pub line: u32,
    /// The column.
    pub column: u32,
}

/// By what declarations are grouped.
#[derive(Clone, Copy, PartialEq, Eq)]
pub enum By {
    /// All of them, by the scope in which they are declared.
    OwnScope,
    /// Locals, by the action in whose text they are.
    OwnText,
}

// The key of a place.
fn place_key(place: Place) -> PlaceKey
    ensures { result ≡ Grouped.place_key place }
{
    PlaceKey {
        file: place.file,
        line: place.line,
        column: place.column,
    }
}

// The key of the scope in which something is declared.
fn key_of_scope(scope: Scope) -> Option<PlaceKey>
    ensures { result ≡ Grouped.key_of_scope scope }
{
    match scope {
        Scope::Files => None,
        Scope::Part(place) => Some(place_key(place)),
    }
}

// The key of the action in whose text a local is.
fn key_of_text(declaration: &Declaration) -> Option<PlaceKey>
    ensures { result ≡ Grouped.key_of_text declaration.now }
{
    match declaration.sort {
        Sort::Local => match declaration.inside {
            None => None,
            Some(place) => Some(place_key(place)),
        },
        _ => None,
    }
}

// The key of a declaration.
fn key_of(by: By, declaration: &Declaration) -> Option<PlaceKey>
    ensures { result ≡ Grouped.key_of by declaration.now }
{
    match by {
        By::OwnScope => key_of_scope(declaration.scope),
        By::OwnText => key_of_text(declaration),
    }
}

// Adds a declaration to those of its key.
fn add(
    alloc: Global,
    groups: &mut HashMap<PlaceKey, Vec<Member>>,
    key: PlaceKey,
    member: Member,
) -> Result<(), NoMemory>
    ensures { OnOk result ((q : PlaceKey) → items_at (get same_key groups.new q) ≡ items_at (get same_key groups.old q) ++ (if same_key q key then member ∷ [] else [])) }
{
    let mut group = match groups.remove(&key) {
        Some(group) => group,
        None => Vec::new(alloc),
    };
    group.push(member)?;
    groups.insert(key, group)?;
    Ok(())
}

/// The declarations of each key, in the order of their text.
pub fn grouped(
    alloc: Global,
    by: By,
    members: &[Member],
) -> Result<HashMap<PlaceKey, Vec<Member>>, NoMemory>
    ensures { IfOk result (λ groups. (q : PlaceKey) → items_at (get same_key groups q) ≡ filter (has_key by q) members.now) }
{
    let mut groups = HashMap::new(alloc);
    for member in members {
        if let Some(key) = key_of(by, &member.declaration) {
            add(alloc, &mut groups, key, *member)?;
        }
    }
    Ok(groups)
}

/// The declarations of what stands at a place.
pub fn group_at(groups: &HashMap<PlaceKey, Vec<Member>>, place: Place) -> &[Member]
    ensures { result.now ≡ items_at (get same_key groups.now (Grouped.place_key place)) }
{
    match groups.get(&place_key(place)) {
        Some(group) => group.as_slice(),
        None => &[],
    }
}
