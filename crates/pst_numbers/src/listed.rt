//! The types and functions in order of declaration.
ghost use Rattle.std.specs.Prelude.{◌≡◌, IfOk, Some, None};
ghost use Rattle.std.specs.Option.{option_map, option_and_then};
ghost use Rattle.pst_ast.specs.Scopes;

use pst_ast::{Declaration, Sort, TypeEntry, TypeSort};
use pst_base::{NameId, NoMemory, Place};
use pst_index::Index;
use std::alloc::Global;

/// The sort of a type or function; none of anything else.
pub fn sort_of(sort: Sort) -> Option<TypeSort>
    ensures { result ≡ Scopes.sort_of sort }
{
    match sort {
        Sort::Component => Some(TypeSort::Component),
        Sort::Action { .. } => Some(TypeSort::Action),
        Sort::Object { .. } => Some(TypeSort::Object),
        Sort::Enumeration => Some(TypeSort::Enumeration),
        Sort::Function => Some(TypeSort::Function),
        _ => None,
    }
}

// The name that is declared at a place, where there is one.
fn name_within(index: &Index, inside: Option<Place>) -> Option<NameId>
    ensures { result ≡ option_and_then (Scopes.name_at index.now) inside }
{
    let declaration = index.declared_at(inside?)?;
    Some(declaration.name.id)
}

// The entry of a type or function; none of anything else.
fn entry_of(index: &Index, declaration: &Declaration) -> Option<TypeEntry>
    ensures { result ≡ Scopes.entry_of index.now declaration.now }
{
    let sort = sort_of(declaration.sort)?;
    Some(TypeEntry {
        name: declaration.name.id,
        component: name_within(index, declaration.inside),
        sort,
        place: declaration.name.place,
    })
}

/// The types and functions in order of declaration.
pub fn entries(alloc: Global, index: &Index) -> Result<Vec<TypeEntry>, NoMemory>
    ensures { IfOk result (λ found. found.items ≡ Scopes.entries index.now) }
{
    let mut found = Vec::new(alloc);
    for declaration in index.as_slice() {
        if let Some(entry) = entry_of(index, declaration) {
            found.push(entry)?;
        }
    }
    Ok(found)
}
