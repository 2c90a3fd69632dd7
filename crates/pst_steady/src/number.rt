//! The numbers of actions and of their bases among the declarations.
ghost use Rattle.std.specs.Prelude.{◌≡◌, ◌+◌, ◌<◌, ◌++◌, ◌∷◌, [], IfOk, Some, slice_get, length};
ghost use Rattle.pst_ast.specs.Lookups;
ghost use Rattle.pst_steady.specs.Numbered.{AreBases, IsNumber, numbered};

use pst_ast::Declaration;
use pst_base::NoMemory;
use pst_index::Index;
use pst_members::is_same_action;
use pst_places::PlaceList;
use std::alloc::Global;

// The number of an action, looked for among all declarations.
fn number_among(declarations: &[Declaration], action: &Declaration) -> Option<usize>
    ensures { IsNumber declarations.now action.now result }
{
    for at in 0..declarations.len() {
        if is_same_action(&declarations[at], action) {
            return Some(at);
        }
    }
    None
}

/// The number of an action among the declarations, whose places these are. Where something else
/// stands at the same place, it looks at each.
pub fn number_of(
    places: &PlaceList,
    declarations: &[Declaration],
    action: &Declaration,
) -> Option<usize>
    ensures { IsNumber declarations.now action.now result }
{
    if let Some(number) = places.number(action.name.place) {
        if number < declarations.len() && is_same_action(&declarations[number], action) {
            return Some(number);
        }
    }
    number_among(declarations, action)
}

/// The number of the base of an action.
pub fn base_number(index: &Index, places: &PlaceList, action: &Declaration) -> Option<usize>
    ensures { numbered index.now result ≡ Lookups.base_of index.now action.now }
{
    match index.base_of(action) {
        None => None,
        Some(base) => number_of(places, index.as_slice(), &base),
    }
}

/// The number of the base of each declaration.
pub fn bases_of(
    alloc: Global,
    index: &Index,
    places: &PlaceList,
) -> Result<Vec<Option<usize>>, NoMemory>
    ensures { IfOk result (λ bases. AreBases index.now bases.items) }
{
    let mut bases = Vec::new(alloc);
    let declarations = index.as_slice();
    for at in 0..declarations.len() {
        bases.push(base_number(index, places, &declarations[at]))?;
    }
    Ok(bases)
}
