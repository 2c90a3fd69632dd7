//! The enum items that paths name.
ghost use Rattle.std.specs.Prelude.{◌≡◌, IfOk};
ghost use Rattle.pst_ast.specs.ExpressionView.{view_path};
ghost use Rattle.pst_ast.specs.Lookups.{if_sort};
ghost use Rattle.pst_ast.specs.Paths;
ghost use Rattle.pst_ast.specs.Sorts.{is_item};
ghost use Rattle.pst_type_rules.specs.Constants;

use pst_ast::{
    Checked, Declaration, Environment, PathNode, PathPart, PathReferent, Referent, Sort,
};
use pst_base::{Names, NoMemory};
use pst_index::{Index, PathFor, read_path};
use pst_name_rules::item_by;
use pst_walk_parts::path_parts::{part_of, parts_of};
use std::alloc::Global;

// It, where it is an item.
fn if_item(found: Referent) -> Option<Declaration>
    ensures { result ≡ Constants.if_item found }
{
    match found {
        Referent::Declared(found) => match found.sort {
            Sort::Item { .. } => Some(found),
            _ => None,
        },
        _ => None,
    }
}

// The item that a path was found to name.
fn item_in(read: &Checked<PathReferent>) -> Option<Declaration>
    ensures { result ≡ Constants.item_in read.now }
{
    match read {
        Checked::Is(path) => if_item(path.last),
        Checked::Breaks { .. } => None,
    }
}

/// The item that names with dots between them name.
pub fn item_read(
    alloc: Global,
    index: &Index,
    names: &Names,
    at: &Environment,
    first: PathPart,
    rest: &[PathPart],
) -> Result<Option<Declaration>, NoMemory>
    ensures { IfOk result (λ r. r ≡ Constants.item_read index.now names.now at.now first rest.now) }
{
    let read = read_path(alloc, index, names, at, PathFor::Value, first, rest)?;
    Ok(item_in(&read))
}

/// The item that a path names, where it names one.
pub fn item_of_path(
    alloc: Global,
    index: &Index,
    names: &Names,
    at: &Environment,
    path: &PathNode,
) -> Result<Option<Declaration>, NoMemory>
    ensures { IfOk result (λ r. r ≡ Constants.item_of_path index.now names.now at.now (view_path path.now)) }
{
    match path {
        PathNode::Dotted { first, rest } => {
            let parts = parts_of(alloc, rest.as_slice())?;
            item_read(alloc, index, names, at, part_of(first), parts.as_slice())
        }
        PathNode::Item { first, second, .. } => {
            Ok(item_by(index, at.component, None, *first, *second))
        }
        PathNode::LongItem {
            first,
            second,
            third,
            ..
        } => Ok(item_by(index, at.component, Some(*first), *second, *third)),
    }
}
