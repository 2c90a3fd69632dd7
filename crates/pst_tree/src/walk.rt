//! The walk through the instances, from the root down.
ghost use Rattle.std.specs.Prelude.{◌≡◌, ◌++◌, IfOk, OnOk, length, reverse, ◌≤◌};
ghost use Rattle.pst_tree.specs.declared.rows.Member.TheVariants as member;
ghost use Rattle.pst_tree.specs.Kept.{AreRows};
ghost use Rattle.pst_tree.specs.Walked.{AreWalked, pending_in};
ghost use Rattle.pst_tree.specs.Walked;

use crate::rows::Rows;
use pst_ast::{Declaration, Instance};
use pst_base::{NameId, NoMemory};
use pst_index::Index;
use std::alloc::Global;

/// The most instances that sources may have.
const LIMIT: usize = 256;

/// An instance that is still to come.
#[derive(Clone, Copy)]
pub struct Pending {
    /// Its name.
    pub name: NameId,
    /// Its component.
    pub component: Declaration,
    /// The number of the instance that it stands in.
    pub parent: u32,
}

// An instance whose last one isn't known yet.
fn entry(name: NameId, component: NameId, parent: Option<u32>) -> Instance
    ensures { result ≡ Walked.entry name component parent }
{
    Instance {
        name,
        component,
        parent,
        last: 0,
    }
}

// Adds what a component declares, the first last.
fn add_row(
    index: &Index,
    rows: &Rows,
    component: &Declaration,
    parent: u32,
    pending: &mut Vec<Pending>,
) -> Result<(), NoMemory>
    requires { AreRows member.Instance index.now rows.now }
    ensures { OnOk result (reverse pending.new.items ≡ pending_in index.now parent component.now ++ reverse pending.old.items) }
{
    let mut left = rows.at(component.name.place);
    while let Some((declared, before)) = left.split_last() {
        if let Some(component) = index.type_of(declared) {
            pending.push(Pending {
                name: declared.name.id,
                component,
                parent,
            })?;
        }
        left = before;
    }
    Ok(())
}

/// The instances of a root in preorder, without the last ones of their subtrees; none where there
/// are more than the limit.
///
/// The walk ends at the first beyond the limit. It keeps what is still to come in a list, since
/// components may be nested as deep as the sources are long.
pub fn walk(
    alloc: Global,
    index: &Index,
    rows: &Rows,
    root: &Declaration,
) -> Result<Option<Vec<Instance>>, NoMemory>
    requires { AreRows member.Instance index.now rows.now }
    ensures { IfOk result (AreWalked index.now root.now) }
{
    let mut listed = Vec::new(alloc);
    let mut pending = Vec::new(alloc);
    listed.push(entry(root.name.id, root.name.id, None))?;
    add_row(index, rows, root, 0, &mut pending)?;
    while let Some(next) = pending.pop() {
        let number = listed.len();
        if number >= LIMIT {
            return Ok(None);
        }
        listed.push(entry(next.name, next.component.name.id, Some(next.parent)))?;
        add_row(index, rows, &next.component, number as u32, &mut pending)?;
    }
    Ok(Some(listed))
}
