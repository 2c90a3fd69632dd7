//! Instances and pools as texts.
use pst_base::{NameId, Names};
use pst_bind::PoolMap;
use pst_tree::Tree;
use std::alloc::{AllocError, Global};

// The text of a name, or `?` where there is no such name.
fn text_of(names: &Names, id: NameId) -> &str {
    if id.0 < names.len() {
        names.text(id)
    } else {
        "?"
    }
}

// Writes what stands between this row and the one before it.
fn write_comma(answer: &mut String) -> Result<(), AllocError> {
    if answer.is_empty() || answer.ends_with(' ') {
        return Ok(());
    }
    answer.push_str(", ")
}

/// The instances, each with its name, component, parent and the last in its subtree.
pub fn instance_rows(alloc: Global, names: &Names, tree: &Tree) -> Result<String, AllocError> {
    let mut answer = String::new(alloc);
    for instance in tree.instances.as_slice() {
        write_comma(&mut answer)?;
        answer.push_str(text_of(names, instance.name))?;
        answer.push(' ')?;
        answer.push_str(text_of(names, instance.component))?;
        match instance.parent {
            None => answer.push_str(" -")?,
            Some(parent) => write!(answer, " {parent}")?,
        }
        write!(answer, " {}", instance.last)?;
    }
    Ok(answer)
}

/// The pools, each with the number of its instance and its name; `;`, and what they serve, each with
/// the numbers of an action, an instance, a reference and a pool.
pub fn pool_rows(alloc: Global, names: &Names, map: &PoolMap) -> Result<String, AllocError> {
    let mut answer = String::new(alloc);
    for pool in map.pools.as_slice() {
        write_comma(&mut answer)?;
        write!(answer, "{} ", pool.instance)?;
        answer.push_str(text_of(names, pool.name))?;
    }
    answer.push_str("; ")?;
    add_served(&mut answer, map)?;
    Ok(answer)
}

fn add_served(answer: &mut String, map: &PoolMap) -> Result<(), AllocError> {
    for served in map.served.as_slice() {
        write_comma(answer)?;
        write!(answer, "{} {}", served.action, served.instance)?;
        write!(answer, " {} {}", served.reference, served.pool)?;
    }
    Ok(())
}
