//! An order in which enum items get their values.
use crate::item::ListedItem;
use crate::sources::ItemSources;
use pst_ast::{Environment, Inner, Owner};
use pst_base::NoMemory;
use pst_loops::in_order_of_end;
use pst_named_items::{items_in, number_of};

// The numbers of the items that an item names, or of the one before it.
fn needed(sources: &ItemSources, item: &ListedItem) -> Result<Vec<u32>, NoMemory> {
    if let Some(expr) = item.expr {
        let at = Environment {
            component: item.component,
            owner: Owner::Nobody,
            inner: Inner::new(sources.alloc),
            traversal: None,
        };
        let (_only, found) = items_in(
            sources.alloc,
            sources.index,
            sources.names,
            sources.places,
            &at,
            expr,
        )?;
        return Ok(found);
    }
    let mut found = Vec::new(sources.alloc);
    if let Some(before) = item.before {
        if let Some(number) = number_of(sources.places, before.place) {
            found.push(number)?;
        }
    }
    Ok(found)
}

/// The numbers of the items, each behind those that it needs, but for those that need it too. No
/// contract says so: whatever the order, an item gets a value only by those that have theirs.
pub fn order_of_items(sources: &ItemSources) -> Result<Vec<u32>, NoMemory> {
    let mut rows = Vec::new(sources.alloc);
    for item in sources.items {
        rows.push(needed(sources, item)?)?;
    }
    Ok(in_order_of_end(sources.alloc, &rows)?)
}
