//! Binds in single instances.
ghost use Rattle.std.specs.Prelude.{◌≡◌, map, IfOk};
ghost use Rattle.pst_bound_pools.specs.Homes.{home_place};
ghost use Rattle.pst_bound_pools.specs.Pools;
ghost use Rattle.pst_bound_pools.specs.Serving;

use crate::instance_table::InstanceTable;
use crate::pool_table::{PoolTable, component_of};
use pst_ast::{Instance, Name};
use pst_base::{NoMemory, Place};
use pst_index::Index;
use pst_name_rules::pool_in;
use std::alloc::Global;

// The place of the name of an instance's component.
fn home_of(index: &Index, instance: &Instance) -> Option<Place>
    ensures { result ≡ home_place index.now instance.now }
{
    match component_of(index, instance) {
        None => None,
        Some(component) => Some(component.name.place),
    }
}

// The same of each instance.
fn homes_of(
    alloc: Global,
    index: &Index,
    instances: &[Instance],
) -> Result<Vec<Option<Place>>, NoMemory>
    ensures { IfOk result (λ homes. homes.items ≡ map (home_place index.now) instances.now) }
{
    let mut homes = Vec::new(alloc);
    for instance in instances {
        homes.push(home_of(index, instance))?;
    }
    Ok(homes)
}

/// The place of the name of each instance's component.
pub fn components_of(
    alloc: Global,
    index: &Index,
    table: &InstanceTable,
) -> Result<Vec<Option<Place>>, NoMemory>
    ensures { IfOk result (λ components. components.items ≡ map (home_place index.now) table.now) }
{
    homes_of(alloc, index, table.as_slice())
}

/// Whether an instance is one of the component in whose text a bind stands.
pub fn stands_in(
    components: &[Option<Place>],
    _index: &Index,
    _table: &InstanceTable,
    component: Place,
    number: u32,
) -> bool
    requires { components.now ≡ map (home_place _index.now) _table.now }
    ensures { result ≡ Serving.stands_in _index.now _table.now component number }
{
    match components.get(number as usize) {
        Some(Some(place)) => *place == component,
        _ => false,
    }
}

/// The pool that a bind binds in an instance.
pub fn pool_bound(
    index: &Index,
    table: &InstanceTable,
    pools: &PoolTable,
    component: Place,
    pool: Name,
    number: u32,
) -> Option<u32>
    requires { pools.now ≡ Pools.pools index.now table.now }
    ensures { result ≡ Serving.pool_bound index.now table.now component pool number }
{
    let declared = pool_in(index, component, pool)?;
    pools.number(number, &declared)
}
