//! The pools of default binds, by instance and by object type.
ghost use Rattle.std.specs.Prelude.{◌≡◌, ◌++◌, ◌∷◌, [], nat_eq, None, IfOk, OnOk, if◌then◌else◌, map};
ghost use Rattle.std.specs.HashMap.{get};
ghost use Rattle.pst_bound_pools.specs.Homes.{home_place};
ghost use Rattle.pst_bound_pools.specs.Pools;
ghost use Rattle.pst_bound_pools.specs.BindRows;
ghost use Rattle.pst_bound_pools.specs.BindRows.{given_default, same_object, numbers_in};
ghost use Rattle.pst_pool_binds.specs.FoundBinds.{view_default, view_defaults};
ghost use Rattle.pst_bound_pools.specs.KeptBinds.{AreDefaultRows};

use crate::bound::{pool_bound, stands_in};
use crate::instance_table::InstanceTable;
use crate::pool_table::PoolTable;
use pst_base::{NoMemory, Place};
use pst_index::Index;
use pst_name_rules::pool_in;
use pst_pool_binds::FoundDefault;
use std::alloc::Global;
use std::collections::HashMap;

/// An object type, and the instance in which a bind stands.
#[derive(Clone, Copy, PartialEq, Eq, Hash)]
pub struct ObjectKey {
    /// The number of the instance in which the bind stands.
    pub from: u32,
    /// The file of the place of the type's name.
    pub file: u32,
    /// Its line.
    pub line: u32,
    /// Its column.
    pub column: u32,
}

/// The pools of the default binds of each object type, in the order of the binds.
#[derive(Drop)]
pub struct DefaultRows {
    pub(crate) rows: HashMap<ObjectKey, Vec<u32>>,
}

// The key of an object type.
fn object_key(from: u32, place: Place) -> ObjectKey
    ensures { result ≡ BindRows.object_key from place }
{
    ObjectKey {
        from,
        file: place.file,
        line: place.line,
        column: place.column,
    }
}

// The place of the object type of the pool that a bind binds.
fn object_of(index: &Index, bind: &FoundDefault) -> Option<Place>
    ensures { result ≡ BindRows.object_of index.now (view_default bind.now) }
{
    let declared = pool_in(index, bind.component, bind.pool)?;
    let object = index.type_of(&declared)?;
    Some(object.name.place)
}

// Begins the row of a key with a pool.
fn begin(
    alloc: Global,
    rows: &mut HashMap<ObjectKey, Vec<u32>>,
    key: ObjectKey,
    pool: u32,
) -> Result<(), NoMemory>
    requires { get same_object rows.old key ≡ None }
    ensures { OnOk result ((q : ObjectKey) → numbers_in (get same_object rows.new q) ≡ numbers_in (get same_object rows.old q) ++ (if same_object q key then pool ∷ [] else [])) }
{
    let mut row = Vec::new(alloc);
    row.push(pool)?;
    rows.insert(key, row)?;
    Ok(())
}

// Adds a pool to the row of a key.
fn add(
    alloc: Global,
    rows: &mut HashMap<ObjectKey, Vec<u32>>,
    key: ObjectKey,
    pool: u32,
) -> Result<(), NoMemory>
    ensures { OnOk result ((q : ObjectKey) → numbers_in (get same_object rows.new q) ≡ numbers_in (get same_object rows.old q) ++ (if same_object q key then pool ∷ [] else [])) }
{
    if !rows.contains_key(&key) {
        return begin(alloc, rows, key, pool);
    }
    if let Some(row) = rows.get_mut(&key) {
        row.push(pool)?;
    }
    Ok(())
}

// Adds the pool of a bind in an instance.
fn add_in(
    alloc: Global,
    rows: &mut HashMap<ObjectKey, Vec<u32>>,
    components: &[Option<Place>],
    index: &Index,
    table: &InstanceTable,
    pools: &PoolTable,
    bind: &FoundDefault,
    from: u32,
) -> Result<(), NoMemory>
    requires components { components.now ≡ map (home_place index.now) table.now }
    requires pools { pools.now ≡ Pools.pools index.now table.now }
    ensures { OnOk result ((q : ObjectKey) → numbers_in (get same_object rows.new q) ≡ numbers_in (get same_object rows.old q) ++ (if nat_eq q.from from then given_default index.now table.now q (view_default bind.now) else [])) }
{
    if !stands_in(components, index, table, bind.component, from) {
        return Ok(());
    }
    let Some(place) = object_of(index, bind) else {
        return Ok(());
    };
    match pool_bound(index, table, pools, bind.component, bind.pool, from) {
        None => Ok(()),
        Some(pool) => add(alloc, rows, object_key(from, place), pool),
    }
}

// Adds the pools of a bind, which stands in each instance of its component.
fn add_bind(
    alloc: Global,
    rows: &mut HashMap<ObjectKey, Vec<u32>>,
    components: &[Option<Place>],
    index: &Index,
    table: &InstanceTable,
    pools: &PoolTable,
    bind: &FoundDefault,
) -> Result<(), NoMemory>
    requires components { components.now ≡ map (home_place index.now) table.now }
    requires pools { pools.now ≡ Pools.pools index.now table.now }
    ensures { OnOk result ((q : ObjectKey) → numbers_in (get same_object rows.new q) ≡ numbers_in (get same_object rows.old q) ++ given_default index.now table.now q (view_default bind.now)) }
{
    for at in 0..table.as_slice().len() {
        let Ok(from) = u32::try_from(at) else {
            return Err(NoMemory);
        };
        add_in(alloc, rows, components, index, table, pools, bind, from)?;
    }
    Ok(())
}

impl DefaultRows {
    /// The pools of default binds. `NoMemory` also comes where there are more than 2^32 instances.
    pub fn new(
        alloc: Global,
        components: &[Option<Place>],
        index: &Index,
        table: &InstanceTable,
        pools: &PoolTable,
        binds: &[FoundDefault],
    ) -> Result<DefaultRows, NoMemory>
        requires components { components.now ≡ map (home_place index.now) table.now }
        requires pools { pools.now ≡ Pools.pools index.now table.now }
        ensures { IfOk result (AreDefaultRows index.now table.now (view_defaults binds.now)) }
    {
        let mut rows = HashMap::new(alloc);
        for bind in binds {
            add_bind(alloc, &mut rows, components, index, table, pools, bind)?;
        }
        Ok(DefaultRows { rows })
    }

    /// Those that stand in an instance, of the object type whose name stands at a place.
    pub fn at(&self, from: u32, place: Place) -> &[u32]
        ensures { result.now ≡ numbers_in (get same_object self.now.rows (BindRows.object_key from place)) }
    {
        match self.rows.get(&object_key(from, place)) {
            Some(row) => row.as_slice(),
            None => &[],
        }
    }
}
