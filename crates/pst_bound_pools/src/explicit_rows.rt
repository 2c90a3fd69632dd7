//! The pools of explicit binds, by instance and by what they name.
ghost use Rattle.std.specs.Prelude.{◌≡◌, ◌++◌, ◌∷◌, [], ℕ, nat_eq, true, false, None, Some, IfOk, OnOk, if◌then◌else◌, map};
ghost use Rattle.std.specs.HashMap.{get};
ghost use Rattle.pst_bound_pools.specs.Homes.{home_place};
ghost use Rattle.pst_bound_pools.specs.Pools;
ghost use Rattle.pst_bound_pools.specs.BindRows;
ghost use Rattle.pst_bound_pools.specs.BindRows.{given, same_aim, same_target, numbers_in};
ghost use Rattle.pst_pool_binds.specs.FoundBinds.{view_bind, view_binds};
ghost use Rattle.pst_bound_pools.specs.KeptBinds.{AreExplicitRows, IsAimed};

use crate::bound::{pool_bound, stands_in};
use crate::instance_table::InstanceTable;
use crate::pool_table::PoolTable;
use pst_base::{NameId, NoMemory, Place};
use pst_index::Index;
use pst_pool_binds::FoundBind;
use std::alloc::Global;
use std::collections::HashMap;

/// A reference or claim of an action type in an instance, and the instance in which a bind stands.
#[derive(Clone, Copy, PartialEq, Eq, Hash)]
pub struct TargetKey {
    /// The number of the instance in which the bind stands.
    pub from: u32,
    /// The number of the instance that it leads to.
    pub to: u32,
    /// The number of the action's name.
    pub action: u32,
    /// The number of the name of the reference or claim.
    pub need: u32,
}

/// A reference or claim of an action type in an instance.
#[derive(Clone, Copy, PartialEq, Eq, Hash)]
pub struct AimKey {
    /// The number of the instance.
    pub to: u32,
    /// The number of the action's name.
    pub action: u32,
    /// The number of the name of the reference or claim.
    pub need: u32,
}

/// The pools of the explicit binds of each reference or claim, in the order of the binds.
#[derive(Drop)]
pub struct ExplicitRows {
    pub(crate) rows: HashMap<TargetKey, Vec<u32>>,
    pub(crate) aimed: HashMap<AimKey, bool>,
}

// The key of a reference or claim.
fn target_key(from: u32, to: u32, action: NameId, need: NameId) -> TargetKey
    ensures { result ≡ BindRows.target_key from to action need }
{
    TargetKey {
        from,
        to,
        action: action.0,
        need: need.0,
    }
}

// What a key aims at.
fn aim_of(key: TargetKey) -> AimKey
    ensures { result ≡ BindRows.aim_of key }
{
    AimKey {
        to: key.to,
        action: key.action,
        need: key.need,
    }
}

// Begins the row of a key with a pool.
fn begin(
    alloc: Global,
    rows: &mut HashMap<TargetKey, Vec<u32>>,
    key: TargetKey,
    pool: u32,
) -> Result<(), NoMemory>
    requires { get same_target rows.old key ≡ None }
    ensures { OnOk result ((q : TargetKey) → numbers_in (get same_target rows.new q) ≡ numbers_in (get same_target rows.old q) ++ (if same_target q key then pool ∷ [] else [])) }
{
    let mut row = Vec::new(alloc);
    row.push(pool)?;
    rows.insert(key, row)?;
    Ok(())
}

// Adds a pool to the row of a key.
fn add_pool(
    alloc: Global,
    rows: &mut HashMap<TargetKey, Vec<u32>>,
    key: TargetKey,
    pool: u32,
) -> Result<(), NoMemory>
    ensures { OnOk result ((q : TargetKey) → numbers_in (get same_target rows.new q) ≡ numbers_in (get same_target rows.old q) ++ (if same_target q key then pool ∷ [] else [])) }
{
    if !rows.contains_key(&key) {
        return begin(alloc, rows, key, pool);
    }
    if let Some(row) = rows.get_mut(&key) {
        row.push(pool)?;
    }
    Ok(())
}

// Keeps that there is a row for what a key aims at.
fn aim(aimed: &mut HashMap<AimKey, bool>, key: AimKey) -> Result<(), NoMemory>
    ensures { OnOk result ((q : AimKey) → get same_aim aimed.new q ≡ (if same_aim q key then Some true else get same_aim aimed.old q)) }
{
    aimed.insert(key, true)?;
    Ok(())
}

// Adds a pool to the row of a key, and that there is such a row.
fn add(alloc: Global, found: &mut ExplicitRows, key: TargetKey, pool: u32) -> Result<(), NoMemory>
    requires { IsAimed found.old }
    ensures rows { OnOk result ((q : TargetKey) → numbers_in (get same_target found.new.rows q) ≡ numbers_in (get same_target found.old.rows q) ++ (if same_target q key then pool ∷ [] else [])) }
    ensures aimed { OnOk result (IsAimed found.new) }
{
    aim(&mut found.aimed, aim_of(key))?;
    add_pool(alloc, &mut found.rows, key, pool)
}

// Adds the pool of a bind in an instance.
fn add_in(
    alloc: Global,
    found: &mut ExplicitRows,
    components: &[Option<Place>],
    index: &Index,
    table: &InstanceTable,
    pools: &PoolTable,
    bind: &FoundBind,
    from: u32,
) -> Result<(), NoMemory>
    requires components { components.now ≡ map (home_place index.now) table.now }
    requires pools { pools.now ≡ Pools.pools index.now table.now }
    requires aimed { IsAimed found.old }
    ensures rows { OnOk result ((q : TargetKey) → numbers_in (get same_target found.new.rows q) ≡ numbers_in (get same_target found.old.rows q) ++ (if nat_eq q.from from then given index.now table.now q (view_bind bind.now) else [])) }
    ensures aimed { OnOk result (IsAimed found.new) }
{
    if !stands_in(components, index, table, bind.component, from) {
        return Ok(());
    }
    let Some(to) = table.led_to(from, bind.instances.as_slice()) else {
        return Ok(());
    };
    match pool_bound(index, table, pools, bind.component, bind.pool, from) {
        None => Ok(()),
        Some(pool) => add(
            alloc,
            found,
            target_key(from, to, bind.action.id, bind.need.id),
            pool,
        ),
    }
}

// Adds the pools of a bind, which stands in each instance of its component.
fn add_bind(
    alloc: Global,
    found: &mut ExplicitRows,
    components: &[Option<Place>],
    index: &Index,
    table: &InstanceTable,
    pools: &PoolTable,
    bind: &FoundBind,
) -> Result<(), NoMemory>
    requires components { components.now ≡ map (home_place index.now) table.now }
    requires pools { pools.now ≡ Pools.pools index.now table.now }
    requires aimed { IsAimed found.old }
    ensures rows { OnOk result ((q : TargetKey) → numbers_in (get same_target found.new.rows q) ≡ numbers_in (get same_target found.old.rows q) ++ given index.now table.now q (view_bind bind.now)) }
    ensures aimed { OnOk result (IsAimed found.new) }
{
    for at in 0..table.as_slice().len() {
        let Ok(from) = u32::try_from(at) else {
            return Err(NoMemory);
        };
        add_in(alloc, found, components, index, table, pools, bind, from)?;
    }
    Ok(())
}

impl ExplicitRows {
    /// The pools of explicit binds. `NoMemory` also comes where there are more than 2^32 instances.
    pub fn new(
        alloc: Global,
        components: &[Option<Place>],
        index: &Index,
        table: &InstanceTable,
        pools: &PoolTable,
        binds: &[FoundBind],
    ) -> Result<ExplicitRows, NoMemory>
        requires components { components.now ≡ map (home_place index.now) table.now }
        requires pools { pools.now ≡ Pools.pools index.now table.now }
        ensures rows { IfOk result (AreExplicitRows index.now table.now (view_binds binds.now)) }
        ensures aimed { IfOk result IsAimed }
    {
        let mut found = ExplicitRows {
            rows: HashMap::new(alloc),
            aimed: HashMap::new(alloc),
        };
        for bind in binds {
            add_bind(alloc, &mut found, components, index, table, pools, bind)?;
        }
        Ok(found)
    }

    /// Whether some bind leads to a reference or claim of an action type in an instance.
    pub fn is_aimed(&self, to: u32, action: NameId, need: NameId) -> bool
        requires { IsAimed self.now }
        ensures { result ≡ false → (from : ℕ) → numbers_in (get same_target self.now.rows (BindRows.target_key from to action need)) ≡ [] }
    {
        self.aimed
            .contains_key(&aim_of(target_key(0, to, action, need)))
    }

    /// Those that stand in an instance, and lead to another one and to a reference or claim of an
    /// action type there.
    pub fn at(&self, from: u32, to: u32, action: NameId, need: NameId) -> &[u32]
        ensures { result.now ≡ numbers_in (get same_target self.now.rows (BindRows.target_key from to action need)) }
    {
        match self.rows.get(&target_key(from, to, action, need)) {
            Some(row) => row.as_slice(),
            None => &[],
        }
    }
}
