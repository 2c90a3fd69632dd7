//! The pools of instances, by number.
ghost use Rattle.std.specs.Prelude.{◌≡◌, ◌++◌, ℕ, List, nat_eq, ◌&&◌, IfOk, OnOk, map, position};
ghost use Rattle.std.specs.List.{position_from};
ghost use Rattle.std.specs.HashMap.{get};
ghost use Rattle.pst_ast.specs.Sorts.{same_place};
ghost use Rattle.pst_ast.specs.declared.scope_declaration.Declaration.{Declaration as Declared};
ghost use Rattle.pst_tree.specs.declared.rows.Member.TheVariants as member;
ghost use Rattle.pst_tree.specs.Kept.{AreRows};
ghost use Rattle.pst_bound_pools.specs.Pools;
ghost use Rattle.pst_bound_pools.specs.Pools.{pools_at};
ghost use Rattle.pst_bound_pools.specs.Children.{or_number};
ghost use Rattle.pst_bound_pools.specs.ListedPools;
ghost use Rattle.pst_bound_pools.specs.ListedPools.{is_pool_at, same_pool, view_pools};

use pst_ast::{Declaration, Instance, Scope};
use pst_base::NoMemory;
use pst_index::Index;
use pst_tree::Rows;
use std::alloc::Global;
use std::collections::HashMap;
use std::marker::Model;

/// A pool of an instance.
#[derive(Clone, Copy)]
pub struct ListedPool {
    /// The number of the instance.
    pub instance: u32,
    /// The pool as it is declared.
    pub declaration: Declaration,
}

/// An instance and the place of a declared pool.
#[derive(Clone, Copy, PartialEq, Eq, Hash)]
pub struct PoolKey {
    /// The number of the instance.
    pub instance: u32,
    /// The file of the place.
    pub file: u32,
    /// Its line.
    pub line: u32,
    /// Its column.
    pub column: u32,
}

/// Pools of instances, where the number of a declared pool in an instance is found at once.
///
/// Contracts see the list of the pools, each with the number of its instance.
#[derive(Drop)]
pub struct PoolTable {
    pools: Vec<ListedPool>,
    numbers: HashMap<PoolKey, u32>,
}

impl Model for PoolTable {
    ghost use Rattle.std.specs.Prelude.{ℕ, List};
    ghost use Rattle.pst_ast.specs.declared.scope_declaration.Declaration.{Declaration};
    ghost use Rattle.pst_bound_pools.specs.ListedPools.{view_pools};
    ghost use Rattle.pst_bound_pools.specs.Tables.{IsPoolTable};

    ghost Value = { List (ℕ × Declaration) };

    ghost view = { λ t. view_pools t.pools.items };

    ghost invariant = { IsPoolTable };
}

/// The component of an instance.
pub fn component_of(index: &Index, instance: &Instance) -> Option<Declaration>
    ensures { result ≡ Pools.component_of index.now instance.now }
{
    index.look_up(Scope::Files, instance.component)
}

// Adds the pools of an instance.
fn add_pools(found: &mut Vec<ListedPool>, number: u32, row: &[Declaration]) -> Result<(), NoMemory>
    ensures { OnOk result (view_pools found.new.items ≡ view_pools found.old.items ++ map (λ (d : Declared). (number, d)) row.now) }
{
    for declaration in row {
        found.push(ListedPool {
            instance: number,
            declaration: *declaration,
        })?;
    }
    Ok(())
}

// Adds the pools of an instance, whose component declares them.
fn add_instance(
    found: &mut Vec<ListedPool>,
    index: &Index,
    rows: &Rows,
    number: u32,
    instance: &Instance,
) -> Result<(), NoMemory>
    requires { AreRows member.Pool index.now rows.now }
    ensures { OnOk result (view_pools found.new.items ≡ view_pools found.old.items ++ pools_at index.now (number, instance.now)) }
{
    match component_of(index, instance) {
        None => Ok(()),
        Some(component) => add_pools(found, number, rows.at(component.name.place)),
    }
}

// The pools by instance and then in order of declaration.
fn list_pools(
    alloc: Global,
    index: &Index,
    rows: &Rows,
    instances: &[Instance],
) -> Result<Vec<ListedPool>, NoMemory>
    requires { AreRows member.Pool index.now rows.now }
    ensures { IfOk result (λ found. view_pools found.items ≡ Pools.pools index.now instances.now) }
{
    let mut found = Vec::new(alloc);
    for at in 0..instances.len() {
        let Ok(number) = u32::try_from(at) else {
            return Err(NoMemory);
        };
        add_instance(&mut found, index, rows, number, &instances[at])?;
    }
    Ok(found)
}

// The key of a declared pool in an instance.
fn pool_key(instance: u32, declaration: &Declaration) -> PoolKey
    ensures { result ≡ ListedPools.pool_key instance declaration.now }
{
    PoolKey {
        instance,
        file: declaration.name.place.file,
        line: declaration.name.place.line,
        column: declaration.name.place.column,
    }
}

// Keeps a number at its key, where nothing is there yet.
fn keep(numbers: &mut HashMap<PoolKey, u32>, key: PoolKey, number: u32) -> Result<(), NoMemory>
    ensures { OnOk result ((q : PoolKey) → get same_pool numbers.new q ≡ or_number (get same_pool numbers.old q) (same_pool q key) number) }
{
    if !numbers.contains_key(&key) {
        numbers.insert(key, number)?;
    }
    Ok(())
}

// For each key the number of the first pool of it.
fn numbers_of(alloc: Global, pools: &[ListedPool]) -> Result<HashMap<PoolKey, u32>, NoMemory>
    ensures { IfOk result (λ m. (q : PoolKey) → get same_pool m q ≡ position_from (is_pool_at q) 0 (view_pools pools.now)) }
{
    let mut numbers = HashMap::new(alloc);
    for at in 0..pools.len() {
        let Ok(number) = u32::try_from(at) else {
            return Err(NoMemory);
        };
        keep(
            &mut numbers,
            pool_key(pools[at].instance, &pools[at].declaration),
            number,
        )?;
    }
    Ok(numbers)
}

impl PoolTable {
    /// The pools of instances by instance and then in order of declaration, given what the types
    /// declare as pools. `NoMemory` also comes where there are more than 2^32.
    pub fn new(
        alloc: Global,
        index: &Index,
        rows: &Rows,
        instances: &[Instance],
    ) -> Result<PoolTable, NoMemory>
        requires { AreRows member.Pool index.now rows.now }
        ensures { IfOk result (λ table. table ≡ Pools.pools index.now instances.now) }
    {
        let pools = list_pools(alloc, index, rows, instances)?;
        let numbers = numbers_of(alloc, pools.as_slice())?;
        Ok(PoolTable { pools, numbers })
    }

    /// The number of a declared pool in an instance: of several the first.
    pub fn number(&self, instance: u32, pool: &Declaration) -> Option<u32>
        ensures { result ≡ position (λ (x : ℕ × Declared). nat_eq x.0 instance && same_place x.1.name.place pool.now.name.place) self.now }
    {
        self.numbers.get(&pool_key(instance, pool)).copied()
    }

    /// The pools.
    pub fn as_slice(&self) -> &[ListedPool]
        ensures { view_pools result.now ≡ self.now }
    {
        self.pools.as_slice()
    }
}
