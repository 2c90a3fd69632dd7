//! The state pools that actions use.
ghost use Rattle.std.specs.Prelude.{◌≡◌, ◌++◌, ◌||◌, ◌<◌, ℕ, IfOk, OnOk, length, get_or, false, nat_eq, map};
ghost use Rattle.std.specs.List.{list_any};
ghost use Rattle.pst_model.specs.ModelView.{view_model};
ghost use Rattle.pst_legal.specs.Blanks.{refers_to, used_state_pools};
ghost use Rattle.pst_legal.specs.ValueReading.{empty_first};
ghost use Rattle.pst_blanks.specs.Blanks.{pool_if};

use crate::parts::{is_state_pool, narrow};
use pst_base::{Items, NoMemory};
use pst_model::Model;
use pst_scen::{Act, Filled, First};
use std::alloc::Global;

// Marks a pool, where there is one of that number.
fn mark(marks: &mut Vec<bool>, pool: u32)
    ensures long { length marks.new.items ≡ length marks.old.items }
    ensures marked { (p : ℕ) → p < length marks.old.items → get_or marks.new.items p false ≡ (get_or marks.old.items p false || nat_eq pool p) }
{
    if (pool as usize) < marks.len() {
        marks[pool as usize] = true;
    }
}

// Marks the pools of references.
fn mark_in(marks: &mut Vec<bool>, references: &[Filled])
    ensures long { length marks.new.items ≡ length marks.old.items }
    ensures marked { (p : ℕ) → p < length marks.old.items → get_or marks.new.items p false ≡ (get_or marks.old.items p false || list_any (λ filled. nat_eq filled.pool p) references.now) }
{
    for filled in references {
        mark(marks, filled.pool);
    }
}

// Which pools actions refer to, of so many.
fn marks(alloc: Global, acts: &[Act], count: usize) -> Result<Vec<bool>, NoMemory>
    ensures long { IfOk result (λ marks. length marks.items ≡ count) }
    ensures marked { IfOk result (λ marks. (p : ℕ) → p < count → get_or marks.items p false ≡ list_any (refers_to p) acts.now) }
{
    let mut marks = vec![in alloc; false; count]?;
    for act in acts {
        mark_in(&mut marks, act.references.as_slice());
    }
    Ok(marks)
}

// Adds a pool, if it is used.
fn add_pool(pools: &mut Vec<u32>, pool: usize, used: bool) -> Result<(), NoMemory>
    ensures { OnOk result (pools.new.items ≡ pools.old.items ++ pool_if used pool) }
{
    if used {
        pools.push(narrow(pool)?)?;
    }
    Ok(())
}

/// The state pools that a reference of an action has, in order.
pub(crate) fn used_pools(alloc: Global, model: &Model, acts: &[Act]) -> Result<Vec<u32>, NoMemory>
    ensures { IfOk result (λ pools. pools.items ≡ used_state_pools (view_model model.now) acts.now) }
{
    let marks = marks(alloc, acts, model.pools.len())?;
    let mut pools = Vec::new(alloc);
    for pool in 0..marks.len() {
        let used = is_state_pool(model, pool) & marks[pool];
        add_pool(&mut pools, pool, used)?;
    }
    Ok(pools)
}

/// A first object without values yet for each of these pools.
pub(crate) fn firsts(alloc: Global, pools: &[u32]) -> Result<Items<First>, NoMemory>
    ensures { IfOk result (λ firsts. firsts ≡ map empty_first pools.now) }
{
    let mut firsts = Vec::with_capacity(alloc, pools.len())?;
    for pool in pools {
        firsts.push(First {
            pool: *pool,
            values: Items::empty(alloc),
        })?;
    }
    Ok(Items::from_vec(firsts))
}
