//! The uses of state pools by an action, as claims.
ghost use Rattle.std.specs.Prelude.{◌≡◌, Some, All, true, IfOk};
ghost use Rattle.pst_scen.specs.declared.act.Link.{Link};
ghost use Rattle.pst_scen.specs.Flows.{Writes};
ghost use Rattle.pst_link_order.specs.Reasons.{IsUse};

use crate::named::{is_state, is_write, reference_of, references_of};
use pst_base::{Items, NoMemory};
use pst_scen::{Claimed, Filled, Scenario};
use std::alloc::Global;

/// Whether a reference of the action writes the pool.
fn writes_pool(scenario: &Scenario, act: u32, pool: u32) -> bool
    ensures { result ≡ true → (to : Link) × Writes scenario.now act pool to }
{
    for reference in 0..references_of(scenario, act).len() {
        let Some(filled) = reference_of(scenario, act, reference) else {
            return false;
        };
        if is_write(filled.flow) && filled.pool == pool {
            return true;
        }
    }
    false
}

/// Whether one of the references uses the pool.
fn use_pool(references: &[Filled], pool: u32) -> bool {
    references
        .iter()
        .any(|filled| filled.pool == pool && is_state(filled.flow))
}

/// Adds the use that the reference is, where none before it uses the same pool.
fn add_use(
    alloc: Global,
    found: &mut Vec<Claimed>,
    scenario: &Scenario,
    act: u32,
    reference: usize,
) -> Result<(), NoMemory>
    requires { All (IsUse scenario.now act) found.old.items }
    ensures { IfOk result (λ u. All (IsUse scenario.now act) found.new.items) }
{
    let Some(filled) = reference_of(scenario, act, reference) else {
        return Ok(());
    };
    if !is_state(filled.flow) {
        return Ok(());
    }
    let before = references_of(scenario, act).get(..reference);
    if before.is_some_and(|before| use_pool(before, filled.pool)) {
        return Ok(());
    }
    let lock = writes_pool(scenario, act, filled.pool);
    found.push(Claimed {
        pool: filled.pool,
        lock,
        instance: 0,
        values: Items::empty(alloc),
    })?;
    Ok(())
}

/// The uses of state pools by the action, one of each pool, by lock where it writes the pool.
pub(crate) fn uses_of(
    alloc: Global,
    scenario: &Scenario,
    act: u32,
) -> Result<Vec<Claimed>, NoMemory>
    ensures { IfOk result (λ found. All (IsUse scenario.now act) found.items) }
{
    let mut found = Vec::new(alloc);
    for reference in 0..references_of(scenario, act).len() {
        add_use(alloc, &mut found, scenario, act, reference)?;
    }
    Ok(found)
}
