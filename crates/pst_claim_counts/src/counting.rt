//! Pools that have too few instances.
ghost use Rattle.std.specs.Prelude.{◌≡◌, ◌<◌, ℕ, true, length, IfOk, IfSome};
ghost use Rattle.pst_model.specs.ModelView.{view_model};
ghost use Rattle.pst_scen.specs.Laws.{IsPreorder, HasOneLeafEach};
ghost use Rattle.pst_order.specs.Built.{IsBuilt};
ghost use Rattle.pst_claim_rivals.specs.Claims.{open_claims};
ghost use Rattle.pst_claim_counts.specs.Counts.{AreTooMany, HasSize};
ghost use Rattle.pst_claim_counts.specs.Needs.{SlotsMeet, AreOrdered, AreLeafSlots, AreMore};

use crate::needs::{exceeding, own_needs};
use crate::nodes::raise_all;
use crate::slots::{group_slots, leaf_slots};
use pst_base::NoMemory;
use pst_claim_rivals::{OpenClaim, claims_are_listed_once, claims_are_theirs, open_claims};
use pst_graph::groups_of;
use pst_model::Model;
use pst_scen::Scenario;
use std::alloc::Global;

// For each action its leaf, and its group.
#[derive(Drop)]
struct Slots {
    leaves: Vec<Option<u32>>,
    groups: Vec<Option<u32>>,
}

// So many pools are looked at.
const MOST_POOLS: u32 = 64;

// How many claims each pool has.
fn counts_of(alloc: Global, claims: &[OpenClaim], pools: usize) -> Result<Vec<u32>, NoMemory> {
    let mut counts = vec![in alloc; 0u32; pools]?;
    for claim in claims {
        if let Some(pool) = claim.pool {
            let pool = pool as usize;
            if pool < counts.len() {
                counts[pool] = counts[pool].saturating_add(1);
            }
        }
    }
    Ok(counts)
}

// Whether a pool has at most as many claims as instances.
fn is_wide(counts: &[u32], pool: u32, size: u32) -> bool {
    match counts.get(pool as usize) {
        None => true,
        Some(count) => *count <= size,
    }
}

// Whether the actions of one slot need more instances of the pool than there are.
fn is_short_together(
    alloc: Global,
    scenario: &Scenario,
    slots: &[Option<u32>],
    claims: &[OpenClaim],
    pool: u32,
    size: u32,
) -> Result<bool, NoMemory>
    requires ordered { AreOrdered claims.now }
    requires meet { SlotsMeet scenario.now slots.now }
    ensures { IfOk result (λ r. r ≡ true → AreMore scenario.now claims.now pool size) }
{
    let needs = own_needs(alloc, slots, slots.len(), claims, pool)?;
    match exceeding(&needs, size) {
        None => Ok(false),
        Some(_slot) => Ok(true),
    }
}

// Whether the actions below a node do.
fn is_short_below(
    alloc: Global,
    scenario: &Scenario,
    leaves: &[Option<u32>],
    claims: &[OpenClaim],
    pool: u32,
    size: u32,
) -> Result<bool, NoMemory>
    requires ordered { AreOrdered claims.now }
    requires preorder { IsPreorder scenario.now.nodes }
    requires one_leaf { HasOneLeafEach scenario.now.nodes }
    requires leaves { AreLeafSlots scenario.now.nodes leaves.now }
    ensures { IfOk result (λ r. r ≡ true → AreMore scenario.now claims.now pool size) }
{
    let nodes = scenario.nodes.as_slice();
    let mut needs = own_needs(alloc, leaves, nodes.len(), claims, pool)?;
    raise_all(&mut needs, nodes);
    match exceeding(&needs, size) {
        None => Ok(false),
        Some(_slot) => Ok(true),
    }
}

// Whether the pool has too few instances for claims below a node, or of actions of one group.
fn is_short(
    alloc: Global,
    scenario: &Scenario,
    claims: &[OpenClaim],
    slots: &Slots,
    pool: u32,
    size: u32,
) -> Result<bool, NoMemory>
    requires ordered { AreOrdered claims.now }
    requires preorder { IsPreorder scenario.now.nodes }
    requires one_leaf { HasOneLeafEach scenario.now.nodes }
    requires leaves { AreLeafSlots scenario.now.nodes slots.now.leaves.items }
    requires meet { SlotsMeet scenario.now slots.now.groups.items }
    ensures { IfOk result (λ r. r ≡ true → AreMore scenario.now claims.now pool size) }
{
    if is_short_below(alloc, scenario, &slots.leaves, claims, pool, size)? {
        return Ok(true);
    }
    is_short_together(alloc, scenario, &slots.groups, claims, pool, size)
}

// The size of the pool of that number.
fn size_at(model: &Model, pool: u32) -> Option<u32>
    ensures { IfSome result (HasSize (view_model model.now) pool) }
{
    match model.pools.get(pool as usize) {
        None => None,
        Some(pool) => Some(pool.size),
    }
}

// Whether one of the pools has too few instances.
fn is_some_short(
    alloc: Global,
    model: &Model,
    scenario: &Scenario,
    claims: &[OpenClaim],
    slots: &Slots,
) -> Result<bool, NoMemory>
    requires claims { claims.now ≡ open_claims (view_model model.now) scenario.now.actions }
    requires preorder { IsPreorder scenario.now.nodes }
    requires one_leaf { HasOneLeafEach scenario.now.nodes }
    requires leaves { AreLeafSlots scenario.now.nodes slots.now.leaves.items }
    requires meet { SlotsMeet scenario.now slots.now.groups.items }
    ensures { IfOk result (λ r. r ≡ true → AreTooMany (view_model model.now) scenario.now) }
{
    claims_are_theirs();
    claims_are_listed_once();
    let counts = counts_of(alloc, claims, model.pools.len())?;
    let mut looked = 0;
    for pool in 0..model.pools.len() {
        let Ok(pool) = u32::try_from(pool) else {
            return Ok(false);
        };
        let Some(size) = size_at(model, pool) else {
            return Ok(false);
        };
        if looked < MOST_POOLS && !is_wide(&counts, pool, size) {
            looked += 1;
            if is_short(alloc, scenario, claims, slots, pool, size)? {
                return Ok(true);
            }
        }
    }
    Ok(false)
}

/// Whether some claims on a pool, of which each two are rivals, are more than the pool has instances: then no scenario
/// that goes on from this one is legal. Of more than 64 pools with more claims than instances it looks at the first 64
/// alone.
pub fn has_too_few_instances(
    alloc: Global,
    model: &Model,
    scenario: &Scenario,
) -> Result<bool, NoMemory>
    requires { IsBuilt scenario.now }
    ensures { IfOk result (λ r. r ≡ true → AreTooMany (view_model model.now) scenario.now) }
{
    let claims = open_claims(alloc, model, scenario.actions.as_slice())?;
    let count = scenario.actions.as_slice().len() as u32;
    let groups = groups_of(alloc, scenario, count)?;
    let slots = Slots {
        leaves: leaf_slots(alloc, scenario)?,
        groups: group_slots(alloc, &groups)?,
    };
    is_some_short(alloc, model, scenario, &claims, &slots)
}
