//! Counts of the actions of each type.
ghost use Rattle.std.specs.Prelude.{◌≡◌, ◌≢◌, ◌<◌, ◌+◌, ◌^◌, ℕ, length, get_or, IfOk, OnOk};
ghost use Rattle.std.specs.List.{All};
ghost use Rattle.pst_scen.specs.declared.act.Act.{Act as ActRow};
ghost use Rattle.pst_sweep_table.specs.Counts.{AreCountsOf};
ghost use Rattle.pst_sweep_table.specs.Uses.{AreUses, with_use};

use crate::uses::Use;
use pst_base::NoMemory;
use pst_scen::Act;
use std::alloc::Global;

/// Adds one to the count of the type.
fn count_one(counts: &mut Vec<u32>, action: u32)
    requires inside { action < length counts.old.items }
    requires room { get_or counts.old.items action 0 + 1 < 2 ^ 32 }
    ensures long { length counts.new.items ≡ length counts.old.items }
    ensures here { get_or counts.new.items action 0 ≡ get_or counts.old.items action 0 + 1 }
    ensures others { (m : ℕ) → m ≢ action → get_or counts.new.items m 0 ≡ get_or counts.old.items m 0 }
{
    counts[action as usize] += 1;
}

/// How many of the actions are of each type, of so many types.
pub(crate) fn counts_of(alloc: Global, acts: &[Act], types: usize) -> Result<Vec<u32>, NoMemory>
    requires types { All (λ (act : ActRow). act.action < types) acts.now }
    requires few { length acts.now < 2 ^ 32 }
    ensures { IfOk result (λ counts. AreCountsOf acts.now types counts.items) }
{
    let mut counts = vec![in alloc; 0u32; types]?;
    for act in acts {
        count_one(&mut counts, act.action);
    }
    Ok(counts)
}

/// Adds a type, where it has an action.
fn add_use(used: &mut Vec<Use>, action: usize, count: u32) -> Result<(), NoMemory>
    ensures { OnOk result (used.new.items ≡ with_use used.old.items action count) }
{
    if count > 0 {
        used.push(Use { action, count })?;
    }
    Ok(())
}

/// The types that have an action, in order.
pub(crate) fn used_types(alloc: Global, counts: &[u32]) -> Result<Vec<Use>, NoMemory>
    ensures { IfOk result (λ used. AreUses counts.now (length counts.now) used.items) }
{
    let mut used = Vec::new(alloc);
    for (action, count) in counts.iter().enumerate() {
        add_use(&mut used, action, *count)?;
    }
    Ok(used)
}
