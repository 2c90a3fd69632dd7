//! The plan by which a run waits.
ghost use Rattle.std.specs.Prelude.{◌≡◌, IfOk};
ghost use Rattle.pst_book.specs.Waiting.{IsWaiting};

use pst_base::{Items, NoMemory};
use pst_reduction::reduced;
use pst_scen::{Plan, Rows};
use std::alloc::Global;

// The number of each action's group.
fn groups_of(alloc: Global, plan: &Plan) -> Result<Vec<u32>, NoMemory>
    ensures { IfOk result (λ groups. groups.items ≡ plan.now.groups) }
{
    let mut groups = Vec::with_capacity(alloc, plan.len() as usize)?;
    for act in 0..plan.len() {
        groups.push(plan.group(act))?;
    }
    Ok(groups)
}

// The same square.
fn copied(alloc: Global, rows: &Rows) -> Result<Rows, NoMemory>
    ensures { IfOk result (λ copy. copy ≡ rows.now) }
{
    let words = Vec::from_slice(alloc, rows.words.as_slice())?;
    Ok(Rows {
        size: rows.size,
        words: Items::from_vec(words),
    })
}

/// The plan without the pairs that lead through a third action, of those of which one must come before
/// the other. Who waits for the actions before it that are left waits for all.
pub(crate) fn waiting(alloc: Global, plan: &Plan) -> Result<Plan, NoMemory>
    ensures { IfOk result (IsWaiting plan.now) }
{
    let _count = plan.len();
    let must = reduced(alloc, plan.must_rows())?;
    let groups = groups_of(alloc, plan)?;
    let conflict = copied(alloc, plan.conflict_rows())?;
    Ok(Plan::of_rows_in(alloc, groups, must, conflict)?)
}
