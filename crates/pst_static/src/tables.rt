//! Tables of a plan, in memory.
ghost use Rattle.std.specs.Prelude.{◌≡◌, IfOk, length, replicate, false};
ghost use Rattle.pst_book.specs.Tables.{AreNext, AreAllAwaited};
ghost use Rattle.pst_tallies.specs.Tallies.{counts_in, IsTally};

use pst_base::NoMemory;
use pst_book::fill_next;
use pst_scen::Plan;
use pst_tallies::count_awaited;
use std::alloc::Global;

/// So many numbers, each the given one.
pub(crate) fn numbers(alloc: Global, value: u32, count: usize) -> Result<Vec<u32>, NoMemory>
    ensures { IfOk result (λ v. v.items ≡ replicate count value) }
{
    Ok(Vec::from_elem(alloc, value, count)?)
}

/// So many marks, none of them set.
pub(crate) fn marks(alloc: Global, count: usize) -> Result<Vec<bool>, NoMemory>
    ensures { IfOk result (λ v. v.items ≡ replicate count false) }
{
    Ok(Vec::from_elem(alloc, false, count)?)
}

/// The next action of the same group, for each action.
pub(crate) fn next_members(alloc: Global, plan: &Plan) -> Result<Vec<u32>, NoMemory>
    ensures { IfOk result (λ v. AreNext plan.now.groups v.items) }
{
    let count = plan.len();
    let mut next = numbers(alloc, count, count as usize)?;
    let mut seen = numbers(alloc, count, count as usize)?;
    fill_next(plan, &mut next, &mut seen);
    Ok(next)
}

/// How many actions must come before each action.
pub(crate) fn all_awaited(alloc: Global, plan: &Plan) -> Result<Vec<u32>, NoMemory>
    ensures many { IfOk result (λ v. IsTally (length plan.now.groups) v.items) }
    ensures counted { IfOk result (λ v. AreAllAwaited plan.now (counts_in (length plan.now.groups) v.items)) }
{
    let count = plan.len() as usize;
    let mut awaited = numbers(alloc, 0, count + (count + 63) / 64)?;
    count_awaited(plan, &mut awaited);
    Ok(awaited)
}
