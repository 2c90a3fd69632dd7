//! The order of a scenario's actions, or a cycle in it.
ghost use Rattle.std.specs.Prelude.{◌≡◌, ◌<◌, ℕ, length, get_or, IfOk};
ghost use Rattle.pst_scen.specs.Plans.{IsGroupNumber};
ghost use Rattle.pst_order.specs.Built.{IsBuilt};
ghost use Rattle.pst_graph.specs.Ordered.{IsOrderOf};

use crate::rows::direct_rows;
use pst_base::NoMemory;
use pst_scen::Scenario;
use pst_square::{Closing, closed_rows};
use std::alloc::Global;

/// The square of the pairs of which the first must come before the second, or the least action that
/// must come before itself.
pub(crate) fn must_rows(
    alloc: Global,
    scenario: &Scenario,
    groups: &[u32],
    count: u32,
) -> Result<Closing, NoMemory>
    requires built { IsBuilt scenario.now }
    requires many { length groups.now ≡ length scenario.now.actions }
    requires numbers { (c : ℕ) → c < length scenario.now.actions → IsGroupNumber scenario.now c (get_or groups.now c 0) }
    requires count { count ≡ length scenario.now.actions }
    ensures { IfOk result (IsOrderOf scenario.now) }
{
    let direct = direct_rows(alloc, scenario, groups, count)?;
    closed_rows(alloc, &direct)
}
