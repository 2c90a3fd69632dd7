//! Squares of the pairs of actions that are related.
ghost use Rattle.std.specs.Prelude.{◌≡◌, ◌↔◌, ◌<◌, ◌*◌, ◌^◌, ℕ, length, get_or, IfOk};
ghost use Rattle.pst_scen.specs.Conflicts.{Conflict};
ghost use Rattle.pst_scen.specs.Plans.{IsGroupNumber};
ghost use Rattle.pst_scen.specs.Rows.{IsSquare, Has};
ghost use Rattle.pst_scen.specs.Order.{Direct};
ghost use Rattle.pst_order.specs.Built.{IsBuilt};
ghost use Rattle.pst_graph.specs.Grouping.{MustDirectly};
ghost use Rattle.pst_square.specs.Squares.{Adds};

use crate::named::add_named;
use crate::replaced::add_replaced;
use crate::runs::add_conflicts;
use crate::usage::uses_of;
use pst_base::NoMemory;
use pst_nodes::{Tables, add_behinds};
use pst_scen::{Rows, Scenario};
use pst_square::{Square, spread};
use std::alloc::Global;

/// The square of the pairs of actions that conflict.
pub(crate) fn conflict_rows(
    alloc: Global,
    scenario: &Scenario,
    count: u32,
) -> Result<Rows, NoMemory>
    requires { count ≡ length scenario.now.actions }
    ensures { IfOk result (λ rows. (rows.size ≡ length scenario.now.actions) × IsSquare rows × ((a b : ℕ) → a < length scenario.now.actions → b < length scenario.now.actions → Has rows a b ↔ Conflict scenario.now a b)) }
{
    let uses = uses_of(alloc, scenario, count)?;
    let mut square = Square::new(alloc, count)?;
    add_conflicts(alloc, &mut square, uses, count)?;
    Ok(square.into_rows())
}

/// Adds the pairs of which the first is a direct cause for the second.
fn add_causes(
    alloc: Global,
    square: &mut Square,
    scenario: &Scenario,
    count: u32,
) -> Result<(), NoMemory>
    requires built { IsBuilt scenario.now }
    requires count { count ≡ length scenario.now.actions }
    requires size { square.old.size ≡ length scenario.now.actions }
    ensures { IfOk result (λ u. Adds square.old square.new (Direct scenario.now)) }
{
    let nodes = scenario.nodes.as_slice();
    let tables = Tables::new(alloc, nodes)?;
    add_behinds(square, nodes, &tables, count);
    add_named(square, scenario, count);
    add_replaced(alloc, square, scenario, count)?;
    Ok(())
}

/// The square of the pairs of which the first is a direct cause for a member of the second's group.
pub(crate) fn direct_rows(
    alloc: Global,
    scenario: &Scenario,
    groups: &[u32],
    count: u32,
) -> Result<Rows, NoMemory>
    requires built { IsBuilt scenario.now }
    requires many { length groups.now ≡ length scenario.now.actions }
    requires numbers { (c : ℕ) → c < length scenario.now.actions → IsGroupNumber scenario.now c (get_or groups.now c 0) }
    requires count { count ≡ length scenario.now.actions }
    ensures { IfOk result (λ rows. (rows.size ≡ length scenario.now.actions) × IsSquare rows × ((a b : ℕ) → a < length scenario.now.actions → b < length scenario.now.actions → Has rows a b ↔ MustDirectly scenario.now a b)) }
{
    let mut square = Square::new(alloc, count)?;
    add_causes(alloc, &mut square, scenario, count)?;
    spread(alloc, &mut square, groups, count)?;
    Ok(square.into_rows())
}
