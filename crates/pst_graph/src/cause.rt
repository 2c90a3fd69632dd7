//! What keeps two actions apart.
ghost use Rattle.std.specs.Prelude.{◌≡◌, ◌≢◌, ◌↔◌, ◌<◌, length, IsTrue};
ghost use Rattle.pst_scen.specs.Flows.{IsAct};
ghost use Rattle.pst_scen.specs.Conflicts.{Clash, Conflict};
ghost use Rattle.pst_scen.specs.Plans.{Contend, ClashesAlone};
ghost use Rattle.pst_graph.specs.Acts.{Touches};
ghost use Rattle.pst_graph.specs.Links.{HasDispute};

use crate::links::{has_dispute, has_own_dispute, writes_used};
use pst_scen::{Act, Scenario};

/// The action of that number.
pub(crate) fn act_at(scenario: &Scenario, a: u32) -> &Act
    requires { a < length scenario.now.actions }
    ensures { IsAct scenario.now a result.now }
{
    &scenario.actions.as_slice()[a as usize]
}

/// Whether claims of the two actions dispute each other.
fn acts_contend(one: &Act, other: &Act) -> bool
    ensures { IsTrue result ↔ HasDispute one.now.claims other.now.claims }
{
    has_dispute(one.claims.as_slice(), other.claims.as_slice())
}

/// Whether both claim one instance of one resource pool, and at least one by lock.
pub(crate) fn contend(scenario: &Scenario, a: u32, b: u32) -> bool
    requires a_in { a < length scenario.now.actions }
    requires b_in { b < length scenario.now.actions }
    ensures { IsTrue result ↔ Contend scenario.now a b }
{
    acts_contend(act_at(scenario, a), act_at(scenario, b))
}

/// Whether two claims of the action on one instance aren't both shares.
pub(crate) fn clashes_alone(scenario: &Scenario, a: u32) -> bool
    requires { a < length scenario.now.actions }
    ensures { IsTrue result ↔ ClashesAlone scenario.now a }
{
    has_own_dispute(act_at(scenario, a).claims.as_slice())
}

/// Whether one of the two actions writes a state pool that the other uses.
fn touches(one: &Act, other: &Act) -> bool
    ensures { IsTrue result ↔ Touches one.now other.now }
{
    if writes_used(one.references.as_slice(), other.references.as_slice()) {
        return true;
    }
    writes_used(other.references.as_slice(), one.references.as_slice())
}

/// Whether the two actions clash.
fn clashes(scenario: &Scenario, a: u32, b: u32) -> bool
    requires a_in { a < length scenario.now.actions }
    requires b_in { b < length scenario.now.actions }
    ensures { IsTrue result ↔ Clash scenario.now a b }
{
    if contend(scenario, a, b) {
        return true;
    }
    touches(act_at(scenario, a), act_at(scenario, b))
}

/// Whether the two actions conflict.
pub(crate) fn conflicts(scenario: &Scenario, a: u32, b: u32) -> bool
    requires a_in { a < length scenario.now.actions }
    requires b_in { b < length scenario.now.actions }
    ensures { IsTrue result ↔ Conflict scenario.now a b }
{
    if a == b {
        return false;
    }
    clashes(scenario, a, b)
}
