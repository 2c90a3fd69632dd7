//! Which claims can't claim one instance.
ghost use Rattle.std.specs.Prelude.{◌≡◌, ℕ, true, Some, IfSome, slice_get};
ghost use Rattle.pst_scen.specs.Order.{Together};
ghost use Rattle.pst_claim_rivals.specs.Rivals.{IsKnown, AreOnPool, AreRivals};

use crate::claims::OpenClaim;
use pst_nodes::stand_parallel;
use pst_scen::Scenario;

// Whether both claims are on one pool.
fn are_on_pool(one: &OpenClaim, other: &OpenClaim) -> bool
    ensures { result ≡ true → AreOnPool one.now other.now }
{
    match (one.pool, other.pool) {
        (Some(pool), Some(second)) => pool == second,
        _ => false,
    }
}

// Whether the two actions start together.
fn start_together(scenario: &Scenario, groups: &[u32], a: u32, b: u32) -> bool
    requires { IsKnown scenario.now groups.now }
    ensures { result ≡ true → Together scenario.now a b }
{
    let a = a as usize;
    let b = b as usize;
    if a >= groups.len() {
        return false;
    }
    if b >= groups.len() {
        return false;
    }
    groups[a] == groups[b]
}

/// Whether the two claims can't claim one instance. `groups` are the numbers of the actions' groups; `beside` says
/// whether both actions stand in a `parallel`.
pub fn are_rivals(
    scenario: &Scenario,
    groups: &[u32],
    one: &OpenClaim,
    other: &OpenClaim,
    beside: bool,
) -> bool
    requires { IsKnown scenario.now groups.now }
    ensures { result ≡ true → AreRivals scenario.now one.now other.now }
{
    if !are_on_pool(one, other) {
        return false;
    }
    if !one.lock && !other.lock {
        return false;
    }
    if one.act == other.act {
        return one.claim != other.claim;
    }
    if start_together(scenario, groups, one.act, other.act) {
        return true;
    }
    if !beside {
        return false;
    }
    stand_parallel(scenario, one.act, other.act)
}
