//! Lists of the uses of resource instances and state pools.
ghost use Rattle.std.specs.Prelude.{◌≡◌, ◌⊎◌, ◌≤◌, ◌<◌, ◌+◌, ◌↔◌, ℕ, length, IfOk, MatchOption};
ghost use Rattle.pst_scen.specs.Flows.{IsAct};
ghost use Rattle.pst_graph.specs.Uses.{IsClaimUse, IsStateUse, IsUseOfClaims, IsUseOfReferences, IsUse, Listed, Lengthens, HasClaims, HasReferences, AreUses};

use crate::cause::act_at;
use crate::uses::Use;
use pst_base::NoMemory;
use pst_scen::{Act, Claimed, Filled, Flow, Scenario};
use std::alloc::Global;

/// The use that the claim is.
fn use_of_claim(claimed: &Claimed, a: u32) -> Use
    ensures { IsClaimUse claimed.now a result }
{
    Use {
        act: a,
        state: false,
        pool: claimed.pool,
        instance: claimed.instance,
        alone: claimed.lock,
    }
}

/// The use that the reference is, where it is one to a state pool.
fn use_of_reference(filled: &Filled, a: u32) -> Option<Use>
    ensures { MatchOption result ((filled.now.flow ≡ Flow.StateIn) ⊎ (filled.now.flow ≡ Flow.StateOut) → ⊥) (IsStateUse filled.now a) }
{
    let alone = match filled.flow {
        Flow::StateIn => false,
        Flow::StateOut => true,
        _ => return None,
    };
    Some(Use {
        act: a,
        state: true,
        pool: filled.pool,
        instance: 0,
        alone,
    })
}

/// Appends the use that the claim is.
fn push_claim(uses: &mut Vec<Use>, claimed: &Claimed, a: u32) -> Result<(), NoMemory>
    ensures { IfOk result (λ u. Lengthens uses.old.items uses.new.items (IsClaimUse claimed.now a) × Listed uses.new.items (IsClaimUse claimed.now a)) }
{
    uses.push(use_of_claim(claimed, a))?;
    Ok(())
}

/// Appends the use that the reference is, where it is one to a state pool.
fn push_reference(uses: &mut Vec<Use>, filled: &Filled, a: u32) -> Result<(), NoMemory>
    ensures { IfOk result (λ u. Lengthens uses.old.items uses.new.items (IsStateUse filled.now a) × ((filled.now.flow ≡ Flow.StateIn) ⊎ (filled.now.flow ≡ Flow.StateOut) → Listed uses.new.items (IsStateUse filled.now a))) }
{
    let Some(one) = use_of_reference(filled, a) else {
        return Ok(());
    };
    uses.push(one)?;
    Ok(())
}

/// Appends the uses that the claims are.
fn push_claims(uses: &mut Vec<Use>, claims: &[Claimed], a: u32) -> Result<(), NoMemory>
    ensures { IfOk result (λ u. Lengthens uses.old.items uses.new.items (IsUseOfClaims claims.now a) × HasClaims uses.new.items claims.now a (length claims.now)) }
{
    for i in 0..claims.len() {
        push_claim(uses, &claims[i], a)?;
    }
    Ok(())
}

/// Appends the uses that the references are.
fn push_references(uses: &mut Vec<Use>, references: &[Filled], a: u32) -> Result<(), NoMemory>
    ensures { IfOk result (λ u. Lengthens uses.old.items uses.new.items (IsUseOfReferences references.now a) × HasReferences uses.new.items references.now a (length references.now)) }
{
    for i in 0..references.len() {
        push_reference(uses, &references[i], a)?;
    }
    Ok(())
}

/// Appends the uses of the action.
fn push_uses(uses: &mut Vec<Use>, scenario: &Scenario, a: u32) -> Result<(), NoMemory>
    requires a_in { a < length scenario.now.actions }
    requires before { AreUses scenario.now uses.old.items a }
    ensures { IfOk result (λ u. AreUses scenario.now uses.new.items (a + 1)) }
{
    let act = act_at(scenario, a);
    push_claims(uses, act.claims.as_slice(), a)?;
    push_references(uses, act.references.as_slice(), a)?;
    Ok(())
}

/// The uses of all actions.
pub(crate) fn uses_of(alloc: Global, scenario: &Scenario, count: u32) -> Result<Vec<Use>, NoMemory>
    requires { count ≡ length scenario.now.actions }
    ensures { IfOk result (λ uses. AreUses scenario.now uses.items count) }
{
    let mut uses = Vec::new(alloc);
    for a in 0..count {
        push_uses(&mut uses, scenario, a)?;
    }
    Ok(uses)
}
