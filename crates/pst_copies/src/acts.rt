//! Copies of actions.
ghost use Rattle.std.specs.Prelude.{◌≡◌, IfOk};

use crate::values::copy_values;
use pst_base::{Items, NoMemory};
use pst_scen::{Act, Claimed, Filled};
use std::alloc::Global;

// The same reference.
fn copy_filled(alloc: Global, filled: &Filled) -> Result<Filled, NoMemory>
    ensures { IfOk result (λ copy. copy ≡ filled.now) }
{
    let values = copy_values(alloc, filled.values.as_slice())?;
    Ok(Filled {
        pool: filled.pool,
        flow: filled.flow,
        values,
        link: filled.link,
    })
}

// The same references.
fn copy_references(alloc: Global, references: &[Filled]) -> Result<Items<Filled>, NoMemory>
    ensures { IfOk result (λ copy. copy ≡ references.now) }
{
    let mut copy = Vec::new(alloc);
    for filled in references {
        copy.push(copy_filled(alloc, filled)?)?;
    }
    Ok(Items::from_vec(copy))
}

// The same claim.
fn copy_claimed(alloc: Global, claimed: &Claimed) -> Result<Claimed, NoMemory>
    ensures { IfOk result (λ copy. copy ≡ claimed.now) }
{
    let values = copy_values(alloc, claimed.values.as_slice())?;
    Ok(Claimed {
        pool: claimed.pool,
        lock: claimed.lock,
        instance: claimed.instance,
        values,
    })
}

// The same claims.
fn copy_claims(alloc: Global, claims: &[Claimed]) -> Result<Items<Claimed>, NoMemory>
    ensures { IfOk result (λ copy. copy ≡ claims.now) }
{
    let mut copy = Vec::new(alloc);
    for claimed in claims {
        copy.push(copy_claimed(alloc, claimed)?)?;
    }
    Ok(Items::from_vec(copy))
}

/// The same action.
pub fn copy_act(alloc: Global, act: &Act) -> Result<Act, NoMemory>
    ensures { IfOk result (λ copy. copy ≡ act.now) }
{
    let fields = copy_values(alloc, act.fields.as_slice())?;
    let references = copy_references(alloc, act.references.as_slice())?;
    let claims = copy_claims(alloc, act.claims.as_slice())?;
    Ok(Act {
        action: act.action,
        instance: act.instance,
        node: act.node,
        fields,
        references,
        claims,
    })
}

/// The same actions.
pub fn copy_acts(alloc: Global, acts: &[Act]) -> Result<Vec<Act>, NoMemory>
    ensures { IfOk result (λ copy. copy.items ≡ acts.now) }
{
    let mut copy = Vec::new(alloc);
    for act in acts {
        copy.push(copy_act(alloc, act)?)?;
    }
    Ok(copy)
}
