//! Claims of which the instance isn't known yet.
ghost use Rattle.std.specs.Prelude.{◌≡◌, ◌+◌, ◌++◌, IfOk, OnOk, map, flat_map, slice_get};
ghost use Rattle.std.specs.List.{enumerate_from};
ghost use Rattle.pst_model.specs.Served.{pool_in};
ghost use Rattle.pst_model.specs.ModelView.{view_model};
ghost use Rattle.pst_legal.specs.Types.{type_of, served_claim};
ghost use Rattle.pst_legal.specs.Blanks.{claims_of};
ghost use Rattle.pst_claim_rivals.specs.Claims.{open_claim, claims_in, open_claims};

use pst_base::NoMemory;
use pst_model::{Claim, Model, Serve};
use pst_scen::Act;
use std::alloc::Global;

/// A claim of an action, before it is known which instance it claims.
#[derive(Clone, Copy, Debug, PartialEq, Eq)]
pub struct OpenClaim {
    /// The action.
    pub act: u32,
    /// The number of the claim in the action.
    pub claim: u32,
    /// The pool that serves it, if there is one.
    pub pool: Option<u32>,
    /// Whether it locks the instance; otherwise it shares it.
    pub lock: bool,
}

// The number, where it fits 32 bits.
fn narrow(number: usize) -> Result<u32, NoMemory>
    ensures { IfOk result (λ n. n ≡ number) }
{
    match u32::try_from(number) {
        Ok(number) => Ok(number),
        Err(_) => Err(NoMemory),
    }
}

// The sum, where it fits.
fn sum(a: usize, b: usize) -> Result<usize, NoMemory>
    ensures { IfOk result (λ n. n ≡ a + b) }
{
    match a.checked_add(b) {
        Some(sum) => Ok(sum),
        None => Err(NoMemory),
    }
}

// The claims of an action type, none where there is no such type.
fn claims_of(model: &Model, action: usize) -> &[Claim]
    ensures { result.now ≡ claims_of (type_of (view_model model.now) action) }
{
    match model.actions.get(action) {
        None => &[],
        Some(kind) => kind.claims.as_slice(),
    }
}

// The pool that serves a reference or claim of an action type in an instance.
fn pool_of(served: &[Serve], action: usize, instance: usize, reference: usize) -> Option<u32>
    ensures { result ≡ pool_in served.now action instance reference }
{
    for serve in served {
        if serve.action as usize == action
            && serve.instance as usize == instance
            && serve.reference as usize == reference
        {
            return Some(serve.pool);
        }
    }
    None
}

// The pool that serves a claim of an action.
fn claim_pool(model: &Model, act: &Act, claim: usize) -> Result<Option<u32>, NoMemory>
    ensures { IfOk result (λ pool. pool ≡ served_claim (view_model model.now) act.now.action act.now.instance claim) }
{
    match model.actions.get(act.action as usize) {
        None => Ok(None),
        Some(kind) => {
            let reference = sum(kind.references.len(), claim)?;
            Ok(pool_of(
                model.served.as_slice(),
                act.action as usize,
                act.instance as usize,
                reference,
            ))
        }
    }
}

// The claim of that number.
fn claim_at(
    model: &Model,
    number: u32,
    act: &Act,
    claim: usize,
    kind: &Claim,
) -> Result<OpenClaim, NoMemory>
    ensures { IfOk result (λ x. x ≡ open_claim (view_model model.now) number act.now (claim, kind.now)) }
{
    let pool = claim_pool(model, act, claim)?;
    Ok(OpenClaim {
        act: number,
        claim: narrow(claim)?,
        pool,
        lock: kind.lock,
    })
}

// Adds the claims of an action.
fn add_claims(
    claims: &mut Vec<OpenClaim>,
    model: &Model,
    number: u32,
    act: &Act,
    kinds: &[Claim],
) -> Result<(), NoMemory>
    ensures { OnOk result (claims.new.items ≡ claims.old.items ++ map (open_claim (view_model model.now) number act.now) (enumerate_from 0 kinds.now)) }
{
    let mut claim = 0;
    for kind in kinds {
        claims.push(claim_at(model, number, act, claim, kind)?)?;
        claim += 1;
    }
    Ok(())
}

// Adds those of the action of that number.
fn add_claims_of(
    claims: &mut Vec<OpenClaim>,
    model: &Model,
    number: u32,
    act: &Act,
) -> Result<(), NoMemory>
    ensures { OnOk result (claims.new.items ≡ claims.old.items ++ claims_in (view_model model.now) (number, act.now)) }
{
    let kinds = claims_of(model, act.action as usize);
    add_claims(claims, model, number, act, kinds)
}

/// The claims of all actions, by action and by claim: so they stand in the order of their blanks.
pub fn open_claims(alloc: Global, model: &Model, acts: &[Act]) -> Result<Vec<OpenClaim>, NoMemory>
    ensures { IfOk result (λ claims. claims.items ≡ open_claims (view_model model.now) acts.now) }
{
    let mut claims = Vec::new(alloc);
    let mut number = 0;
    for act in acts {
        add_claims_of(&mut claims, model, narrow(number)?, act)?;
        number += 1;
    }
    Ok(claims)
}
