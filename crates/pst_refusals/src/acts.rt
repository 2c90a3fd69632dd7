//! The constraints of atomic actions, of what they write and claim, and of first objects.
ghost use Rattle.std.specs.Prelude.{◌≡◌, IfOk, flat_map, map, ◌&&◌};
ghost use Rattle.pst_model.specs.ConstraintTree.{view_constraint};
ghost use Rattle.std.specs.List.{list_any, enumerate_from};
ghost use Rattle.pst_model.specs.ModelView.{view_model};
ghost use Rattle.pst_model.specs.Sound.{IsSound};
ghost use Rattle.pst_legal.specs.Types.{type_of, is_state_pool, is_output, pool_object};
ghost use Rattle.pst_legal.specs.Blanks.{claims_of, refers_to, used_state_pools};
ghost use Rattle.pst_known.specs.Known.{seen};
ghost use Rattle.pst_slots.specs.Listed.{action_constraints, of_output, of_claim, of_act, of_first_object};
ghost use Rattle.pst_refusals.specs.Failing.{fails, is_used_state};
ghost use Rattle.std.specs.Option.{option_map};
ghost use Rattle.pst_model.specs.ModelView.{view_object};

use crate::fails::some_fails;
use crate::site::{ActSite, FirstSite, OutputSite, ResourceSite};
use pst_base::NoMemory;
use pst_known::Scene;
use pst_model::{Claim, Constraint, Model, ObjectKind, ObjectType};
use pst_scen::{Act, Filled, Flow};
use std::alloc::Global;

// The type of the objects of a pool.
fn pool_object<'a>(model: &'a Model, pool: u32) -> Option<&'a ObjectType>
    ensures { option_map (λ o. view_object o.now) result ≡ pool_object (view_model model.now) pool }
{
    let pool = model.pools.get(pool as usize)?;
    model.objects.get(pool.object as usize)
}

fn is_output(flow: Flow) -> bool
    ensures { result ≡ is_output flow }
{
    match flow {
        Flow::BufferOut | Flow::StreamOut | Flow::StateOut => true,
        Flow::BufferIn | Flow::StreamIn | Flow::StateIn => false,
    }
}

// Of the object that a reference writes, if it is an output.
fn of_output(
    alloc: Global,
    scene: &Scene<'_>,
    act: usize,
    reference: usize,
    filled: &Filled,
    by_values: bool,
) -> Result<bool, NoMemory>
    requires { IsSound (view_model scene.now.model.now) }
    ensures { IfOk result (λ r. r ≡ list_any (fails by_values) (of_output (view_model scene.now.model.now) (seen scene.now) act (reference, filled.now))) }
{
    if !is_output(filled.flow) {
        return Ok(false);
    }
    match pool_object(scene.model, filled.pool) {
        None => Ok(false),
        Some(object) => {
            let site = OutputSite {
                scene,
                act,
                reference,
                filled,
            };
            some_fails(alloc, &site, object.constraints.as_slice(), by_values)
        }
    }
}

// Of all objects that an action writes.
fn of_outputs(
    alloc: Global,
    scene: &Scene<'_>,
    number: usize,
    references: &[Filled],
    by_values: bool,
) -> Result<bool, NoMemory>
    requires { IsSound (view_model scene.now.model.now) }
    ensures { IfOk result (λ r. r ≡ list_any (fails by_values) (flat_map (of_output (view_model scene.now.model.now) (seen scene.now) number) (enumerate_from 0 references.now))) }
{
    let mut reference = 0;
    for filled in references {
        if of_output(alloc, scene, number, reference, filled, by_values)? {
            return Ok(true);
        }
        reference += 1;
    }
    Ok(false)
}

// Of the resource that an action claims.
fn of_claim(
    alloc: Global,
    scene: &Scene<'_>,
    number: usize,
    act: &Act,
    place: u32,
    claim: &Claim,
    by_values: bool,
) -> Result<bool, NoMemory>
    requires { IsSound (view_model scene.now.model.now) }
    ensures { IfOk result (λ r. r ≡ list_any (fails by_values) (of_claim (view_model scene.now.model.now) number act.now (place, claim.now))) }
{
    match scene.model.objects.get(claim.object as usize) {
        None => Ok(false),
        Some(object) => {
            let site = ResourceSite {
                scene,
                number,
                act,
                claim: place,
            };
            some_fails(alloc, &site, object.constraints.as_slice(), by_values)
        }
    }
}

// Of all resources that an action claims.
fn of_claims(
    alloc: Global,
    scene: &Scene<'_>,
    number: usize,
    act: &Act,
    claims: &[Claim],
    by_values: bool,
) -> Result<bool, NoMemory>
    requires { IsSound (view_model scene.now.model.now) }
    ensures { IfOk result (λ r. r ≡ list_any (fails by_values) (flat_map (of_claim (view_model scene.now.model.now) number act.now) (enumerate_from 0 claims.now))) }
{
    let mut place: usize = 0;
    for claim in claims {
        let Ok(short) = u32::try_from(place) else {
            return Err(NoMemory);
        };
        if of_claim(alloc, scene, number, act, short, claim, by_values)? {
            return Ok(true);
        }
        place += 1;
    }
    Ok(false)
}

// The constraints of an action type.
fn constraints_of(model: &Model, action: u32) -> &[Constraint]
    ensures { map view_constraint result.now ≡ action_constraints (type_of (view_model model.now) action) }
{
    match model.actions.get(action as usize) {
        None => &[],
        Some(kind) => kind.constraints.as_slice(),
    }
}

// The claims of an action type.
fn claims_of(model: &Model, action: u32) -> &[Claim]
    ensures { result.now ≡ claims_of (type_of (view_model model.now) action) }
{
    match model.actions.get(action as usize) {
        None => &[],
        Some(kind) => kind.claims.as_slice(),
    }
}

/// Of an action, of what it writes and of what it claims.
pub(crate) fn of_act(
    alloc: Global,
    scene: &Scene<'_>,
    number: usize,
    act: &Act,
    by_values: bool,
) -> Result<bool, NoMemory>
    requires { IsSound (view_model scene.now.model.now) }
    ensures { IfOk result (λ r. r ≡ list_any (fails by_values) (of_act (view_model scene.now.model.now) (seen scene.now) (number, act.now))) }
{
    let site = ActSite { scene, number, act };
    let constraints = constraints_of(scene.model, act.action);
    if some_fails(alloc, &site, constraints, by_values)? {
        return Ok(true);
    }
    if of_outputs(alloc, scene, number, act.references.as_slice(), by_values)? {
        return Ok(true);
    }
    let claims = claims_of(scene.model, act.action);
    of_claims(alloc, scene, number, act, claims, by_values)
}

/// Whether a constraint of an atomic action fails, or of what one writes or claims.
pub(crate) fn of_acts(alloc: Global, scene: &Scene<'_>, by_values: bool) -> Result<bool, NoMemory>
    requires { IsSound (view_model scene.now.model.now) }
    ensures { IfOk result (λ r. r ≡ list_any (fails by_values) (flat_map (of_act (view_model scene.now.model.now) (seen scene.now)) (enumerate_from 0 scene.now.actions.now))) }
{
    let mut number = 0;
    for act in scene.actions {
        if of_act(alloc, scene, number, act, by_values)? {
            return Ok(true);
        }
        number += 1;
    }
    Ok(false)
}

/// Whether a pool is one of states.
pub(crate) fn is_state_pool(model: &Model, pool: u32) -> bool
    ensures { result ≡ is_state_pool (view_model model.now) pool }
{
    match pool_object(model, pool) {
        None => false,
        Some(object) => match object.kind {
            ObjectKind::State => true,
            _ => false,
        },
    }
}

// Whether an action refers to a pool.
fn refers_to(act: &Act, pool: u32) -> bool
    ensures { result ≡ refers_to pool act.now }
{
    for filled in act.references.as_slice() {
        if filled.pool == pool {
            return true;
        }
    }
    false
}

// Whether some action refers to a pool.
fn is_used(actions: &[Act], pool: u32) -> bool
    ensures { result ≡ list_any (refers_to pool) actions.now }
{
    for act in actions {
        if refers_to(act, pool) {
            return true;
        }
    }
    false
}

/// Whether a constraint of the first object of a pool fails.
pub(crate) fn of_first(
    alloc: Global,
    scene: &Scene<'_>,
    pool: u32,
    by_values: bool,
) -> Result<bool, NoMemory>
    requires { IsSound (view_model scene.now.model.now) }
    ensures { IfOk result (λ r. r ≡ list_any (fails by_values) (of_first_object (view_model scene.now.model.now) (seen scene.now) pool)) }
{
    match pool_object(scene.model, pool) {
        None => Ok(false),
        Some(object) => {
            let site = FirstSite { scene, pool };
            some_fails(alloc, &site, object.constraints.as_slice(), by_values)
        }
    }
}

// Of the first object of a pool, where it is a pool of states that is used.
fn of_pool(alloc: Global, scene: &Scene<'_>, pool: u32, by_values: bool) -> Result<bool, NoMemory>
    requires { IsSound (view_model scene.now.model.now) }
    ensures { IfOk result (λ r. r ≡ (is_used_state (view_model scene.now.model.now) scene.now.actions.now pool && list_any (fails by_values) (of_first_object (view_model scene.now.model.now) (seen scene.now) pool))) }
{
    if !is_state_pool(scene.model, pool) {
        return Ok(false);
    }
    if !is_used(scene.actions, pool) {
        return Ok(false);
    }
    of_first(alloc, scene, pool, by_values)
}

/// Whether a constraint of a first object fails.
pub(crate) fn of_firsts(alloc: Global, scene: &Scene<'_>, by_values: bool) -> Result<bool, NoMemory>
    requires { IsSound (view_model scene.now.model.now) }
    ensures { IfOk result (λ r. r ≡ list_any (fails by_values) (flat_map (of_first_object (view_model scene.now.model.now) (seen scene.now)) (used_state_pools (view_model scene.now.model.now) scene.now.actions.now))) }
{
    for pool in 0..scene.model.pools.len() {
        let Ok(short) = u32::try_from(pool) else {
            return Err(NoMemory);
        };
        if of_pool(alloc, scene, short, by_values)? {
            return Ok(true);
        }
    }
    Ok(false)
}
