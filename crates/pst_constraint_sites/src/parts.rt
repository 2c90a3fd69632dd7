//! Parts of a model.
ghost use Rattle.std.specs.Prelude.{◌≡◌, map, slice_get, IfOk};
ghost use Rattle.std.specs.List.{list_any};
ghost use Rattle.std.specs.Option.{option_map};
ghost use Rattle.pst_model.specs.ConstraintTree.{view_constraint};
ghost use Rattle.pst_model.specs.ModelView.{view_model, view_object};
ghost use Rattle.pst_legal.specs.Types.{type_of, pool_object, is_state_pool, is_output};
ghost use Rattle.pst_legal.specs.Blanks.{claims_of, refers_to};
ghost use Rattle.pst_slots.specs.Listed.{action_constraints, object_constraints};

use pst_base::NoMemory;
use pst_model::{Claim, Constraint, Model, ObjectKind, ObjectType};
use pst_scen::{Act, Flow};

/// The number, where it fits 32 bits.
pub(crate) fn narrow(number: usize) -> Result<u32, NoMemory>
    ensures { IfOk result (λ n. n ≡ number) }
{
    match u32::try_from(number) {
        Ok(number) => Ok(number),
        Err(_) => Err(NoMemory),
    }
}

/// Whether a reference of this kind writes an object.
pub(crate) fn is_output(flow: Flow) -> bool
    ensures { result ≡ is_output flow }
{
    match flow {
        Flow::BufferOut | Flow::StreamOut | Flow::StateOut => true,
        Flow::BufferIn | Flow::StreamIn | Flow::StateIn => false,
    }
}

/// The constraints of an action type, none where there is no such type.
pub(crate) fn action_constraints(model: &Model, action: u32) -> &[Constraint]
    ensures { map view_constraint result.now ≡ action_constraints (type_of (view_model model.now) action) }
{
    match model.actions.get(action as usize) {
        None => &[],
        Some(kind) => kind.constraints.as_slice(),
    }
}

/// The claims of an action type, none where there is no such type.
pub(crate) fn claims_of(model: &Model, action: u32) -> &[Claim]
    ensures { result.now ≡ claims_of (type_of (view_model model.now) action) }
{
    match model.actions.get(action as usize) {
        None => &[],
        Some(kind) => kind.claims.as_slice(),
    }
}

/// The constraints of an object type, none where there is no such type.
pub(crate) fn object_constraints(model: &Model, object: u32) -> &[Constraint]
    ensures { map view_constraint result.now ≡ object_constraints (slice_get (view_model model.now).objects object) }
{
    match model.objects.get(object as usize) {
        None => &[],
        Some(kind) => kind.constraints.as_slice(),
    }
}

// The type of the objects of a pool.
fn pool_object<'a>(model: &'a Model, pool: u32) -> Option<&'a ObjectType>
    ensures { option_map (λ o. view_object o.now) result ≡ pool_object (view_model model.now) pool }
{
    let pool = model.pools.get(pool as usize)?;
    model.objects.get(pool.object as usize)
}

/// The constraints of the objects of a pool, none where there is no such pool.
pub(crate) fn pool_constraints(model: &Model, pool: u32) -> &[Constraint]
    ensures { map view_constraint result.now ≡ object_constraints (pool_object (view_model model.now) pool) }
{
    match pool_object(model, pool) {
        None => &[],
        Some(kind) => kind.constraints.as_slice(),
    }
}
