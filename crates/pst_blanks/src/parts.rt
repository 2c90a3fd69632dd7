//! Parts of a model.
ghost use Rattle.std.specs.Prelude.{◌≡◌, ◌+◌, IfOk, slice_get};
ghost use Rattle.pst_model.specs.Served.{pool_in};
ghost use Rattle.pst_model.specs.ModelView.{view_model};
ghost use Rattle.pst_legal.specs.Types.{type_of, pool_object, is_state_pool, is_output};
ghost use Rattle.pst_legal.specs.Blanks.{fields_of, claims_of, act_fields};
ghost use Rattle.pst_blanks.specs.Blanks.{reference_count};

use pst_base::NoMemory;
use pst_model::{Claim, Field, Model, ObjectKind, Serve};
use pst_scen::Flow;

/// The number, where it fits 32 bits.
pub(crate) fn narrow(number: usize) -> Result<u32, NoMemory>
    ensures { IfOk result (λ n. n ≡ number) }
{
    match u32::try_from(number) {
        Ok(number) => Ok(number),
        Err(_) => Err(NoMemory),
    }
}

/// The sum, where it fits.
pub(crate) fn sum(a: usize, b: usize) -> Result<usize, NoMemory>
    ensures { IfOk result (λ n. n ≡ a + b) }
{
    match a.checked_add(b) {
        Some(sum) => Ok(sum),
        None => Err(NoMemory),
    }
}

/// The fields of an object type, none where there is no such type.
pub(crate) fn object_fields(model: &Model, object: usize) -> &[Field]
    ensures { result.now ≡ fields_of (slice_get (view_model model.now).objects object) }
{
    match model.objects.get(object) {
        None => &[],
        Some(object) => object.fields.as_slice(),
    }
}

/// The fields of the objects of a pool, none where there is no such pool.
pub(crate) fn pool_fields(model: &Model, pool: usize) -> &[Field]
    ensures { result.now ≡ fields_of (pool_object (view_model model.now) pool) }
{
    match model.pools.get(pool) {
        None => &[],
        Some(pool) => object_fields(model, pool.object as usize),
    }
}

/// The fields of an action type, none where there is no such type.
pub(crate) fn act_fields(model: &Model, action: usize) -> &[Field]
    ensures { result.now ≡ act_fields (type_of (view_model model.now) action) }
{
    match model.actions.get(action) {
        None => &[],
        Some(kind) => kind.fields.as_slice(),
    }
}

/// How many references an action type has, 0 where there is no such type.
pub(crate) fn reference_count(model: &Model, action: usize) -> usize
    ensures { result ≡ reference_count (type_of (view_model model.now) action) }
{
    match model.actions.get(action) {
        None => 0,
        Some(kind) => kind.references.len(),
    }
}

/// The claims of an action type, none where there is no such type.
pub(crate) fn claims_of(model: &Model, action: usize) -> &[Claim]
    ensures { result.now ≡ claims_of (type_of (view_model model.now) action) }
{
    match model.actions.get(action) {
        None => &[],
        Some(kind) => kind.claims.as_slice(),
    }
}

/// Whether a reference of this kind writes an object.
pub(crate) fn is_output(flow: Flow) -> bool
    ensures { result ≡ is_output flow }
{
    match flow {
        Flow::BufferOut => true,
        Flow::StreamOut => true,
        Flow::StateOut => true,
        _ => false,
    }
}

/// Whether a pool is one of states.
pub(crate) fn is_state_pool(model: &Model, pool: usize) -> bool
    ensures { result ≡ is_state_pool (view_model model.now) pool }
{
    match model.pools.get(pool) {
        None => false,
        Some(pool) => match model.objects.get(pool.object as usize) {
            None => false,
            Some(object) => match object.kind {
                ObjectKind::State => true,
                _ => false,
            },
        },
    }
}

/// The pool that serves a reference or claim of an action type in an instance.
pub(crate) fn pool_of(
    served: &[Serve],
    action: usize,
    instance: usize,
    reference: usize,
) -> Option<u32>
    ensures { result ≡ pool_in served.now action instance reference }
{
    for serve in served {
        if serve.action as usize == action
            && serve.instance as usize == instance
            && serve.reference as usize == reference
        {
            return Some(serve.pool);
        }
    }
    None
}
