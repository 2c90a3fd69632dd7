//! Names and fields of what a model holds.
ghost use Rattle.std.specs.Prelude.{◌≡◌, [], get_or, slice_get, Option, map};
ghost use Rattle.pst_model.specs.ModelTree.{ModelTree};
ghost use Rattle.pst_model.specs.ModelView.{view_model, view_action, view_object};
ghost use Rattle.pst_trace_texts.specs.Named.{name, action_fields, object_fields as object_fields_of, reference_fields as reference_fields_of, claim_fields as claim_fields_of, pool_fields as pool_fields_of, reference_name as reference_name_of, claim_name as claim_name_of, reference_in as reference_in_type, claim_in as claim_in_type, act_reference as reference_of_act};

use pst_base::{NameId, Names};
use pst_model::{ActionType, Claim, Field, Model, Pool, Reference};
use pst_scen::Scenario;

/// The text of a name; empty where there is none of that number.
pub(crate) fn name_of(names: &Names, id: NameId) -> &str
    ensures { result.now ≡ name names.now id }
{
    if id.0 < names.len() {
        names.text(id)
    } else {
        ""
    }
}

/// The fields of an action type; none where there is none of that number.
pub(crate) fn fields_of(model: &Model, action: u32) -> &[Field]
    ensures { result.now ≡ action_fields (slice_get (view_model model.now).actions action) }
{
    match model.actions.get(action as usize) {
        Some(found) => found.fields.as_slice(),
        None => &[],
    }
}

/// The fields of an object type; none where there is none of that number.
fn object_fields(model: &Model, object: u32) -> &[Field]
    ensures { result.now ≡ object_fields_of (slice_get (view_model model.now).objects object) }
{
    match model.objects.get(object as usize) {
        Some(found) => found.fields.as_slice(),
        None => &[],
    }
}

/// The reference of that number of an action type.
pub(crate) fn reference_in(model: &Model, action: u32, reference: usize) -> Option<Reference>
    ensures { result ≡ reference_in_type (slice_get (view_model model.now).actions action) reference }
{
    let found = model.actions.get(action as usize)?;
    found.references.get(reference).copied()
}

/// The claim of that number of an action type.
pub(crate) fn claim_in(model: &Model, action: u32, claim: usize) -> Option<Claim>
    ensures { result ≡ claim_in_type (slice_get (view_model model.now).actions action) claim }
{
    let found = model.actions.get(action as usize)?;
    found.claims.get(claim).copied()
}

/// The reference of that number of an action of the scenario.
pub(crate) fn act_reference(
    model: &Model,
    scenario: &Scenario,
    act: u32,
    reference: u32,
) -> Option<Reference>
    ensures { result ≡ reference_of_act (view_model model.now) scenario.now act reference }
{
    let found = scenario.actions.as_slice().get(act as usize)?;
    reference_in(model, found.action, reference as usize)
}

/// The name of a reference, if there is one.
pub(crate) fn reference_name(names: &Names, reference: Option<Reference>) -> &str
    ensures { result.now ≡ reference_name_of names.now reference }
{
    match reference {
        Some(found) => name_of(names, found.name),
        None => "",
    }
}

/// The name of a claim, if there is one.
pub(crate) fn claim_name(names: &Names, claim: Option<Claim>) -> &str
    ensures { result.now ≡ claim_name_of names.now claim }
{
    match claim {
        Some(found) => name_of(names, found.name),
        None => "",
    }
}

/// The fields of the objects of a reference, if there is one.
pub(crate) fn reference_fields(model: &Model, reference: Option<Reference>) -> &[Field]
    ensures { result.now ≡ reference_fields_of (view_model model.now) reference }
{
    match reference {
        Some(found) => object_fields(model, found.object),
        None => &[],
    }
}

/// The fields of the objects of a claim, if there is one.
pub(crate) fn claim_fields(model: &Model, claim: Option<Claim>) -> &[Field]
    ensures { result.now ≡ claim_fields_of (view_model model.now) claim }
{
    match claim {
        Some(found) => object_fields(model, found.object),
        None => &[],
    }
}

/// The fields of the objects of a pool, if there is one.
pub(crate) fn pool_fields(model: &Model, pool: Option<Pool>) -> &[Field]
    ensures { result.now ≡ pool_fields_of (view_model model.now) pool }
{
    match pool {
        Some(found) => object_fields(model, found.object),
        None => &[],
    }
}

/// The pool of that number.
pub(crate) fn pool_at(model: &Model, pool: u32) -> Option<Pool>
    ensures { result ≡ slice_get (view_model model.now).pools pool }
{
    model.pools.get(pool as usize).copied()
}
