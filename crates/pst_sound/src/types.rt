// Which types, pools and functions are sound.
ghost use Rattle.std.specs.Prelude.{◌<◌, ◌≤◌, IsTrue, ◌↔◌, All, IfSome, map, length};
ghost use Rattle.pst_expr.specs.Spans.{IsDomain};
ghost use Rattle.pst_model.specs.ConstraintTree.{view_constraint};
ghost use Rattle.pst_model.specs.Limits.{most_fields, most_elements, most_references, most_claims};
ghost use Rattle.pst_model.specs.SoundConstraint.{IsSoundConstraint};
ghost use Rattle.pst_model.specs.SoundSlots.{IsConstraintSlot};
ghost use Rattle.pst_model.specs.ModelView.{view_model, view_action, view_object, view_content, view_function, view_activity};
ghost use Rattle.pst_model.specs.SoundActivity.{IsSoundActivity};
ghost use Rattle.pst_model.specs.Sound.{IsSoundField, IsSoundObject, IsSoundReference, IsSoundClaim, IsSoundCompound, IsSoundContent, IsSoundAction, IsSoundPool, IsSoundFunction};

use crate::steps::are_sound_steps;
use crate::ties::are_sound_ties;
use pst_expr::Domain;
use pst_model::{
    ActionType, Activity, Claim, Content, Field, Function, Model, ObjectKind, ObjectType, Pool,
    Reference,
};
use pst_sound_parts::{
    ActionSite, ObjectSite, Repeats, are_sound_there, is_of_kind, is_sound_body,
};

// The most fields of a type.
const MOST_FIELDS: usize = 64;

// The most elements of an array.
const MOST_ELEMENTS: u32 = 64;

// The most references of an action.
const MOST_REFERENCES: usize = 16;

// The most claims of an action.
const MOST_CLAIMS: usize = 16;

// The most parameters of a function.
const MOST_PARAMETERS: usize = 64;

// The greatest size of a pool.
const MOST_SIZE: u32 = 1024;

// Whether a domain has a value, as each one has.
fn is_domain(domain: &Domain) -> bool
    ensures { IsTrue result ↔ IsDomain domain.now }
{
    !domain.spans().is_empty()
}

// Whether the index of an element, if there is one, is one of an array.
fn is_element(element: Option<u32>) -> bool
    ensures { IsTrue result ↔ IfSome element (λ index. index < most_elements) }
{
    match element {
        Some(index) => index < MOST_ELEMENTS,
        None => true,
    }
}

// Whether a field is sound.
fn is_sound_field(field: &Field) -> bool
    ensures { IsTrue result ↔ IsSoundField field.now }
{
    is_domain(&field.domain) && is_element(field.element)
}

// Whether fields are sound.
fn are_sound_fields(fields: &[Field]) -> bool
    ensures { IsTrue result ↔ All IsSoundField fields.now }
{
    fields.iter().all(|field| is_sound_field(field))
}

// Whether an object type is sound.
pub fn is_sound_object(object: &ObjectType) -> bool
    ensures { IsTrue result ↔ IsSoundObject (view_object object.now) }
{
    object.fields.len() <= MOST_FIELDS
        && are_sound_fields(object.fields.as_slice())
        && are_sound_there(&ObjectSite { object }, object.constraints.as_slice())
}

// Whether a reference is of a flow object.
fn is_sound_reference(objects: &[ObjectType], reference: Reference) -> bool
    ensures { IsTrue result ↔ IsSoundReference (map view_object objects.now) reference }
{
    match objects.get(reference.object as usize) {
        Some(found) => found.kind != ObjectKind::Resource,
        None => false,
    }
}

// Whether references are of flow objects.
fn are_sound_references(objects: &[ObjectType], references: &[Reference]) -> bool
    ensures { IsTrue result ↔ All (IsSoundReference (map view_object objects.now)) references.now }
{
    references
        .iter()
        .all(|reference| is_sound_reference(objects, *reference))
}

// Whether a claim is of a resource.
fn is_sound_claim(objects: &[ObjectType], claim: Claim) -> bool
    ensures { IsTrue result ↔ IsSoundClaim (map view_object objects.now) claim }
{
    is_of_kind(objects, ObjectKind::Resource, claim.object)
}

// Whether claims are of resources.
fn are_sound_claims(objects: &[ObjectType], claims: &[Claim]) -> bool
    ensures { IsTrue result ↔ All (IsSoundClaim (map view_object objects.now)) claims.now }
{
    claims.iter().all(|claim| is_sound_claim(objects, *claim))
}

// Whether the handles are of action types that there are.
fn are_sound_handles(model: &Model, handles: &[u32]) -> bool
    ensures { IsTrue result ↔ All (λ type. type < length (map view_action model.now.actions.items)) handles.now }
{
    let count = model.actions.len();
    handles.iter().all(|handle| (*handle as usize) < count)
}

// Whether the activity of an action is sound.
fn is_sound_activity(model: &Model, action: &ActionType, activity: &Activity) -> bool
    ensures { IsTrue result ↔ IsSoundActivity (view_model model.now) (view_action action.now) (view_activity activity.now) }
{
    let handles = activity.handles.as_slice();
    if !are_sound_handles(model, handles) {
        return false;
    }
    if !are_sound_steps(
        activity.steps.as_slice(),
        model,
        action,
        handles,
        &Repeats::Nothing,
    ) {
        return false;
    }
    are_sound_ties(model, activity)
}

// Whether an action has no references and no claims, as a compound one must.
fn is_sound_compound(action: &ActionType) -> bool
    ensures { IsTrue result ↔ IsSoundCompound (view_action action.now) }
{
    action.references.is_empty() && action.claims.is_empty()
}

// Whether the body or the activity of an action is sound.
fn is_sound_content(model: &Model, action: &ActionType) -> bool
    ensures { IsTrue result ↔ IsSoundContent (view_model model.now) (view_action action.now) (view_content action.now.content) }
{
    match &action.content {
        Content::Atomic(body) => is_sound_body(model, action, body.as_slice()),
        Content::Compound(activity) => {
            is_sound_compound(action) && is_sound_activity(model, action, activity)
        }
    }
}

// Whether an action has few fields, references and claims.
fn has_few_parts(action: &ActionType) -> bool
    ensures { IsTrue result ↔ (length action.now.fields.items ≤ most_fields) × (length action.now.references.items ≤ most_references) × (length action.now.claims.items ≤ most_claims) }
{
    action.fields.len() <= MOST_FIELDS
        && action.references.len() <= MOST_REFERENCES
        && action.claims.len() <= MOST_CLAIMS
}

// Whether the fields, references and claims of an action are sound.
fn has_sound_parts(objects: &[ObjectType], action: &ActionType) -> bool
    ensures { IsTrue result ↔ All IsSoundField action.now.fields.items × All (IsSoundReference (map view_object objects.now)) action.now.references.items × All (IsSoundClaim (map view_object objects.now)) action.now.claims.items }
{
    are_sound_fields(action.fields.as_slice())
        && are_sound_references(objects, action.references.as_slice())
        && are_sound_claims(objects, action.claims.as_slice())
}

// Whether the constraints of an action are sound.
fn has_sound_constraints(model: &Model, action: &ActionType) -> bool
    ensures { IsTrue result ↔ All (IsSoundConstraint (IsConstraintSlot (view_model model.now) (view_action action.now))) (map view_constraint action.now.constraints.items) }
{
    are_sound_there(&ActionSite { model, action }, action.constraints.as_slice())
}

// Whether an action type is sound.
pub fn is_sound_action(model: &Model, action: &ActionType) -> bool
    ensures { IsTrue result ↔ IsSoundAction (view_model model.now) (view_action action.now) }
{
    if !has_few_parts(action) {
        return false;
    }
    if !has_sound_parts(model.objects.as_slice(), action) {
        return false;
    }
    if !has_sound_constraints(model, action) {
        return false;
    }
    is_sound_content(model, action)
}

// Whether a pool is sound.
pub fn is_sound_pool(model: &Model, pool: Pool) -> bool
    ensures { IsTrue result ↔ IsSoundPool (view_model model.now) pool }
{
    (pool.instance as usize) < model.instances.len()
        && (pool.object as usize) < model.objects.len()
        && pool.size >= 1
        && pool.size <= MOST_SIZE
}

// Whether a function is sound.
pub fn is_sound_function(function: &Function) -> bool
    ensures { IsTrue result ↔ IsSoundFunction (view_function function.now) }
{
    function.parameters.len() <= MOST_PARAMETERS
}
