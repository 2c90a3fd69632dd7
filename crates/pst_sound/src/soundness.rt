//! Sound models, and the pools that they serve.
ghost use Rattle.std.specs.Prelude.{◌≡◌, ◌≤◌, IsTrue, ◌↔◌, All, map, length};
ghost use Rattle.pst_model.specs.Limits.{most_instances};
ghost use Rattle.pst_model.specs.ModelView.{view_model, view_action, view_object, view_function};
ghost use Rattle.pst_model.specs.Preorder.{IsInstanceTree};
ghost use Rattle.pst_model.specs.Served.{IsInOrder, IsSoundServe, IsServedWhole, pool_in};
ghost use Rattle.pst_model.specs.Sound.{IsSound, IsSoundAction, IsSoundObject, IsSoundPool, IsSoundFunction};

use crate::types::{is_sound_action, is_sound_function, is_sound_object, is_sound_pool};
use pst_model::{ActionType, Function, Model, ObjectType};
use pst_sound_parts::{is_in_order, is_preorder, is_served_whole, is_sound_serve, pool_in};

// The most component instances.
const MOST_INSTANCES: usize = 256;

// Whether action types are sound.
fn are_actions(model: &Model, actions: &[ActionType]) -> bool
    ensures { IsTrue result ↔ All (IsSoundAction (view_model model.now)) (map view_action actions.now) }
{
    for action in actions {
        if !is_sound_action(model, action) {
            return false;
        }
    }
    true
}

// Whether object types are sound.
fn are_objects(objects: &[ObjectType]) -> bool
    ensures { IsTrue result ↔ All IsSoundObject (map view_object objects.now) }
{
    for object in objects {
        if !is_sound_object(object) {
            return false;
        }
    }
    true
}

// Whether there are few component instances, in preorder.
fn are_instances(model: &Model) -> bool
    ensures { IsTrue result ↔ (length model.now.instances.items ≤ most_instances) × IsInstanceTree model.now.instances.items }
{
    model.instances.len() <= MOST_INSTANCES && is_preorder(model.instances.as_slice())
}

// Whether all pools are sound.
fn are_pools(model: &Model) -> bool
    ensures { IsTrue result ↔ All (IsSoundPool (view_model model.now)) model.now.pools.items }
{
    model.pools.iter().all(|pool| is_sound_pool(model, *pool))
}

// Whether functions are sound.
fn are_functions(functions: &[Function]) -> bool
    ensures { IsTrue result ↔ All IsSoundFunction (map view_function functions.now) }
{
    for function in functions {
        if !is_sound_function(function) {
            return false;
        }
    }
    true
}

// Whether the numbers of all entries of the served pools are those of entries.
fn are_serves(model: &Model) -> bool
    ensures { IsTrue result ↔ All (IsSoundServe (view_model model.now)) model.now.served.items }
{
    model
        .served
        .iter()
        .all(|serve| is_sound_serve(model, *serve))
}

// Whether the served pools are in order, and whole.
fn is_served(model: &Model) -> bool
    ensures { IsTrue result ↔ IsInOrder model.now.served.items × All (IsSoundServe (view_model model.now)) model.now.served.items × IsServedWhole (view_model model.now) }
{
    if !is_in_order(model.served.as_slice()) {
        return false;
    }
    if !are_serves(model) {
        return false;
    }
    is_served_whole(model)
}

/// Whether a model is sound: each number in it names an entry of the right sort, the limits are kept, and so
/// are the rules of the language that can be seen in a model. It takes no memory.
pub fn sound(model: &Model) -> bool
    ensures { IsTrue result ↔ IsSound (view_model model.now) }
{
    if !are_actions(model, model.actions.as_slice()) {
        return false;
    }
    if !are_objects(model.objects.as_slice()) {
        return false;
    }
    if !are_instances(model) {
        return false;
    }
    if !are_pools(model) {
        return false;
    }
    if !are_functions(model.functions.as_slice()) {
        return false;
    }
    is_served(model)
}

/// The pool that serves a reference or claim of an action type in a component instance, `None` exactly where
/// the model serves none. The references of an action are numbered first, then its claims. It takes no memory.
pub fn pool_of(model: &Model, action: u32, instance: u32, reference: u32) -> Option<u32>
    requires { IsSound (view_model model.now) }
    ensures { result ≡ pool_in model.now.served.items action instance reference }
{
    pool_in(
        model.served.as_slice(),
        action as usize,
        instance as usize,
        reference as usize,
    )
}
