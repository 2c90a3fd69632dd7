// The pools that serve references and claims.
ghost use Rattle.std.specs.Prelude.{◌≡◌, ℕ, ◌<◌, length, slice_get, map, Some, IsTrue, ◌↔◌, All, IfOk, IfErr, IsSome, false};
ghost use Rattle.std.specs.List.{HoldsAt};
ghost use Rattle.std.specs.Option.{IsSomeAnd};
ghost use Rattle.pst_model.specs.ModelView.{view_model, view_action};
ghost use Rattle.pst_model.specs.Served.{ComesBefore, ComesBeforeFirst, IsInOrder, IsSoundServe, IsServed, IsServedIn, IsServedWhole, is_entry, pool_in, objects_of};
ghost use Rattle.pst_model.specs.ModelTree.{ActionTree};
ghost use Rattle.pst_model.specs.declared.model.Part.{Part};

use pst_model::{ActionType, Content, Model, Part, Serve};

// Whether one entry stands before another.
fn comes_before(one: Serve, other: Serve) -> bool
    ensures { IsTrue result ↔ ComesBefore one other }
{
    if one.action != other.action {
        return one.action < other.action;
    }
    if one.instance != other.instance {
        return one.instance < other.instance;
    }
    one.reference < other.reference
}

// Whether an entry stands before the first of these, if there is one.
fn comes_before_first(one: Serve, later: &[Serve]) -> bool
    ensures { IsTrue result ↔ ComesBeforeFirst one later.now }
{
    match later.first() {
        Some(next) => comes_before(one, *next),
        None => true,
    }
}

/// Whether the entries stand in order.
pub fn is_in_order(served: &[Serve]) -> bool
    ensures { IsTrue result ↔ IsInOrder served.now }
{
    for (index, one) in served.iter().enumerate() {
        if !comes_before_first(*one, &served[index + 1..]) {
            return false;
        }
    }
    true
}

// The place of the entry of that action type, instance and reference.
fn place_of(
    served: &[Serve],
    action: usize,
    instance: usize,
    reference: usize,
) -> Result<usize, usize>
    requires { IsInOrder served.now }
    ensures found { IfOk result (λ k. (k < length served.now) × HoldsAt (λ s. IsTrue (is_entry action instance reference s)) served.now k) }
    ensures absent { IfErr result (λ k. All (λ s. is_entry action instance reference s ≡ false) served.now) }
{
    served.binary_search_by_key(&(action, (instance, reference)), |serve| {
        (
            serve.action as usize,
            (serve.instance as usize, serve.reference as usize),
        )
    })
}

/// The pool that serves a reference or claim.
pub fn pool_in(served: &[Serve], action: usize, instance: usize, reference: usize) -> Option<u32>
    requires { IsInOrder served.now }
    ensures { result ≡ pool_in served.now action instance reference }
{
    match place_of(served, action, instance, reference) {
        Ok(place) => Some(served[place].pool),
        Err(_) => None,
    }
}

// The object type of a reference, or of a claim behind the references.
fn object_of(action: &ActionType, reference: usize) -> Option<u32>
    ensures { result ≡ slice_get (objects_of (view_action action.now)) reference }
{
    let references = action.references.len();
    if reference < references {
        return Some(action.references[reference].object);
    }
    let claim = action.claims.get(reference - references)?;
    Some(claim.object)
}

// Whether the pool of an entry has objects of the type of the action's reference or claim.
fn is_pool_of(model: &Model, action: &ActionType, serve: Serve) -> bool
    ensures { IsTrue result ↔ IsSomeAnd (slice_get model.now.pools.items serve.pool) (λ pool. slice_get (objects_of (view_action action.now)) serve.reference ≡ Some pool.object) }
{
    match model.pools.get(serve.pool as usize) {
        Some(pool) => object_of(action, serve.reference as usize) == Some(pool.object),
        None => false,
    }
}

/// Whether the numbers of an entry name an action, one of its references or claims, an instance and a pool.
pub fn is_sound_serve(model: &Model, serve: Serve) -> bool
    ensures { IsTrue result ↔ IsSoundServe (view_model model.now) serve }
{
    if serve.instance as usize >= model.instances.len() {
        return false;
    }
    match model.actions.get(serve.action as usize) {
        Some(action) => is_pool_of(model, action, serve),
        None => false,
    }
}

// Whether that many references and claims of an action type are served in an instance.
fn are_served(served: &[Serve], action: usize, instance: usize, count: usize) -> bool
    requires { IsInOrder served.now }
    ensures { IsTrue result ↔ ((reference : ℕ) → reference < count → IsSome (pool_in served.now action instance reference)) }
{
    for reference in 0..count {
        if pool_in(served, action, instance, reference).is_none() {
            return false;
        }
    }
    true
}

// Whether an action type is served in an instance, where it is one of its component.
fn is_served_in(
    model: &Model,
    number: usize,
    action: &ActionType,
    instance: usize,
    part: Part,
) -> bool
    requires { IsInOrder model.now.served.items }
    ensures { IsTrue result ↔ IsServedIn (view_model model.now) number (view_action action.now) instance part }
{
    if part.component != action.component {
        return true;
    }
    let count = action.references.len() + action.claims.len();
    are_served(model.served.as_slice(), number, instance, count)
}

// Whether an action type is served in each instance of its component.
fn is_served_everywhere(model: &Model, number: usize, action: &ActionType) -> bool
    requires { IsInOrder model.now.served.items }
    ensures { IsTrue result ↔ ((instance : ℕ) (part : Part) → slice_get model.now.instances.items instance ≡ Some part → IsServedIn (view_model model.now) number (view_action action.now) instance part) }
{
    for instance in 0..model.instances.len() {
        if !is_served_in(model, number, action, instance, model.instances[instance]) {
            return false;
        }
    }
    true
}

// Whether an action type, where it is atomic and not abstract, is served.
fn is_served(model: &Model, number: usize, action: &ActionType) -> bool
    requires { IsInOrder model.now.served.items }
    ensures { IsTrue result ↔ IsServed (view_model model.now) number (view_action action.now) }
{
    if action.is_abstract {
        return true;
    }
    match &action.content {
        Content::Atomic(_) => is_served_everywhere(model, number, action),
        Content::Compound(_) => true,
    }
}

// Whether each of the action types is served.
fn are_all_served(model: &Model, actions: &[ActionType]) -> bool
    requires { IsInOrder model.now.served.items }
    ensures { IsTrue result ↔ ((number : ℕ) (action : ActionTree) → slice_get (map view_action actions.now) number ≡ Some action → IsServed (view_model model.now) number action) }
{
    for (number, action) in actions.iter().enumerate() {
        if !is_served(model, number, action) {
            return false;
        }
    }
    true
}

/// Whether each action type of the model is served.
pub fn is_served_whole(model: &Model) -> bool
    requires { IsInOrder model.now.served.items }
    ensures { IsTrue result ↔ IsServedWhole (view_model model.now) }
{
    are_all_served(model, model.actions.as_slice())
}
