//! The sources among new actions.
ghost use Rattle.std.specs.Prelude.{◌≡◌, ℕ, ◌<◌, ◌++◌, ◌&&◌, nat_eq, [], OnOk, IfOk, map, Some, None, IsTrue};
ghost use Rattle.std.specs.List.{flat_map, enumerate_from};
ghost use Rattle.std.specs.Option.{unwrap_or};
ghost use Rattle.pst_model.specs.Served.{IsInOrder, pool_in};
ghost use Rattle.pst_model.specs.ModelView.{view_model, view_action, view_content};
ghost use Rattle.pst_scen.specs.declared.act.Flow.{Flow as the_flow};
ghost use Rattle.pst_scen.specs.declared.act.Flow.TheVariants as flow;
ghost use Rattle.pst_legal.specs.Growing.{open_reference, open_references};
ghost use Rattle.pst_legal.specs.Types.{type_of, flow_of, reference_flow, action_instances};
ghost use Rattle.pst_legal.specs.Supplied.{is_source_for};
ghost use Rattle.pst_legal.specs.SupplyReading.{sources_in, is_inferable};
ghost use Rattle.pst_open_ends.specs.Options.{new_in};
ghost use Rattle.pst_open_ends.specs.Beyond.{wanted, beyond, kept_at, given_at, source_if, AreNew};

use crate::new_ends::NewEnds;
use crate::spot::Source;
use pst_base::NoMemory;
use pst_model::{ActionType, Content, Model, ObjectKind, Reference, Serve};
use pst_scen::Flow;
use pst_sound_parts::{is_in_order, pool_in};
use std::alloc::Global;

/// For each pool the references of new actions that may be sources.
#[derive(Drop)]
pub struct NewSources<'a> {
    /// The model that says which actions there may be.
    pub model: &'a Model,
    /// How many actions are to be inferred. Where none is, or no reference wants a source, none is kept.
    pub level: u32,
    /// Whether the entries for what serves references are known to stand in order.
    pub in_order: bool,
    /// By the number of the pool.
    pub pools: Vec<NewEnds>,
}

/// Whether the entries for what serves references stand in order.
pub fn serves_in_order(model: &Model) -> bool
    ensures { IsTrue result → IsInOrder (view_model model.now).served }
{
    is_in_order(model.served.as_slice())
}

// The pool of the first entry of an action type, an instance and a reference; 0 where there is none.
fn first_pool(served: &[Serve], action: usize, instance: usize, reference: usize) -> u32
    ensures { result ≡ unwrap_or (pool_in served.now action instance reference) 0 }
{
    for serve in served {
        if serve.action as usize == action
            && serve.instance as usize == instance
            && serve.reference as usize == reference
        {
            return serve.pool;
        }
    }
    0
}

/// The pool that serves a reference of an action type in an instance; 0 where there is none.
/// `in_order`: the entries stand in order.
pub(crate) fn pool_of(
    served: &[Serve],
    in_order: bool,
    action: usize,
    instance: usize,
    reference: usize,
) -> u32
    requires { IsTrue in_order → IsInOrder served.now }
    ensures { result ≡ unwrap_or (pool_in served.now action instance reference) 0 }
{
    if in_order {
        return pool_in(served, action, instance, reference).unwrap_or(0);
    }
    first_pool(served, action, instance, reference)
}

// The kind of a reference by that of its object and its direction.
fn flow_of(kind: ObjectKind, output: bool) -> Flow
    ensures { result ≡ unwrap_or (flow_of kind output) flow.BufferIn }
{
    match kind {
        ObjectKind::Buffer => if output {
            Flow::BufferOut
        } else {
            Flow::BufferIn
        },
        ObjectKind::Stream => if output {
            Flow::StreamOut
        } else {
            Flow::StreamIn
        },
        ObjectKind::State => if output {
            Flow::StateOut
        } else {
            Flow::StateIn
        },
        ObjectKind::Resource => Flow::BufferIn,
    }
}

/// The kind of a reference.
pub(crate) fn reference_flow(model: &Model, reference: &Reference) -> Flow
    ensures { result ≡ unwrap_or (reference_flow (view_model model.now) reference.now) flow.BufferIn }
{
    match model.objects.get(reference.object as usize) {
        None => Flow::BufferIn,
        Some(object) => flow_of(object.kind, reference.output),
    }
}

// Adds a reference of a new action to those of a pool.
fn add_source(
    pools: &mut Vec<NewEnds>,
    pool: u32,
    flow: Flow,
    source: Source,
) -> Result<(), NoMemory>
    ensures { OnOk result ((need : the_flow) (p : ℕ) → kept_at need p pools.new.items ≡ kept_at need p pools.old.items ++ source_if (is_source_for need flow && nat_eq pool p) source) }
{
    let pool = pool as usize;
    if pool >= pools.len() {
        return Err(NoMemory);
    }
    pools[pool].add(flow, source)
}

// Adds the references of a new action of a type in an instance.
fn add_each(
    pools: &mut Vec<NewEnds>,
    model: &Model,
    in_order: bool,
    action: usize,
    instance: usize,
    references: &[Reference],
) -> Result<(), NoMemory>
    requires { IsTrue in_order → IsInOrder (view_model model.now).served }
    ensures { OnOk result ((need : the_flow) (p : ℕ) → given_at need p pools.new.items ≡ given_at need p pools.old.items ++ new_in (view_model model.now) (wanted need p) action instance 0 references.now) }
{
    let mut reference = 0;
    for kind in references {
        let pool = pool_of(
            model.served.as_slice(),
            in_order,
            action,
            instance,
            reference,
        );
        let source = Source::New {
            action,
            instance,
            reference,
        };
        add_source(pools, pool, reference_flow(model, kind), source)?;
        reference += 1;
    }
    Ok(())
}

// The references of an action type.
fn references_of(model: &Model, action: usize) -> &[Reference]
    ensures { (instance : ℕ) → open_references (view_model model.now) action instance (type_of (view_model model.now) action) ≡ map (open_reference (view_model model.now) action instance) (enumerate_from 0 result.now) }
{
    match model.actions.get(action) {
        None => &[],
        Some(kind) => kind.references.as_slice(),
    }
}

// Adds the references of a new action of the type with that number.
fn add_act(
    pools: &mut Vec<NewEnds>,
    model: &Model,
    in_order: bool,
    action: usize,
    instance: usize,
) -> Result<(), NoMemory>
    requires { IsTrue in_order → IsInOrder (view_model model.now).served }
    ensures { OnOk result ((need : the_flow) (p : ℕ) → given_at need p pools.new.items ≡ given_at need p pools.old.items ++ sources_in (view_model model.now) (wanted need p) action instance) }
{
    let references = references_of(model, action);
    add_each(pools, model, in_order, action, instance, references)
}

// Adds the references of the new actions of a type, by instance.
fn add_instances(
    pools: &mut Vec<NewEnds>,
    model: &Model,
    in_order: bool,
    action: usize,
    kind: &ActionType,
) -> Result<(), NoMemory>
    requires { IsTrue in_order → IsInOrder (view_model model.now).served }
    ensures { OnOk result ((need : the_flow) (p : ℕ) → given_at need p pools.new.items ≡ given_at need p pools.old.items ++ flat_map (sources_in (view_model model.now) (wanted need p) action) (action_instances (view_model model.now) (Some (view_action kind.now)) None)) }
{
    let mut number = 0;
    for part in model.instances.as_slice() {
        if part.component == kind.component {
            add_act(pools, model, in_order, action, number)?;
        }
        number += 1;
    }
    Ok(())
}

// Whether actions of a type may be inferred: of an atomic one that isn't abstract.
fn is_inferable(kind: &ActionType) -> bool
    ensures { result ≡ is_inferable (view_action kind.now) (view_content kind.now.content) }
{
    match kind.content {
        Content::Atomic(_) => !kind.is_abstract,
        Content::Compound(_) => false,
    }
}

// Adds the references of new actions, by type, instance and reference.
fn add_types(pools: &mut Vec<NewEnds>, model: &Model, in_order: bool) -> Result<(), NoMemory>
    requires { IsTrue in_order → IsInOrder (view_model model.now).served }
    ensures { OnOk result ((need : the_flow) (p : ℕ) → given_at need p pools.new.items ≡ given_at need p pools.old.items ++ beyond (view_model model.now) need p) }
{
    let mut action = 0;
    for kind in model.actions.as_slice() {
        if is_inferable(kind) {
            add_instances(pools, model, in_order, action, kind)?;
        }
        action += 1;
    }
    Ok(())
}

// So many pools without a reference.
fn empty_pools(alloc: Global, count: usize) -> Result<Vec<NewEnds>, NoMemory>
    ensures { IfOk result (λ pools. (need : the_flow) (p : ℕ) → kept_at need p pools.items ≡ []) }
{
    let mut pools = Vec::new(alloc);
    for _ in 0..count {
        pools.push(NewEnds::new(alloc))?;
    }
    Ok(pools)
}

// The references of new actions, by pool.
fn all_pools(alloc: Global, model: &Model, in_order: bool) -> Result<Vec<NewEnds>, NoMemory>
    requires { IsTrue in_order → IsInOrder (view_model model.now).served }
    ensures { IfOk result (λ pools. (need : the_flow) (p : ℕ) → given_at need p pools.items ≡ beyond (view_model model.now) need p) }
{
    let mut pools = empty_pools(alloc, model.pools.len())?;
    add_types(&mut pools, model, in_order)?;
    Ok(pools)
}

impl<'a> NewSources<'a> {
    /// Those of a model, where so many actions are to be inferred. `in_order`: the entries for what serves
    /// references stand in order. `wanted`: some reference wants a source; else none is kept, at no cost.
    pub fn new(
        alloc: Global,
        model: &'a Model,
        in_order: bool,
        level: u32,
        wanted: bool,
    ) -> Result<NewSources<'a>, NoMemory>
        requires { IsTrue in_order → IsInOrder (view_model model.now).served }
        ensures model { IfOk result (λ news. news.model.now ≡ model.now) }
        ensures level { IfOk result (λ news. news.level ≡ level) }
        ensures new { IfOk result (λ news. IsTrue wanted → AreNew news) }
    {
        let pools = if wanted && level > 0 {
            all_pools(alloc, model, in_order)?
        } else {
            Vec::new(alloc)
        };
        Ok(NewSources {
            model,
            level,
            in_order,
            pools,
        })
    }

    /// Those that may be the source of a need of a kind in a pool, by type, instance and reference.
    pub fn of_need(&self, need: Flow, pool: u32) -> &[Source]
        ensures { result.now ≡ kept_at need pool self.now.pools.items }
    {
        match self.pools.get(pool as usize) {
            None => &[],
            Some(ends) => ends.of_need(need),
        }
    }
}
