//! The uses in components.
ghost use Rattle.std.specs.Prelude.{◌≡◌, OnOk, Some, map};
ghost use Rattle.std.specs.List.{flat_map, fold};
ghost use Rattle.std.specs.Option.{option_map};
ghost use Rattle.pst_ast.specs.DeclarationView.{view_component, view_component_part, view_next_target, view_size, view_targets};
ghost use Rattle.pst_ast.specs.Uses.{component_part_uses, component_uses, next_target, option_uses, size_uses, target_use, targets_of};

use crate::show_action::show_action;
use crate::show_type::{environment, show_enum, show_function, show_object};
use pst_ast::{
    ComponentNode, ComponentPart, Name, NextTarget, Owner, SizeNode, TargetsNode, TypeName,
};
use pst_base::{NoMemory, Place};
use pst_walk_parts::show_shared::show_whole;
use pst_walk_parts::{Role, Visitor, Wanted};
use std::alloc::Global;

// Shows the uses in a component.
#[tactic(auto, using(crate::proofs::Folds::fold_append))]
pub fn show_component<V: Visitor>(
    alloc: Global,
    visitor: &mut V,
    component: &ComponentNode,
) -> Result<(), NoMemory>
    ensures { OnOk result (visitor.new ≡ fold V.step visitor.old (component_uses (view_component component.now))) }
{
    show_component_parts(
        alloc,
        visitor,
        component.name.place,
        component.parts.as_slice(),
    )
}

// Shows the uses in the parts of a component.
#[tactic(auto, using(crate::proofs::Folds::fold_append))]
fn show_component_parts<V: Visitor>(
    alloc: Global,
    visitor: &mut V,
    component: Place,
    parts: &[ComponentPart],
) -> Result<(), NoMemory>
    ensures { OnOk result (visitor.new ≡ fold V.step visitor.old (flat_map (component_part_uses component) (map view_component_part parts.now))) }
{
    for part in parts {
        show_component_part(alloc, visitor, component, part)?;
    }
    Ok(())
}

// Shows the uses in a part of a component.
#[tactic(auto, using(crate::proofs::Folds::fold_append))]
fn show_component_part<V: Visitor>(
    alloc: Global,
    visitor: &mut V,
    component: Place,
    part: &ComponentPart,
) -> Result<(), NoMemory>
    ensures { OnOk result (visitor.new ≡ fold V.step visitor.old (component_part_uses component (view_component_part part.now))) }
{
    match part {
        ComponentPart::Action(action) => show_action(alloc, visitor, component, action),
        ComponentPart::Object(object) => show_object(alloc, visitor, Some(component), object),
        ComponentPart::Enum(enum_) => show_enum(alloc, visitor, Some(component), enum_),
        ComponentPart::Function(function) => {
            show_function(alloc, visitor, Some(component), function)
        }
        ComponentPart::Pool(pool) => {
            show_optional_size(alloc, visitor, component, pool.object, &pool.size)?;
            visitor.names_type(Some(component), Wanted::Object, pool.object)
        }
        ComponentPart::PoolBind(bind) => {
            visitor.binds(component, bind.pool)?;
            show_targets(visitor, component, bind.pool, &bind.targets)
        }
        ComponentPart::Members(members) => {
            visitor.names_type(Some(component), Wanted::Component, members.member_type)
        }
        ComponentPart::Empty(_) => Ok(()),
    }
}

// Shows the size of a pool, where it has one.
#[tactic(auto, using(crate::proofs::Folds::fold_append))]
fn show_optional_size<V: Visitor>(
    alloc: Global,
    visitor: &mut V,
    component: Place,
    object: TypeName,
    size: &Option<SizeNode>,
) -> Result<(), NoMemory>
    ensures { OnOk result (visitor.new ≡ fold V.step visitor.old (option_uses (size_uses (Some component) object) (option_map view_size size.now))) }
{
    match size {
        None => Ok(()),
        Some(size) => {
            let at = environment(alloc, Some(component), Owner::Nobody);
            show_whole(visitor, &at, Role::PoolSize { object }, &size.expr)
        }
    }
}

// Shows the targets that a pool is bound to.
#[tactic(auto, using(crate::proofs::Folds::fold_append))]
fn show_targets<V: Visitor>(
    visitor: &mut V,
    component: Place,
    pool: Name,
    targets: &TargetsNode,
) -> Result<(), NoMemory>
    ensures { OnOk result (visitor.new ≡ fold V.step visitor.old (map (target_use component pool) (targets_of (view_targets targets.now)))) }
{
    match targets {
        TargetsNode::All(_) => Ok(()),
        TargetsNode::One(target) => visitor.targets(component, pool, target),
        TargetsNode::Several { first, rest, .. } => {
            visitor.targets(component, pool, first)?;
            show_next_targets(visitor, component, pool, rest.as_slice())
        }
    }
}

// Shows the targets behind the first.
#[tactic(auto, using(crate::proofs::Folds::fold_append))]
fn show_next_targets<V: Visitor>(
    visitor: &mut V,
    component: Place,
    pool: Name,
    targets: &[NextTarget],
) -> Result<(), NoMemory>
    ensures { OnOk result (visitor.new ≡ fold V.step visitor.old (map (target_use component pool) (map next_target (map view_next_target targets.now)))) }
{
    for next in targets {
        visitor.targets(component, pool, &next.target)?;
    }
    Ok(())
}
