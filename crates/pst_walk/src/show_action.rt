//! The uses in actions.
ghost use Rattle.std.specs.Prelude.{◌≡◌, ◌∷◌, [], OnOk, map};
ghost use Rattle.std.specs.List.{flat_map, fold};
ghost use Rattle.std.specs.Option.{option_map};
ghost use Rattle.pst_ast.specs.DeclarationView.{view_action, view_action_part};
ghost use Rattle.pst_ast.specs.Declarations.{action_declared, base_name};
ghost use Rattle.pst_ast.specs.Uses.{NamesBase, action_part_uses, action_uses, option_uses};

use crate::show_type::{declaration_of, environment};
use pst_ast::{ActionNode, ActionPart, BaseNode, Declaration, Environment, Owner, Sort, TypeName};
use pst_base::{NoMemory, Place};
use pst_walk_act::show_activity::show_activity;
use pst_walk_body::show_body::show_body;
use pst_walk_parts::show_constraint::show_constraint;
use pst_walk_parts::show_shared::show_field;
use pst_walk_parts::{Visitor, Wanted};
use std::alloc::Global;

// The name of the base of an action.
fn name_of_base(base: &Option<BaseNode>) -> Option<TypeName>
    ensures { result ≡ option_map base_name base.now }
{
    match base {
        None => None,
        Some(base) => Some(base.name),
    }
}

// The declaration of an action.
fn declaration_of_action(component: Place, action: &ActionNode) -> Declaration
    ensures { result ≡ action_declared component action.now.base action.now.name }
{
    let base = name_of_base(&action.base);
    declaration_of(Some(component), Sort::Action { base }, action.name)
}

// Shows the uses in an action.
#[tactic(auto, using(crate::proofs::Folds::fold_append))]
pub fn show_action<V: Visitor>(
    alloc: Global,
    visitor: &mut V,
    component: Place,
    action: &ActionNode,
) -> Result<(), NoMemory>
    ensures { OnOk result (visitor.new ≡ fold V.step visitor.old (action_uses component (view_action action.now))) }
{
    let declaration = declaration_of_action(component, action);
    show_base(visitor, &declaration, &action.base)?;
    let mut at = environment(alloc, Some(component), Owner::OfAction(declaration));
    show_action_parts(visitor, &mut at, action.parts.as_slice())
}

// Shows the base of an action, where it has one.
#[tactic(auto, using(crate::proofs::Folds::fold_append))]
fn show_base<V: Visitor>(
    visitor: &mut V,
    action: &Declaration,
    base: &Option<BaseNode>,
) -> Result<(), NoMemory>
    ensures { OnOk result (visitor.new ≡ fold V.step visitor.old (option_uses (λ b. NamesBase action.now (base_name b) ∷ []) base.now)) }
{
    match base {
        None => Ok(()),
        Some(base) => visitor.names_base(action, base.name),
    }
}

// Shows the uses in the parts of an action.
#[tactic(auto, using(crate::proofs::Folds::fold_append))]
fn show_action_parts<V: Visitor>(
    visitor: &mut V,
    at: &mut Environment,
    parts: &[ActionPart],
) -> Result<(), NoMemory>
    ensures { OnOk result (visitor.new ≡ fold V.step visitor.old (flat_map (action_part_uses at.old) (map view_action_part parts.now))) }
{
    for part in parts {
        show_action_part(visitor, at, part)?;
    }
    Ok(())
}

// Shows the uses in a part of an action.
#[tactic(auto, using(crate::proofs::Folds::fold_append))]
fn show_action_part<V: Visitor>(
    visitor: &mut V,
    at: &mut Environment,
    part: &ActionPart,
) -> Result<(), NoMemory>
    ensures uses { OnOk result (visitor.new ≡ fold V.step visitor.old (action_part_uses at.old (view_action_part part.now))) }
    ensures kept { OnOk result (at.new ≡ at.old) }
{
    match part {
        ActionPart::Field(field) => show_field(visitor, at, field),
        ActionPart::Reference(reference) => {
            visitor.names_type(at.component, Wanted::Object, reference.object)
        }
        ActionPart::Claim(claim) => visitor.names_type(at.component, Wanted::Object, claim.object),
        ActionPart::Members(members) => {
            visitor.names_type(at.component, Wanted::Action, members.member_type)
        }
        ActionPart::Constraint(constraint) => show_constraint(visitor, at, constraint),
        ActionPart::Activity(activity) => show_activity(visitor, at, activity),
        ActionPart::Body(body) => show_body(visitor, at, body),
        ActionPart::Empty(_) => Ok(()),
    }
}
