//! The constraints that rest on the fields of a compound action.
ghost use Rattle.std.specs.Prelude.{◌≡◌, IfOk, OnOk, IfSome, map};
ghost use Rattle.std.specs.Option.{option_map};
ghost use Rattle.pst_model.specs.ConstraintTree.{view_slot, view_constraint};
ghost use Rattle.pst_model.specs.ModelView.{view_model};
ghost use Rattle.pst_model.specs.Sound.{IsSound};
ghost use Rattle.pst_legal.specs.Types.{type_of};
ghost use Rattle.pst_slots.specs.Listed.{action_constraints};
ghost use Rattle.pst_slots.specs.Stated.{statement_of};
ghost use Rattle.pst_known.specs.Known.{seen};
ghost use Rattle.pst_refusals.specs.Founds.{stated_of};
ghost use Rattle.pst_constraint_sites.specs.Sites.{AtNode};
ghost use Rattle.pst_field_values.specs.Subjects.{site_of, IsThere, IsReached};
ghost use Rattle.pst_field_values.specs.Writing.{IsNumbered, IsTermAt, AreTermsAt, Lasts, AllLast, AreOver, AreOverFields};

use crate::bounds::{add_bounds, field_bounds};
use crate::subject::{Position, Subject, compound_at, field_of, is_about, subject_of};
use pst_base::NoMemory;
use pst_expr::{Expr, Span};
use pst_known::Scene;
use pst_model::{Constraint, Model, Slot, Step};
use pst_refusals::{Stated, statement_behind};
use pst_written_constraints::{Term, write};
use std::alloc::Global;

/// Constraints, and the bounds of their variables.
#[derive(Drop)]
pub(crate) struct Written {
    pub(crate) constraints: Vec<Expr>,
    pub(crate) bounds: Vec<Option<Span>>,
}

// The variable so many behind another one.
fn variable_behind(base: usize, index: usize) -> Term
    ensures { IsNumbered base index result }
{
    let Some(number) = base.checked_add(index) else {
        return Term::Unknown;
    };
    match u32::try_from(number) {
        Ok(number) => Term::Variable(number),
        Err(_) => Term::Unknown,
    }
}

// What the slot of that number is written as: the variable of a field of the action, or one of its own, so many
// behind the first one.
fn term_of(subject: &Subject, position: &Position, slot: &Slot, base: usize, index: usize) -> Term
    ensures { IsTermAt subject.now position.now (view_slot slot.now) base index result }
{
    let Some(field) = field_of(subject, position, slot) else {
        return variable_behind(base, index);
    };
    if field as usize >= subject.fields {
        return variable_behind(base, index);
    }
    Term::Variable(field)
}

// What the slots of a constraint there are written as.
fn terms_of(
    alloc: Global,
    subject: &Subject,
    position: &Position,
    slots: &[Slot],
    base: usize,
) -> Result<Vec<Term>, NoMemory>
    ensures { IfOk result (λ terms. AreTermsAt subject.now position.now (map view_slot slots.now) base terms.items) }
{
    let mut terms = Vec::new(alloc);
    for slot in slots {
        let index = terms.len();
        terms.push(term_of(subject, position, slot, base, index))?;
    }
    Ok(terms)
}

// Writes a constraint there, if it can be written, behind the others.
fn write_constraint(
    alloc: Global,
    scene: &Scene<'_>,
    subject: &Subject,
    position: &Position,
    constraint: &Constraint,
    written: &mut Written,
) -> Result<(), NoMemory>
    requires sound { IsSound (view_model scene.now.model.now) }
    requires reached { IsReached (view_model scene.now.model.now) scene.now.nodes.now subject.now }
    requires there { IsThere scene.now.nodes.now (site_of subject.now position.now) }
    requires lasts { Lasts (view_model scene.now.model.now) (seen scene.now) (site_of subject.now position.now) (view_constraint constraint.now) }
    requires over { AreOver (view_model scene.now.model.now) (seen scene.now) subject.now written.old }
    ensures over { OnOk result (AreOver (view_model scene.now.model.now) (seen scene.now) subject.now written.new) }
{
    let slots = constraint.slots.as_slice();
    let base = written.bounds.len();
    let terms = terms_of(alloc, subject, position, slots, base)?;
    let Some(e) = write(alloc, terms.as_slice(), &constraint.expr)? else {
        return Ok(());
    };
    add_bounds(alloc, scene, subject, position, slots, &mut written.bounds)?;
    written.constraints.push(e)?;
    Ok(())
}

// Writes those of the constraints there that speak of a field of the action.
fn write_all(
    alloc: Global,
    scene: &Scene<'_>,
    subject: &Subject,
    position: &Position,
    constraints: &[Constraint],
    written: &mut Written,
) -> Result<(), NoMemory>
    requires sound { IsSound (view_model scene.now.model.now) }
    requires reached { IsReached (view_model scene.now.model.now) scene.now.nodes.now subject.now }
    requires there { IsThere scene.now.nodes.now (site_of subject.now position.now) }
    requires last { AllLast (view_model scene.now.model.now) (seen scene.now) (site_of subject.now position.now) (map view_constraint constraints.now) }
    requires over { AreOver (view_model scene.now.model.now) (seen scene.now) subject.now written.old }
    ensures over { OnOk result (AreOver (view_model scene.now.model.now) (seen scene.now) subject.now written.new) }
{
    for constraint in constraints {
        if is_about(subject, position, constraint.slots.as_slice()) {
            write_constraint(alloc, scene, subject, position, constraint, written)?;
        }
    }
    Ok(())
}

// The constraints of an action type, none where there is no such type.
fn action_constraints(model: &Model, action: u32) -> &[Constraint]
    ensures { map view_constraint result.now ≡ action_constraints (type_of (view_model model.now) action) }
{
    match model.actions.get(action as usize) {
        None => &[],
        Some(kind) => kind.constraints.as_slice(),
    }
}

// Writes those of the compound action of a node.
fn write_at(
    alloc: Global,
    scene: &Scene<'_>,
    subject: &Subject,
    position: &Position,
    n: usize,
    written: &mut Written,
) -> Result<(), NoMemory>
    requires sound { IsSound (view_model scene.now.model.now) }
    requires reached { IsReached (view_model scene.now.model.now) scene.now.nodes.now subject.now }
    requires at { site_of subject.now position.now ≡ AtNode n }
    requires over { AreOver (view_model scene.now.model.now) (seen scene.now) subject.now written.old }
    ensures over { OnOk result (AreOver (view_model scene.now.model.now) (seen scene.now) subject.now written.new) }
{
    let Some(action) = compound_at(scene.nodes, n) else {
        return Ok(());
    };
    let constraints = action_constraints(scene.model, action);
    write_all(alloc, scene, subject, position, constraints, written)
}

// Writes those at the traversal, where the node of the action stands for this statement.
fn write_traversal(
    alloc: Global,
    scene: &Scene<'_>,
    subject: &Subject,
    stated: Option<Stated<'_>>,
    written: &mut Written,
) -> Result<(), NoMemory>
    requires sound { IsSound (view_model scene.now.model.now) }
    requires reached { IsReached (view_model scene.now.model.now) scene.now.nodes.now subject.now }
    requires stated { option_map stated_of stated ≡ statement_of (view_model scene.now.model.now) scene.now.nodes.now subject.now.node }
    requires top { IfSome stated (λ x. subject.now.top ≡ x.top) }
    requires over { AreOver (view_model scene.now.model.now) (seen scene.now) subject.now written.old }
    ensures over { OnOk result (AreOver (view_model scene.now.model.now) (seen scene.now) subject.now written.new) }
{
    let Some(found) = stated else {
        return Ok(());
    };
    let Step::Traverse { inline, .. } = found.step else {
        return Ok(());
    };
    let position = Position::Traversal {
        indices: found.indices,
    };
    write_all(alloc, scene, subject, &position, inline.as_slice(), written)
}

// Writes those of the action round it, where that traverses it by a handle.
fn write_around(
    alloc: Global,
    scene: &Scene<'_>,
    subject: &Subject,
    written: &mut Written,
) -> Result<(), NoMemory>
    requires sound { IsSound (view_model scene.now.model.now) }
    requires reached { IsReached (view_model scene.now.model.now) scene.now.nodes.now subject.now }
    requires over { AreOver (view_model scene.now.model.now) (seen scene.now) subject.now written.old }
    ensures over { OnOk result (AreOver (view_model scene.now.model.now) (seen scene.now) subject.now written.new) }
{
    if subject.handle.is_none() {
        return Ok(());
    }
    write_at(
        alloc,
        scene,
        subject,
        &Position::Around,
        subject.top,
        written,
    )
}

// No constraint on the fields of the action.
fn begin(alloc: Global, scene: &Scene<'_>, subject: &Subject) -> Result<Written, NoMemory>
    requires sound { IsSound (view_model scene.now.model.now) }
    requires reached { IsReached (view_model scene.now.model.now) scene.now.nodes.now subject.now }
    ensures over { IfOk result (λ written. AreOver (view_model scene.now.model.now) (seen scene.now) subject.now written) }
{
    let bounds = field_bounds(alloc, scene, subject)?;
    Ok(Written {
        constraints: Vec::new(alloc),
        bounds,
    })
}

// The constraints that rest on the fields of an action, whose node stands for this statement.
fn write_subject(
    alloc: Global,
    scene: &Scene<'_>,
    subject: &Subject,
    stated: Option<Stated<'_>>,
) -> Result<Written, NoMemory>
    requires sound { IsSound (view_model scene.now.model.now) }
    requires reached { IsReached (view_model scene.now.model.now) scene.now.nodes.now subject.now }
    requires stated { option_map stated_of stated ≡ statement_of (view_model scene.now.model.now) scene.now.nodes.now subject.now.node }
    requires top { IfSome stated (λ x. subject.now.top ≡ x.top) }
    ensures over { IfOk result (λ written. AreOver (view_model scene.now.model.now) (seen scene.now) subject.now written) }
{
    let mut written = begin(alloc, scene, subject)?;
    let position = Position::Itself;
    write_at(alloc, scene, subject, &position, subject.node, &mut written)?;
    write_traversal(alloc, scene, subject, stated, &mut written)?;
    write_around(alloc, scene, subject, &mut written)?;
    Ok(written)
}

/// The constraints that rest on the fields of the compound action of a node.
pub(crate) fn write_fields(
    alloc: Global,
    scene: &Scene<'_>,
    node: usize,
) -> Result<Written, NoMemory>
    requires { IsSound (view_model scene.now.model.now) }
    ensures { IfOk result (λ written. AreOverFields (view_model scene.now.model.now) (seen scene.now) node written) }
{
    let stated = statement_behind(alloc, scene.model, scene.nodes, node)?;
    let subject = subject_of(alloc, scene, node, &stated)?;
    write_subject(alloc, scene, &subject, stated)
}
