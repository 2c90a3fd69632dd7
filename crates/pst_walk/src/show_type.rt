//! The uses in objects, enums and functions.
ghost use Rattle.std.specs.Prelude.{◌≡◌, OnOk, map};
ghost use Rattle.std.specs.List.{flat_map, fold};
ghost use Rattle.std.specs.Option.{option_map};
ghost use Rattle.pst_ast.specs.DeclarationView.{view_answer, view_enum, view_enum_item, view_function, view_next_enum_item, view_next_parameter, view_object, view_object_part, view_parameter, view_parameters};
ghost use Rattle.pst_ast.specs.Declarations;
ghost use Rattle.pst_ast.specs.Declarations.{next_item, next_parameter, parameters_of, type_declared};
ghost use Rattle.pst_ast.specs.Uses;
ghost use Rattle.pst_ast.specs.Uses.{answer_uses, enum_uses, enum_value_uses, function_uses, object_part_uses, object_uses, parameter_uses};

use pst_ast::{
    AnswerNode, Declaration, EnumItem, EnumNode, Environment, FunctionNode, Inner, Name,
    NextEnumItem, NextParameter, ObjectNode, ObjectPart, Owner, ParameterNode, ParametersNode,
    Scope, Sort,
};
use pst_base::{NoMemory, Place};
use pst_walk_parts::show_constraint::show_constraint;
use pst_walk_parts::show_shared::{show_field, show_plain, show_whole};
use pst_walk_parts::{Role, Visitor};
use std::alloc::Global;

// Where the uses of an action, an object or neither stand.
pub fn environment(alloc: Global, component: Option<Place>, owner: Owner) -> Environment
    ensures { result ≡ Uses.environment component owner }
{
    Environment {
        component,
        owner,
        inner: Inner::new(alloc),
        traversal: None,
    }
}

// The scope of file level, or of a component.
fn level_of(component: Option<Place>) -> Scope
    ensures { result ≡ Declarations.level_of component }
{
    match component {
        None => Scope::Files,
        Some(place) => Scope::Part(place),
    }
}

// The declaration of a type, at file level or in a component.
pub fn declaration_of(component: Option<Place>, sort: Sort, name: Name) -> Declaration
    ensures { result ≡ type_declared component sort name }
{
    Declaration {
        name,
        scope: level_of(component),
        inside: component,
        sort,
    }
}

// Shows the uses in an object.
#[tactic(auto, using(crate::proofs::Folds::fold_append))]
pub fn show_object<V: Visitor>(
    alloc: Global,
    visitor: &mut V,
    component: Option<Place>,
    object: &ObjectNode,
) -> Result<(), NoMemory>
    ensures { OnOk result (visitor.new ≡ fold V.step visitor.old (object_uses component (view_object object.now))) }
{
    let declaration = declaration_of(component, Sort::Object { word: object.word }, object.name);
    let mut at = environment(alloc, component, Owner::OfObject(declaration));
    show_object_parts(visitor, &mut at, object.parts.as_slice())
}

// Shows the uses in the parts of an object.
#[tactic(auto, using(crate::proofs::Folds::fold_append))]
fn show_object_parts<V: Visitor>(
    visitor: &mut V,
    at: &mut Environment,
    parts: &[ObjectPart],
) -> Result<(), NoMemory>
    ensures { OnOk result (visitor.new ≡ fold V.step visitor.old (flat_map (object_part_uses at.old) (map view_object_part parts.now))) }
{
    for part in parts {
        show_object_part(visitor, at, part)?;
    }
    Ok(())
}

// Shows the uses in a part of an object.
#[tactic(auto, using(crate::proofs::Folds::fold_append))]
fn show_object_part<V: Visitor>(
    visitor: &mut V,
    at: &mut Environment,
    part: &ObjectPart,
) -> Result<(), NoMemory>
    ensures uses { OnOk result (visitor.new ≡ fold V.step visitor.old (object_part_uses at.old (view_object_part part.now))) }
    ensures kept { OnOk result (at.new ≡ at.old) }
{
    match part {
        ObjectPart::Field(field) => show_field(visitor, at, field),
        ObjectPart::Constraint(constraint) => show_constraint(visitor, at, constraint),
        ObjectPart::Empty(_) => Ok(()),
    }
}

// Shows the uses in an enum.
#[tactic(auto, using(crate::proofs::Folds::fold_append))]
pub fn show_enum<V: Visitor>(
    alloc: Global,
    visitor: &mut V,
    component: Option<Place>,
    enum_: &EnumNode,
) -> Result<(), NoMemory>
    ensures { OnOk result (visitor.new ≡ fold V.step visitor.old (enum_uses component (view_enum enum_.now))) }
{
    show_enum_item(alloc, visitor, component, &enum_.first)?;
    show_next_enum_items(alloc, visitor, component, enum_.rest.as_slice())
}

// Shows the uses in an item of an enum.
#[tactic(auto, using(crate::proofs::Folds::fold_append))]
fn show_enum_item<V: Visitor>(
    alloc: Global,
    visitor: &mut V,
    component: Option<Place>,
    item: &EnumItem,
) -> Result<(), NoMemory>
    ensures { OnOk result (visitor.new ≡ fold V.step visitor.old (enum_value_uses component (view_enum_item item.now))) }
{
    match &item.value {
        None => Ok(()),
        Some(value) => {
            let at = environment(alloc, component, Owner::Nobody);
            show_whole(visitor, &at, Role::EnumValue, &value.expr)
        }
    }
}

// Shows the uses in the items of an enum behind the first.
#[tactic(auto, using(crate::proofs::Folds::fold_append))]
fn show_next_enum_items<V: Visitor>(
    alloc: Global,
    visitor: &mut V,
    component: Option<Place>,
    items: &[NextEnumItem],
) -> Result<(), NoMemory>
    ensures { OnOk result (visitor.new ≡ fold V.step visitor.old (flat_map (enum_value_uses component) (map next_item (map view_next_enum_item items.now)))) }
{
    for next in items {
        show_enum_item(alloc, visitor, component, &next.item)?;
    }
    Ok(())
}

// Shows the uses in a function.
#[tactic(auto, using(crate::proofs::Folds::fold_append))]
pub fn show_function<V: Visitor>(
    alloc: Global,
    visitor: &mut V,
    component: Option<Place>,
    function: &FunctionNode,
) -> Result<(), NoMemory>
    ensures { OnOk result (visitor.new ≡ fold V.step visitor.old (function_uses component (view_function function.now))) }
{
    show_answer(alloc, visitor, component, &function.answer)?;
    show_parameters(alloc, visitor, component, &function.parameters)
}

// Shows the uses in the type of an answer.
#[tactic(auto, using(crate::proofs::Folds::fold_append))]
fn show_answer<V: Visitor>(
    alloc: Global,
    visitor: &mut V,
    component: Option<Place>,
    answer: &AnswerNode,
) -> Result<(), NoMemory>
    ensures { OnOk result (visitor.new ≡ fold V.step visitor.old (answer_uses component (view_answer answer.now))) }
{
    match answer {
        AnswerNode::Void(_) => Ok(()),
        AnswerNode::Plain(plain) => {
            let at = environment(alloc, component, Owner::Nobody);
            show_plain(visitor, &at, plain)
        }
    }
}

// Shows the uses in parameters.
#[tactic(auto, using(crate::proofs::Folds::fold_append))]
fn show_parameters<V: Visitor>(
    alloc: Global,
    visitor: &mut V,
    component: Option<Place>,
    parameters: &Option<ParametersNode>,
) -> Result<(), NoMemory>
    ensures { OnOk result (visitor.new ≡ fold V.step visitor.old (flat_map (parameter_uses component) (parameters_of (option_map view_parameters parameters.now)))) }
{
    match parameters {
        None => Ok(()),
        Some(parameters) => {
            show_parameter(alloc, visitor, component, &parameters.first)?;
            show_next_parameters(alloc, visitor, component, parameters.rest.as_slice())
        }
    }
}

// Shows the uses in the type of a parameter.
#[tactic(auto, using(crate::proofs::Folds::fold_append))]
fn show_parameter<V: Visitor>(
    alloc: Global,
    visitor: &mut V,
    component: Option<Place>,
    parameter: &ParameterNode,
) -> Result<(), NoMemory>
    ensures { OnOk result (visitor.new ≡ fold V.step visitor.old (parameter_uses component (view_parameter parameter.now))) }
{
    let at = environment(alloc, component, Owner::Nobody);
    show_plain(visitor, &at, &parameter.plain)
}

// Shows the uses in the parameters behind the first.
#[tactic(auto, using(crate::proofs::Folds::fold_append))]
fn show_next_parameters<V: Visitor>(
    alloc: Global,
    visitor: &mut V,
    component: Option<Place>,
    parameters: &[NextParameter],
) -> Result<(), NoMemory>
    ensures { OnOk result (visitor.new ≡ fold V.step visitor.old (flat_map (parameter_uses component) (map next_parameter (map view_next_parameter parameters.now)))) }
{
    for next in parameters {
        show_parameter(alloc, visitor, component, &next.parameter)?;
    }
    Ok(())
}
