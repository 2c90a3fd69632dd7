//! What components, actions, objects, enums and functions declare.
ghost use Rattle.std.specs.Prelude.{◌≡◌, ◌++◌, OnOk, map};
ghost use Rattle.std.specs.List.{flat_map};
ghost use Rattle.std.specs.Option.{option_map};
ghost use Rattle.pst_ast.specs.DeclarationView.{view_action, view_action_part, view_component, view_component_part, view_enum, view_function, view_item, view_members, view_next_enum_item, view_next_parameter, view_object, view_object_part, view_parameters, view_pool};
ghost use Rattle.pst_ast.specs.declared.scope_declaration.Sort.TheVariants.{Handle, Instance, Parameter};
ghost use Rattle.pst_ast.specs.Declarations;

use crate::collect_activity::add_activity;
use crate::collect_body::add_body;
use crate::collect_constraint::add_constraint;
use crate::collect_member::{add_claim, add_field, add_names, add_reference};
use crate::single::{level_of, push_member, push_type};
use pst_ast::{
    ActionNode, ActionPart, BaseNode, ComponentNode, ComponentPart, Declaration, EnumNode,
    FunctionNode, Item, MembersNode, NextEnumItem, NextParameter, ObjectNode, ObjectPart,
    ParametersNode, PoolNode, Sort, TypeName,
};
use pst_base::{NoMemory, Place};

// Action handles.
fn add_handles(
    found: &mut Vec<Declaration>,
    owner: Place,
    members: &MembersNode,
) -> Result<(), NoMemory>
    ensures { OnOk result (found.new.items ≡ found.old.items ++ Declarations.in_members owner (λ of. Handle of) (view_members members.now)) }
{
    let sort = Sort::Handle {
        of: members.member_type,
    };
    add_names(found, owner, sort, &members.names)
}

// Component instances.
fn add_instances(
    found: &mut Vec<Declaration>,
    owner: Place,
    members: &MembersNode,
) -> Result<(), NoMemory>
    ensures { OnOk result (found.new.items ≡ found.old.items ++ Declarations.in_members owner (λ of. Instance of) (view_members members.now)) }
{
    let sort = Sort::Instance {
        of: members.member_type,
    };
    add_names(found, owner, sort, &members.names)
}

// One part of `action` between its braces.
fn add_action_part(
    found: &mut Vec<Declaration>,
    owner: Place,
    part: &ActionPart,
) -> Result<(), NoMemory>
    ensures { OnOk result (found.new.items ≡ found.old.items ++ Declarations.in_action_part owner (view_action_part part.now)) }
{
    match part {
        ActionPart::Field(field) => add_field(found, owner, field),
        ActionPart::Reference(reference) => add_reference(found, owner, reference),
        ActionPart::Claim(claim) => add_claim(found, owner, claim),
        ActionPart::Members(members) => add_handles(found, owner, members),
        ActionPart::Constraint(constraint) => add_constraint(found, owner, constraint),
        ActionPart::Activity(activity) => add_activity(found, owner, activity),
        ActionPart::Body(body) => add_body(found, owner, body),
        ActionPart::Empty(_) => Ok(()),
    }
}

// What each declares, in order.
fn add_action_parts(
    found: &mut Vec<Declaration>,
    owner: Place,
    parts: &[ActionPart],
) -> Result<(), NoMemory>
    ensures { OnOk result (found.new.items ≡ found.old.items ++ flat_map (Declarations.in_action_part owner) (map view_action_part parts.now)) }
{
    for part in parts {
        add_action_part(found, owner, part)?;
    }
    Ok(())
}

// One part of `object` between its braces.
fn add_object_part(
    found: &mut Vec<Declaration>,
    owner: Place,
    part: &ObjectPart,
) -> Result<(), NoMemory>
    ensures { OnOk result (found.new.items ≡ found.old.items ++ Declarations.in_object_part owner (view_object_part part.now)) }
{
    match part {
        ObjectPart::Field(field) => add_field(found, owner, field),
        ObjectPart::Constraint(constraint) => add_constraint(found, owner, constraint),
        ObjectPart::Empty(_) => Ok(()),
    }
}

// What each declares, in order.
fn add_object_parts(
    found: &mut Vec<Declaration>,
    owner: Place,
    parts: &[ObjectPart],
) -> Result<(), NoMemory>
    ensures { OnOk result (found.new.items ≡ found.old.items ++ flat_map (Declarations.in_object_part owner) (map view_object_part parts.now)) }
{
    for part in parts {
        add_object_part(found, owner, part)?;
    }
    Ok(())
}

// The name of an action's base.
fn name_of_base(base: &Option<BaseNode>) -> Option<TypeName>
    ensures { result ≡ option_map Declarations.base_name base.now }
{
    match base {
        None => None,
        Some(base) => Some(base.name),
    }
}

// action = ["abstract"] "action" NAME [ ":" tname ] "{" { field | ref | claim | members | constraint | activity | body | ";" } "}"
fn add_action(
    found: &mut Vec<Declaration>,
    component: Place,
    action: &ActionNode,
) -> Result<(), NoMemory>
    ensures { OnOk result (found.new.items ≡ found.old.items ++ Declarations.in_action component (view_action action.now)) }
{
    let sort = Sort::Action {
        base: name_of_base(&action.base),
    };
    push_type(found, Some(component), sort, action.name)?;
    add_action_parts(found, action.name.place, action.parts.as_slice())
}

// object = ("buffer"|"stream"|"state"|"resource") NAME "{" { field | constraint | ";" } "}"
fn add_object(
    found: &mut Vec<Declaration>,
    component: Option<Place>,
    object: &ObjectNode,
) -> Result<(), NoMemory>
    ensures { OnOk result (found.new.items ≡ found.old.items ++ Declarations.in_object component (view_object object.now)) }
{
    push_type(
        found,
        component,
        Sort::Object { word: object.word },
        object.name,
    )?;
    add_object_parts(found, object.name.place, object.parts.as_slice())
}

// The items behind the first, as members of a sort.
fn add_next_enum_items(
    found: &mut Vec<Declaration>,
    owner: Place,
    sort: Sort,
    items: &[NextEnumItem],
) -> Result<(), NoMemory>
    ensures { OnOk result (found.new.items ≡ found.old.items ++ map (λ i. Declarations.member owner sort (Declarations.item_name i)) (map Declarations.next_item (map view_next_enum_item items.now))) }
{
    for next in items {
        push_member(found, owner, sort, next.item.name)?;
    }
    Ok(())
}

// enum = "enum" NAME "{" eitem { "," eitem } "}"
fn add_enum(
    found: &mut Vec<Declaration>,
    component: Option<Place>,
    enum_node: &EnumNode,
) -> Result<(), NoMemory>
    ensures { OnOk result (found.new.items ≡ found.old.items ++ Declarations.in_enum component (view_enum enum_node.now)) }
{
    let owner = enum_node.name.place;
    let sort = Sort::Item {
        level: level_of(component),
    };
    push_type(found, component, Sort::Enumeration, enum_node.name)?;
    push_member(found, owner, sort, enum_node.first.name)?;
    add_next_enum_items(found, owner, sort, enum_node.rest.as_slice())
}

// The parameters behind the first.
fn add_next_parameters(
    found: &mut Vec<Declaration>,
    owner: Place,
    parameters: &[NextParameter],
) -> Result<(), NoMemory>
    ensures { OnOk result (found.new.items ≡ found.old.items ++ map (λ p. Declarations.member owner Parameter (Declarations.parameter_name p)) (map Declarations.next_parameter (map view_next_parameter parameters.now))) }
{
    for next in parameters {
        push_member(found, owner, Sort::Parameter, next.parameter.name)?;
    }
    Ok(())
}

// [ param { "," param } ]
fn add_parameters(
    found: &mut Vec<Declaration>,
    owner: Place,
    parameters: &Option<ParametersNode>,
) -> Result<(), NoMemory>
    ensures { OnOk result (found.new.items ≡ found.old.items ++ map (λ p. Declarations.member owner Parameter (Declarations.parameter_name p)) (Declarations.parameters_of (option_map view_parameters parameters.now))) }
{
    match parameters {
        None => Ok(()),
        Some(parameters) => {
            push_member(found, owner, Sort::Parameter, parameters.first.name)?;
            add_next_parameters(found, owner, parameters.rest.as_slice())
        }
    }
}

// function = "import" ["target"] "function" ("void" | plain) NAME "(" [ param { "," param } ] ")" ";"
fn add_function(
    found: &mut Vec<Declaration>,
    component: Option<Place>,
    function: &FunctionNode,
) -> Result<(), NoMemory>
    ensures { OnOk result (found.new.items ≡ found.old.items ++ Declarations.in_function component (view_function function.now)) }
{
    push_type(found, component, Sort::Function, function.name)?;
    add_parameters(found, function.name.place, &function.parameters)
}

// pool = "pool" [ "[" expr "]" ] tname NAME ";"
fn add_pool(found: &mut Vec<Declaration>, component: Place, pool: &PoolNode) -> Result<(), NoMemory>
    ensures { OnOk result (found.new.items ≡ found.old.items ++ Declarations.in_pool component (view_pool pool.now)) }
{
    push_member(found, component, Sort::Pool { of: pool.object }, pool.name)
}

// One part of `component` between its braces.
fn add_component_part(
    found: &mut Vec<Declaration>,
    component: Place,
    part: &ComponentPart,
) -> Result<(), NoMemory>
    ensures { OnOk result (found.new.items ≡ found.old.items ++ Declarations.in_component_part component (view_component_part part.now)) }
{
    match part {
        ComponentPart::Action(action) => add_action(found, component, action),
        ComponentPart::Object(object) => add_object(found, Some(component), object),
        ComponentPart::Enum(enum_node) => add_enum(found, Some(component), enum_node),
        ComponentPart::Function(function) => add_function(found, Some(component), function),
        ComponentPart::Pool(pool) => add_pool(found, component, pool),
        ComponentPart::PoolBind(_) => Ok(()),
        ComponentPart::Members(members) => add_instances(found, component, members),
        ComponentPart::Empty(_) => Ok(()),
    }
}

// What each declares, in order.
fn add_component_parts(
    found: &mut Vec<Declaration>,
    component: Place,
    parts: &[ComponentPart],
) -> Result<(), NoMemory>
    ensures { OnOk result (found.new.items ≡ found.old.items ++ flat_map (Declarations.in_component_part component) (map view_component_part parts.now)) }
{
    for part in parts {
        add_component_part(found, component, part)?;
    }
    Ok(())
}

// component = "component" NAME "{" { action | object | enum | function | pool | poolbind | members | ";" } "}"
fn add_component(found: &mut Vec<Declaration>, component: &ComponentNode) -> Result<(), NoMemory>
    ensures { OnOk result (found.new.items ≡ found.old.items ++ Declarations.in_component (view_component component.now)) }
{
    push_type(found, None, Sort::Component, component.name)?;
    add_component_parts(found, component.name.place, component.parts.as_slice())
}

// One part of `unit` before its end.
fn add_item(found: &mut Vec<Declaration>, item: &Item) -> Result<(), NoMemory>
    ensures { OnOk result (found.new.items ≡ found.old.items ++ Declarations.in_item_of_unit (view_item item.now)) }
{
    match item {
        Item::Component(component) => add_component(found, component),
        Item::Object(object) => add_object(found, None, object),
        Item::Enum(enum_node) => add_enum(found, None, enum_node),
        Item::Function(function) => add_function(found, None, function),
        Item::Empty(_) => Ok(()),
    }
}

// What each declares, in order.
pub fn add_items(found: &mut Vec<Declaration>, items: &[Item]) -> Result<(), NoMemory>
    ensures { OnOk result (found.new.items ≡ found.old.items ++ flat_map Declarations.in_item_of_unit (map view_item items.now)) }
{
    for item in items {
        add_item(found, item)?;
    }
    Ok(())
}
