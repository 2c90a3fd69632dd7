//! The fields of the sources.
ghost use Rattle.std.specs.Prelude.{◌≡◌, ◌++◌, ◌∷◌, [], IfOk, OnOk, map, Some};
ghost use Rattle.std.specs.List.{flat_map};
ghost use Rattle.std.specs.Option.{option_map};
ghost use Rattle.pst_ast.specs.DeclarationView.{view_action, view_action_part, view_component_part, view_field, view_item, view_next_field, view_object, view_object_part, view_unit};
ghost use Rattle.pst_ast.specs.ExpressionView.{view_expr, view_part};
ghost use Rattle.pst_ast.specs.SharedView.{view_type};
ghost use Rattle.pst_ast.specs.declared.scope_declaration.Sort.TheVariants.{Object as AnObject};
ghost use Rattle.pst_ast.specs.Declarations.{action_declared, base_name, level_of, next_field_part, type_declared};
ghost use Rattle.pst_ast.specs.Uses.{environment};
ghost use Rattle.pst_type_rules.specs.Sites;
ghost use Rattle.pst_site_lists.specs.Sited.{size_of_part, view_field_site};

use crate::site::FieldSite;
use pst_ast::{
    ActionNode, ActionPart, BaseNode, ComponentPart, Declaration, Environment, ExprNode, FieldNode,
    Inner, Item, NextField, ObjectNode, ObjectPart, Owner, PartNode, Scope, Sort, TypeName,
    TypeNode, Unit,
};
use pst_base::{NoMemory, Place};
use std::alloc::Global;

// The environment of what stands in the text of an owner, outside of bodies and indices.
fn environment_of(alloc: Global, component: Option<Place>, owner: Owner) -> Environment
    ensures { result ≡ environment component owner }
{
    Environment {
        component,
        owner,
        inner: Inner::new(alloc),
        traversal: None,
    }
}

// The size of an array.
fn size_of(part: &PartNode) -> Option<&ExprNode>
    ensures { option_map (λ e. view_expr e.now) result ≡ size_of_part (view_part part.now) }
{
    match &part.index {
        None => None,
        Some(index) => Some(&*index.expr),
    }
}

// Adds a field.
fn add_field_part<'a>(
    alloc: Global,
    found: &mut Vec<FieldSite<'a>>,
    component: Option<Place>,
    owner: Owner,
    field_type: &'a TypeNode,
    part: &'a PartNode,
) -> Result<(), NoMemory>
    ensures { OnOk result (map view_field_site found.new.items ≡ map view_field_site found.old.items ++ Sites.field_of_part (environment component owner) (view_type field_type.now) (view_part part.now) ∷ []) }
{
    found.push(FieldSite {
        at: environment_of(alloc, component, owner),
        field_type,
        name: part.name,
        size: size_of(part),
    })?;
    Ok(())
}

// Adds the fields behind the first.
fn add_next_field_parts<'a>(
    alloc: Global,
    found: &mut Vec<FieldSite<'a>>,
    component: Option<Place>,
    owner: Owner,
    field_type: &'a TypeNode,
    rest: &'a [NextField],
) -> Result<(), NoMemory>
    ensures { OnOk result (map view_field_site found.new.items ≡ map view_field_site found.old.items ++ map (Sites.field_of_part (environment component owner) (view_type field_type.now)) (map next_field_part (map view_next_field rest.now))) }
{
    for next in rest {
        add_field_part(alloc, found, component, owner, field_type, &next.part)?;
    }
    Ok(())
}

// Adds the fields of a declaration.
fn add_field<'a>(
    alloc: Global,
    found: &mut Vec<FieldSite<'a>>,
    component: Option<Place>,
    owner: Owner,
    field: &'a FieldNode,
) -> Result<(), NoMemory>
    ensures { OnOk result (map view_field_site found.new.items ≡ map view_field_site found.old.items ++ Sites.fields_of (environment component owner) (view_field field.now)) }
{
    add_field_part(
        alloc,
        found,
        component,
        owner,
        &field.field_type,
        &field.first,
    )?;
    add_next_field_parts(
        alloc,
        found,
        component,
        owner,
        &field.field_type,
        field.rest.as_slice(),
    )
}

// Adds the fields in a part of an action.
fn add_action_part<'a>(
    alloc: Global,
    found: &mut Vec<FieldSite<'a>>,
    component: Option<Place>,
    owner: Owner,
    part: &'a ActionPart,
) -> Result<(), NoMemory>
    ensures { OnOk result (map view_field_site found.new.items ≡ map view_field_site found.old.items ++ Sites.fields_in_action_part (environment component owner) (view_action_part part.now)) }
{
    match part {
        ActionPart::Field(field) => add_field(alloc, found, component, owner, field),
        _ => Ok(()),
    }
}

// Adds the fields in the parts of an action.
fn add_action_parts<'a>(
    alloc: Global,
    found: &mut Vec<FieldSite<'a>>,
    component: Option<Place>,
    owner: Owner,
    parts: &'a [ActionPart],
) -> Result<(), NoMemory>
    ensures { OnOk result (map view_field_site found.new.items ≡ map view_field_site found.old.items ++ flat_map (Sites.fields_in_action_part (environment component owner)) (map view_action_part parts.now)) }
{
    for part in parts {
        add_action_part(alloc, found, component, owner, part)?;
    }
    Ok(())
}

// Adds the fields in a part of an object.
fn add_object_part<'a>(
    alloc: Global,
    found: &mut Vec<FieldSite<'a>>,
    component: Option<Place>,
    owner: Owner,
    part: &'a ObjectPart,
) -> Result<(), NoMemory>
    ensures { OnOk result (map view_field_site found.new.items ≡ map view_field_site found.old.items ++ Sites.fields_in_object_part (environment component owner) (view_object_part part.now)) }
{
    match part {
        ObjectPart::Field(field) => add_field(alloc, found, component, owner, field),
        _ => Ok(()),
    }
}

// Adds the fields in the parts of an object.
fn add_object_parts<'a>(
    alloc: Global,
    found: &mut Vec<FieldSite<'a>>,
    component: Option<Place>,
    owner: Owner,
    parts: &'a [ObjectPart],
) -> Result<(), NoMemory>
    ensures { OnOk result (map view_field_site found.new.items ≡ map view_field_site found.old.items ++ flat_map (Sites.fields_in_object_part (environment component owner)) (map view_object_part parts.now)) }
{
    for part in parts {
        add_object_part(alloc, found, component, owner, part)?;
    }
    Ok(())
}

// The name of an action's base.
fn name_of_base(base: &Option<BaseNode>) -> Option<TypeName>
    ensures { result ≡ option_map base_name base.now }
{
    match base {
        None => None,
        Some(base) => Some(base.name),
    }
}

// The declaration of an action.
fn declared_action(component: Place, action: &ActionNode) -> Declaration
    ensures { result ≡ action_declared component action.now.base action.now.name }
{
    Declaration {
        name: action.name,
        scope: Scope::Part(component),
        inside: Some(component),
        sort: Sort::Action {
            base: name_of_base(&action.base),
        },
    }
}

// The scope of what is declared in the text of a component or at file level.
fn scope_of(component: Option<Place>) -> Scope
    ensures { result ≡ level_of component }
{
    match component {
        None => Scope::Files,
        Some(component) => Scope::Part(component),
    }
}

// The declaration of an object.
fn declared_object(component: Option<Place>, object: &ObjectNode) -> Declaration
    ensures { result ≡ type_declared component (AnObject object.now.word) object.now.name }
{
    Declaration {
        name: object.name,
        scope: scope_of(component),
        inside: component,
        sort: Sort::Object { word: object.word },
    }
}

// Adds the fields of an action.
fn add_action<'a>(
    alloc: Global,
    found: &mut Vec<FieldSite<'a>>,
    component: Place,
    action: &'a ActionNode,
) -> Result<(), NoMemory>
    ensures { OnOk result (map view_field_site found.new.items ≡ map view_field_site found.old.items ++ Sites.fields_in_action component (view_action action.now)) }
{
    let owner = Owner::OfAction(declared_action(component, action));
    add_action_parts(
        alloc,
        found,
        Some(component),
        owner,
        action.parts.as_slice(),
    )
}

// Adds the fields of an object.
fn add_object<'a>(
    alloc: Global,
    found: &mut Vec<FieldSite<'a>>,
    component: Option<Place>,
    object: &'a ObjectNode,
) -> Result<(), NoMemory>
    ensures { OnOk result (map view_field_site found.new.items ≡ map view_field_site found.old.items ++ Sites.fields_in_object component (view_object object.now)) }
{
    let owner = Owner::OfObject(declared_object(component, object));
    add_object_parts(alloc, found, component, owner, object.parts.as_slice())
}

// Adds the fields in a part of a component.
fn add_part<'a>(
    alloc: Global,
    found: &mut Vec<FieldSite<'a>>,
    component: Place,
    part: &'a ComponentPart,
) -> Result<(), NoMemory>
    ensures { OnOk result (map view_field_site found.new.items ≡ map view_field_site found.old.items ++ Sites.fields_in_part component (view_component_part part.now)) }
{
    match part {
        ComponentPart::Action(action) => add_action(alloc, found, component, action),
        ComponentPart::Object(object) => add_object(alloc, found, Some(component), object),
        _ => Ok(()),
    }
}

// Adds the fields in the parts of a component.
fn add_parts<'a>(
    alloc: Global,
    found: &mut Vec<FieldSite<'a>>,
    component: Place,
    parts: &'a [ComponentPart],
) -> Result<(), NoMemory>
    ensures { OnOk result (map view_field_site found.new.items ≡ map view_field_site found.old.items ++ flat_map (Sites.fields_in_part component) (map view_component_part parts.now)) }
{
    for part in parts {
        add_part(alloc, found, component, part)?;
    }
    Ok(())
}

// Adds the fields in a part of a file.
fn add_item<'a>(
    alloc: Global,
    found: &mut Vec<FieldSite<'a>>,
    item: &'a Item,
) -> Result<(), NoMemory>
    ensures { OnOk result (map view_field_site found.new.items ≡ map view_field_site found.old.items ++ Sites.fields_in_item (view_item item.now)) }
{
    match item {
        Item::Component(component) => add_parts(
            alloc,
            found,
            component.name.place,
            component.parts.as_slice(),
        ),
        Item::Object(object) => add_object(alloc, found, None, object),
        _ => Ok(()),
    }
}

// Adds the fields in the parts of a file.
fn add_items<'a>(
    alloc: Global,
    found: &mut Vec<FieldSite<'a>>,
    items: &'a [Item],
) -> Result<(), NoMemory>
    ensures { OnOk result (map view_field_site found.new.items ≡ map view_field_site found.old.items ++ flat_map Sites.fields_in_item (map view_item items.now)) }
{
    for item in items {
        add_item(alloc, found, item)?;
    }
    Ok(())
}

/// The fields of the sources, in the order of their text.
pub fn list_fields(alloc: Global, units: &[Unit]) -> Result<Vec<FieldSite<'_>>, NoMemory>
    ensures { IfOk result (λ all. map view_field_site all.items ≡ Sites.fields (map view_unit units.now)) }
{
    let mut found = Vec::new(alloc);
    for unit in units {
        add_items(alloc, &mut found, unit.items.as_slice())?;
    }
    Ok(found)
}
