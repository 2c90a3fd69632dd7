//! The object types of the sources.
ghost use Rattle.std.specs.Prelude.{◌≡◌, ◌++◌, IfOk, OnOk, map};
ghost use Rattle.std.specs.List.{find, flat_map};
ghost use Rattle.std.specs.Option.{option_map};
ghost use Rattle.pst_ast.specs.DeclarationView.{view_component_part, view_item, view_object, view_unit};
ghost use Rattle.pst_ast.specs.Sorts.{same_place};
ghost use Rattle.pst_type_rules.specs.Sites.{items_of};
ghost use Rattle.pst_elab_rules.specs.Types.{object_at, object_of_tree, objects_in_item, objects_in_part};

use pst_ast::{ComponentPart, Item, ObjectNode, Unit};
use pst_base::{NoMemory, Place};
use pst_places::PlaceList;
use std::alloc::Global;
use std::marker::Model;

/// The object types of the sources, by the places of their names.
///
/// Contracts see the sources. A look-up takes expected constant time.
#[derive(Drop)]
pub struct ObjectSites<'a> {
    units: &'a [Unit],
    objects: Vec<&'a ObjectNode>,
    places: PlaceList,
}

impl<'a> Model for ObjectSites<'a> {
    ghost use Rattle.std.specs.Prelude.{List};
    ghost use Rattle.std.specs.Coded.{codes};
    ghost use Rattle.pst_ast.specs.contracts.expression.ExprNode as the_expr_node;
    ghost use Rattle.pst_ast.specs.contracts.expression.UnaryNode as the_unary_node;
    ghost use Rattle.pst_ast.specs.contracts.expression.PrimaryNode as the_primary_node;
    ghost use Rattle.pst_ast.specs.contracts.expression.PathNode as the_path_node;
    ghost use Rattle.pst_ast.specs.contracts.expression.PartNode as the_part_node;
    ghost use Rattle.pst_ast.specs.contracts.expression.NextPart as the_next_part;
    ghost use Rattle.pst_ast.specs.contracts.expression.IndexNode as the_index_node;
    ghost use Rattle.pst_ast.specs.contracts.expression.RangesNode as the_ranges_node;
    ghost use Rattle.pst_ast.specs.contracts.expression.NextRange as the_next_range;
    ghost use Rattle.pst_ast.specs.contracts.expression.RangeNode as the_range_node;
    ghost use Rattle.pst_ast.specs.contracts.activity.StatementNode as the_statement_node;
    ghost use Rattle.pst_ast.specs.contracts.activity.CoreNode as the_core_node;
    ghost use Rattle.pst_ast.specs.contracts.activity.BranchNode as the_branch_node;
    ghost use Rattle.pst_ast.specs.contracts.activity.ArmNode as the_arm_node;
    ghost use Rattle.pst_ast.specs.contracts.constraint.ConstraintNode as the_constraint_node;
    ghost use Rattle.pst_ast.specs.contracts.constraint.ConstraintItem as the_constraint_item;
    ghost use Rattle.pst_ast.specs.contracts.body.BodyStatement as the_body_statement;
    ghost use Rattle.pst_ast.specs.declared.declaration.Unit.{Unit};
    ghost use Rattle.pst_declared_parts.specs.KeptObjects.{AreObjects};

    ghost Value = { List Unit };

    ghost coded = { Prim.hlevel (codes, the_expr_node.the_row.coded, the_unary_node.the_row.coded, the_primary_node.the_row.coded, the_path_node.the_row.coded, the_part_node.the_row.coded, the_next_part.the_row.coded, the_index_node.the_row.coded, the_ranges_node.the_row.coded, the_next_range.the_row.coded, the_range_node.the_row.coded, the_statement_node.the_row.coded, the_core_node.the_row.coded, the_branch_node.the_row.coded, the_arm_node.the_row.coded, the_constraint_node.the_row.coded, the_constraint_item.the_row.coded, the_body_statement.the_row.coded) };

    ghost view = { λ s. s.units.now };

    ghost invariant = { AreObjects };
}

// Adds the object that a part of a component is.
fn add_part<'a>(found: &mut Vec<&'a ObjectNode>, part: &'a ComponentPart) -> Result<(), NoMemory>
    ensures { OnOk result (map (λ a. object_of_tree (view_object a.now)) found.new.items ≡ map (λ a. object_of_tree (view_object a.now)) found.old.items ++ objects_in_part (view_component_part part.now)) }
{
    if let ComponentPart::Object(node) = part {
        found.push(&**node)?;
    }
    Ok(())
}

// Adds the object types among the parts of a component.
fn add_parts<'a>(
    found: &mut Vec<&'a ObjectNode>,
    parts: &'a [ComponentPart],
) -> Result<(), NoMemory>
    ensures { OnOk result (map (λ a. object_of_tree (view_object a.now)) found.new.items ≡ map (λ a. object_of_tree (view_object a.now)) found.old.items ++ flat_map objects_in_part (map view_component_part parts.now)) }
{
    for part in parts {
        add_part(found, part)?;
    }
    Ok(())
}

// Adds the object types in a part of a file.
fn add_item<'a>(found: &mut Vec<&'a ObjectNode>, item: &'a Item) -> Result<(), NoMemory>
    ensures { OnOk result (map (λ a. object_of_tree (view_object a.now)) found.new.items ≡ map (λ a. object_of_tree (view_object a.now)) found.old.items ++ objects_in_item (view_item item.now)) }
{
    match item {
        Item::Component(component) => add_parts(found, component.parts.as_slice()),
        Item::Object(node) => {
            found.push(&**node)?;
            Ok(())
        }
        _ => Ok(()),
    }
}

// Adds the object types in the parts of a file.
fn add_items<'a>(found: &mut Vec<&'a ObjectNode>, items: &'a [Item]) -> Result<(), NoMemory>
    ensures { OnOk result (map (λ a. object_of_tree (view_object a.now)) found.new.items ≡ map (λ a. object_of_tree (view_object a.now)) found.old.items ++ flat_map objects_in_item (map view_item items.now)) }
{
    for item in items {
        add_item(found, item)?;
    }
    Ok(())
}

// The object types of the sources, in the order of their text.
fn list_objects(alloc: Global, units: &[Unit]) -> Result<Vec<&ObjectNode>, NoMemory>
    ensures { IfOk result (λ all. map (λ a. object_of_tree (view_object a.now)) all.items ≡ flat_map objects_in_item (flat_map items_of (map view_unit units.now))) }
{
    let mut found = Vec::new(alloc);
    for unit in units {
        add_items(&mut found, unit.items.as_slice())?;
    }
    Ok(found)
}

// The places of the names of object types.
fn places_of(alloc: Global, objects: &[&ObjectNode]) -> Result<PlaceList, NoMemory>
    ensures { IfOk result (λ places. places ≡ map (λ a. a.now.name.place) objects.now) }
{
    let mut places = Vec::new(alloc);
    for node in objects {
        places.push(node.name.place)?;
    }
    PlaceList::new(alloc, places)
}

// The object whose name stands at a place.
fn object_in<'a>(
    objects: &[&'a ObjectNode],
    places: &PlaceList,
    place: Place,
) -> Option<&'a ObjectNode>
    requires { places.now ≡ map (λ a. a.now.name.place) objects.now }
    ensures { option_map (λ a. object_of_tree (view_object a.now)) result ≡ find (λ a. same_place a.name.place place) (map (λ a. object_of_tree (view_object a.now)) objects.now) }
{
    match places.number(place) {
        None => None,
        Some(number) => objects.get(number).copied(),
    }
}

impl<'a> ObjectSites<'a> {
    /// The object types of the sources.
    pub fn new(alloc: Global, units: &'a [Unit]) -> Result<ObjectSites<'a>, NoMemory>
        ensures { IfOk result (λ s. s ≡ units.now) }
    {
        let objects = list_objects(alloc, units)?;
        let places = places_of(alloc, objects.as_slice())?;
        Ok(ObjectSites {
            units,
            objects,
            places,
        })
    }

    /// The object whose name stands at a place.
    pub fn at(&self, place: Place) -> Option<&'a ObjectNode>
        ensures { option_map (λ a. object_of_tree (view_object a.now)) result ≡ object_at (map view_unit self.now) place }
    {
        object_in(self.objects.as_slice(), &self.places, place)
    }
}
