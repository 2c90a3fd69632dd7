//! The pools of the sources.
ghost use Rattle.std.specs.Prelude.{◌≡◌, ◌++◌, IfOk, OnOk, map};
ghost use Rattle.std.specs.List.{find, flat_map};
ghost use Rattle.std.specs.Option.{option_map};
ghost use Rattle.pst_ast.specs.DeclarationView.{view_component_part, view_item, view_pool, view_unit};
ghost use Rattle.pst_ast.specs.Sorts.{same_place};
ghost use Rattle.pst_type_rules.specs.Sites.{items_of};
ghost use Rattle.pst_elab_rules.specs.Model.{pool_at, pools_in_item, pools_in_part};
ghost use Rattle.pst_declared_parts.specs.Listed.{pool_of_tree};

use pst_ast::{ComponentPart, Item, PoolNode, Unit};
use pst_base::{NoMemory, Place};
use pst_places::PlaceList;
use std::alloc::Global;
use std::marker::Model;

/// The pools of the sources, by the places of their names.
///
/// Contracts see the sources. A look-up takes expected constant time.
#[derive(Drop)]
pub struct PoolSites<'a> {
    units: &'a [Unit],
    pools: Vec<&'a PoolNode>,
    places: PlaceList,
}

impl<'a> Model for PoolSites<'a> {
    ghost use Rattle.std.specs.Prelude.{List};
    ghost use Rattle.std.specs.Coded.{codes};
    ghost use Rattle.pst_ast.specs.contracts.expression.ExprNode as the_expr_node;
    ghost use Rattle.pst_ast.specs.contracts.expression.UnaryNode as the_unary_node;
    ghost use Rattle.pst_ast.specs.contracts.expression.PrimaryNode as the_primary_node;
    ghost use Rattle.pst_ast.specs.contracts.expression.PathNode as the_path_node;
    ghost use Rattle.pst_ast.specs.contracts.expression.PartNode as the_part_node;
    ghost use Rattle.pst_ast.specs.contracts.expression.NextPart as the_next_part;
    ghost use Rattle.pst_ast.specs.contracts.expression.IndexNode as the_index_node;
    ghost use Rattle.pst_ast.specs.contracts.expression.RangesNode as the_ranges_node;
    ghost use Rattle.pst_ast.specs.contracts.expression.NextRange as the_next_range;
    ghost use Rattle.pst_ast.specs.contracts.expression.RangeNode as the_range_node;
    ghost use Rattle.pst_ast.specs.contracts.activity.StatementNode as the_statement_node;
    ghost use Rattle.pst_ast.specs.contracts.activity.CoreNode as the_core_node;
    ghost use Rattle.pst_ast.specs.contracts.activity.BranchNode as the_branch_node;
    ghost use Rattle.pst_ast.specs.contracts.activity.ArmNode as the_arm_node;
    ghost use Rattle.pst_ast.specs.contracts.constraint.ConstraintNode as the_constraint_node;
    ghost use Rattle.pst_ast.specs.contracts.constraint.ConstraintItem as the_constraint_item;
    ghost use Rattle.pst_ast.specs.contracts.body.BodyStatement as the_body_statement;
    ghost use Rattle.pst_ast.specs.declared.declaration.Unit.{Unit};
    ghost use Rattle.pst_declared_parts.specs.KeptPools.{ArePools};

    ghost Value = { List Unit };

    ghost coded = { Prim.hlevel (codes, the_expr_node.the_row.coded, the_unary_node.the_row.coded, the_primary_node.the_row.coded, the_path_node.the_row.coded, the_part_node.the_row.coded, the_next_part.the_row.coded, the_index_node.the_row.coded, the_ranges_node.the_row.coded, the_next_range.the_row.coded, the_range_node.the_row.coded, the_statement_node.the_row.coded, the_core_node.the_row.coded, the_branch_node.the_row.coded, the_arm_node.the_row.coded, the_constraint_node.the_row.coded, the_constraint_item.the_row.coded, the_body_statement.the_row.coded) };

    ghost view = { λ s. s.units.now };

    ghost invariant = { ArePools };
}

// Adds the pool that a part of a component is.
fn add_part<'a>(found: &mut Vec<&'a PoolNode>, part: &'a ComponentPart) -> Result<(), NoMemory>
    ensures { OnOk result (map (λ a. pool_of_tree (view_pool a.now)) found.new.items ≡ map (λ a. pool_of_tree (view_pool a.now)) found.old.items ++ pools_in_part (view_component_part part.now)) }
{
    if let ComponentPart::Pool(node) = part {
        found.push(&**node)?;
    }
    Ok(())
}

// Adds the pools among the parts of a component.
fn add_parts<'a>(found: &mut Vec<&'a PoolNode>, parts: &'a [ComponentPart]) -> Result<(), NoMemory>
    ensures { OnOk result (map (λ a. pool_of_tree (view_pool a.now)) found.new.items ≡ map (λ a. pool_of_tree (view_pool a.now)) found.old.items ++ flat_map pools_in_part (map view_component_part parts.now)) }
{
    for part in parts {
        add_part(found, part)?;
    }
    Ok(())
}

// Adds the pools in a part of a file.
fn add_item<'a>(found: &mut Vec<&'a PoolNode>, item: &'a Item) -> Result<(), NoMemory>
    ensures { OnOk result (map (λ a. pool_of_tree (view_pool a.now)) found.new.items ≡ map (λ a. pool_of_tree (view_pool a.now)) found.old.items ++ pools_in_item (view_item item.now)) }
{
    match item {
        Item::Component(component) => add_parts(found, component.parts.as_slice()),
        _ => Ok(()),
    }
}

// Adds the pools in the parts of a file.
fn add_items<'a>(found: &mut Vec<&'a PoolNode>, items: &'a [Item]) -> Result<(), NoMemory>
    ensures { OnOk result (map (λ a. pool_of_tree (view_pool a.now)) found.new.items ≡ map (λ a. pool_of_tree (view_pool a.now)) found.old.items ++ flat_map pools_in_item (map view_item items.now)) }
{
    for item in items {
        add_item(found, item)?;
    }
    Ok(())
}

// The pools of the sources, in the order of their text.
fn list_pools(alloc: Global, units: &[Unit]) -> Result<Vec<&PoolNode>, NoMemory>
    ensures { IfOk result (λ all. map (λ a. pool_of_tree (view_pool a.now)) all.items ≡ flat_map pools_in_item (flat_map items_of (map view_unit units.now))) }
{
    let mut found = Vec::new(alloc);
    for unit in units {
        add_items(&mut found, unit.items.as_slice())?;
    }
    Ok(found)
}

// The places of the names of pools.
fn places_of(alloc: Global, pools: &[&PoolNode]) -> Result<PlaceList, NoMemory>
    ensures { IfOk result (λ places. places ≡ map (λ a. a.now.name.place) pools.now) }
{
    let mut places = Vec::new(alloc);
    for node in pools {
        places.push(node.name.place)?;
    }
    PlaceList::new(alloc, places)
}

// The pool whose name stands at a place.
fn pool_in<'a>(pools: &[&'a PoolNode], places: &PlaceList, place: Place) -> Option<&'a PoolNode>
    requires { places.now ≡ map (λ a. a.now.name.place) pools.now }
    ensures { option_map (λ a. pool_of_tree (view_pool a.now)) result ≡ find (λ a. same_place a.name.place place) (map (λ a. pool_of_tree (view_pool a.now)) pools.now) }
{
    match places.number(place) {
        None => None,
        Some(number) => pools.get(number).copied(),
    }
}

impl<'a> PoolSites<'a> {
    /// The pools of the sources.
    pub fn new(alloc: Global, units: &'a [Unit]) -> Result<PoolSites<'a>, NoMemory>
        ensures { IfOk result (λ s. s ≡ units.now) }
    {
        let pools = list_pools(alloc, units)?;
        let places = places_of(alloc, pools.as_slice())?;
        Ok(PoolSites {
            units,
            pools,
            places,
        })
    }

    /// The pool whose name stands at a place.
    pub fn at(&self, place: Place) -> Option<&'a PoolNode>
        ensures { option_map (λ a. pool_of_tree (view_pool a.now)) result ≡ pool_at (map view_unit self.now) place }
    {
        pool_in(self.pools.as_slice(), &self.places, place)
    }
}
