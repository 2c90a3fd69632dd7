//! The enum items that an expression names, and whether it names nothing else.
ghost use Rattle.std.specs.Prelude.{◌≡◌, true, false, IfOk, OnOk};
ghost use Rattle.pst_ast.specs.ExpressionView.{view_expr};
ghost use Rattle.pst_ast.specs.Uses.{expr_uses};
ghost use Rattle.pst_named_items.specs.Named.{are_items, named, with_found};

use crate::named::item_read;
use pst_ast::{
    ArgumentsNode, ArmNode, Declaration, DotName, EndNode, Environment, ExprNode, Name, NamesNode,
    NextExpr, NextPart, OtherEnds, PartNode, PlainNode, StatementNode, TargetNode, Traversal,
    TypeName, TypeNode,
};
use pst_base::{Names, NoMemory, Place};
use pst_index::Index;
use pst_name_rules::item_by;
use pst_places::PlaceList;
use pst_walk_parts::path_parts::{part_of, parts_of};
use pst_walk_parts::show_expression::show_expr;
use pst_walk_parts::{Role, Visitor, Wanted};
use std::alloc::Global;
use std::marker::Model;

/// The number of an item, where there is one at that place.
pub fn number_of(places: &PlaceList, place: Place) -> Option<u32> {
    match places.number(place) {
        Some(number) => u32::try_from(number).ok(),
        None => None,
    }
}

// Sees the uses in an expression, and keeps the items among them.
#[derive(Drop)]
struct NamedItems<'a> {
    alloc: Global,
    index: &'a Index,
    names: &'a Names,
    places: &'a PlaceList,
    found: Vec<u32>,
    only: bool,
}

impl<'a> Model for NamedItems<'a> {
    ghost use Rattle.pst_named_items.specs.Named.{Named};

    ghost Value = { Named };

    ghost view = { λ n. record { ds = n.index.now; names = n.names.now; only = n.only } };
}

impl<'a> NamedItems<'a> {
    // One that has seen nothing.
    fn new(
        alloc: Global,
        index: &'a Index,
        names: &'a Names,
        places: &'a PlaceList,
    ) -> NamedItems<'a>
        ensures { result ≡ record { ds = index.now; names = names.now; only = true } }
    {
        NamedItems {
            alloc,
            index,
            names,
            places,
            found: Vec::new(alloc),
            only: true,
        }
    }

    // Whether all uses were of items, and the numbers of these.
    fn into_parts(self) -> (bool, Vec<u32>)
        ensures { result.0 ≡ self.entry.only }
    {
        (self.only, self.found)
    }

    // Keeps an item, where it is one.
    fn keep(&mut self, item: Option<Declaration>) -> Result<(), NoMemory>
        ensures { OnOk result (self.new ≡ with_found self.old item) }
    {
        match item {
            Some(item) => {
                if let Some(number) = number_of(self.places, item.name.place) {
                    self.found.push(number)?;
                }
            }
            None => self.only = false,
        }
        Ok(())
    }

    // Something else than an item is used.
    fn other(&mut self) -> Result<(), NoMemory>
        ensures { OnOk result (self.new ≡ record self.old { only = false }) }
    {
        self.only = false;
        Ok(())
    }
}

impl<'a> Visitor for NamedItems<'a> {
    ghost step = { named };

    fn judges(&mut self, _at: &Environment, _role: Role, _expr: &ExprNode) -> Result<(), NoMemory> {
        self.other()
    }

    fn judges_count(
        &mut self,
        _at: &Environment,
        _statements: &[StatementNode],
        _count: &ExprNode,
    ) -> Result<(), NoMemory> {
        self.other()
    }

    fn has_plain(&mut self, _at: &Environment, _plain: &PlainNode) -> Result<(), NoMemory> {
        self.other()
    }

    fn has_type(&mut self, _at: &Environment, _field_type: &TypeNode) -> Result<(), NoMemory> {
        self.other()
    }

    fn uniques(&mut self, _first: &ExprNode, _rest: &[NextExpr]) -> Result<(), NoMemory> {
        self.other()
    }

    fn branches(&mut self, _statements: &[StatementNode]) -> Result<(), NoMemory> {
        self.other()
    }

    fn arms(
        &mut self,
        _at: &Environment,
        _first: &ArmNode,
        _rest: &[ArmNode],
    ) -> Result<(), NoMemory> {
        self.other()
    }

    fn performs(
        &mut self,
        _at: &Environment,
        _place: Place,
        _traversal: Traversal,
    ) -> Result<(), NoMemory> {
        self.other()
    }

    fn ties(
        &mut self,
        _at: &Environment,
        _first: EndNode,
        _others: &OtherEnds,
    ) -> Result<(), NoMemory> {
        self.other()
    }

    fn passes(
        &mut self,
        _component: Option<Place>,
        _name: Name,
        _arguments: &Option<ArgumentsNode>,
        _needed: bool,
    ) -> Result<(), NoMemory> {
        self.other()
    }

    fn reads(
        &mut self,
        at: &Environment,
        first: &PartNode,
        rest: &[NextPart],
    ) -> Result<(), NoMemory> {
        let parts = parts_of(self.alloc, rest)?;
        let item = item_read(
            self.alloc,
            self.index,
            self.names,
            at,
            part_of(first),
            parts.as_slice(),
        )?;
        self.keep(item)
    }

    fn repeats(
        &mut self,
        _at: &Environment,
        _first: Name,
        _rest: &[DotName],
    ) -> Result<(), NoMemory> {
        self.other()
    }

    fn takes_item(
        &mut self,
        at: &Environment,
        component: Option<Name>,
        enum_: Name,
        item: Name,
    ) -> Result<(), NoMemory> {
        let item = item_by(self.index, at.component, component, enum_, item);
        self.keep(item)
    }

    fn names_type(
        &mut self,
        _component: Option<Place>,
        _wanted: Wanted,
        _name: TypeName,
    ) -> Result<(), NoMemory> {
        self.other()
    }

    fn names_base(&mut self, _action: &Declaration, _name: TypeName) -> Result<(), NoMemory> {
        self.other()
    }

    fn calls(&mut self, _component: Option<Place>, _name: Name) -> Result<(), NoMemory> {
        self.other()
    }

    fn assigns(&mut self, _at: &Environment, _name: Name) -> Result<(), NoMemory> {
        self.other()
    }

    fn traverses(&mut self, _at: &Environment, _name: Name) -> Result<(), NoMemory> {
        self.other()
    }

    fn ends(&mut self, _at: &Environment, _handle: Name, _reference: Name) -> Result<(), NoMemory> {
        self.other()
    }

    fn joins(&mut self, _statements: &[StatementNode], _names: &NamesNode) -> Result<(), NoMemory> {
        self.other()
    }

    fn binds(&mut self, _component: Place, _pool: Name) -> Result<(), NoMemory> {
        self.other()
    }

    fn targets(
        &mut self,
        _component: Place,
        _pool: Name,
        _target: &TargetNode,
    ) -> Result<(), NoMemory> {
        self.other()
    }
}

/// Whether an expression names items alone, and the numbers of those that it names.
#[tactic(auto, unfolding(crate::specs::Named::are_items))]
pub fn items_in(
    alloc: Global,
    index: &Index,
    names: &Names,
    places: &PlaceList,
    at: &Environment,
    expr: &ExprNode,
) -> Result<(bool, Vec<u32>), NoMemory>
    ensures { IfOk result (λ r. r.0 ≡ are_items index.now names.now (expr_uses at.now (view_expr expr.now))) }
{
    let mut named = NamedItems::new(alloc, index, names, places);
    show_expr(&mut named, at, expr)?;
    Ok(named.into_parts())
}
