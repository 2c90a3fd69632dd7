//! A walk over the paths in an expression.
ghost use Rattle.std.specs.Prelude.{◌≡◌, IfOk};
ghost use Rattle.std.specs.List.{fold};
ghost use Rattle.pst_ast.specs.ExpressionView.{view_expr};
ghost use Rattle.pst_ast.specs.Uses.{expr_uses};
ghost use Rattle.pst_walk_paths.specs.Shown.{by_paths};

use crate::visitor::PathVisitor;
use pst_ast::{
    ArgumentsNode, ArmNode, Declaration, DotName, EndNode, Environment, ExprNode, Name, NamesNode,
    NextExpr, NextPart, OtherEnds, PartNode, PlainNode, StatementNode, TargetNode, Traversal,
    TypeName, TypeNode,
};
use pst_base::{NoMemory, Place};
use pst_walk_parts::path_parts::{part_of, parts_of};
use pst_walk_parts::show_expression::show_expr;
use pst_walk_parts::{Role, Visitor, Wanted};
use std::alloc::Global;

// Shows a visitor of paths the uses that are paths.
#[derive(Drop)]
struct Paths<V: Drop> {
    alloc: Global,
    visitor: V,
}

impl<V: PathVisitor + Drop> Visitor for Paths<V> {
    ghost step = { λ s u. record s { visitor = by_paths V.path_step s.visitor u } };

    fn judges(&mut self, _at: &Environment, _role: Role, _expr: &ExprNode) -> Result<(), NoMemory> {
        Ok(())
    }

    fn judges_count(
        &mut self,
        _at: &Environment,
        _statements: &[StatementNode],
        _count: &ExprNode,
    ) -> Result<(), NoMemory> {
        Ok(())
    }

    fn has_plain(&mut self, _at: &Environment, _plain: &PlainNode) -> Result<(), NoMemory> {
        Ok(())
    }

    fn has_type(&mut self, _at: &Environment, _field_type: &TypeNode) -> Result<(), NoMemory> {
        Ok(())
    }

    fn uniques(&mut self, _first: &ExprNode, _rest: &[NextExpr]) -> Result<(), NoMemory> {
        Ok(())
    }

    fn branches(&mut self, _statements: &[StatementNode]) -> Result<(), NoMemory> {
        Ok(())
    }

    fn arms(
        &mut self,
        _at: &Environment,
        _first: &ArmNode,
        _rest: &[ArmNode],
    ) -> Result<(), NoMemory> {
        Ok(())
    }

    fn performs(
        &mut self,
        _at: &Environment,
        _place: Place,
        _traversal: Traversal,
    ) -> Result<(), NoMemory> {
        Ok(())
    }

    fn ties(
        &mut self,
        _at: &Environment,
        _first: EndNode,
        _others: &OtherEnds,
    ) -> Result<(), NoMemory> {
        Ok(())
    }

    fn passes(
        &mut self,
        _component: Option<Place>,
        _name: Name,
        _arguments: &Option<ArgumentsNode>,
        _needed: bool,
    ) -> Result<(), NoMemory> {
        Ok(())
    }

    fn reads(
        &mut self,
        at: &Environment,
        first: &PartNode,
        rest: &[NextPart],
    ) -> Result<(), NoMemory> {
        let parts = parts_of(self.alloc, rest)?;
        self.visitor
            .reads_path(at, part_of(first), parts.as_slice())
    }

    fn repeats(
        &mut self,
        _at: &Environment,
        _first: Name,
        _rest: &[DotName],
    ) -> Result<(), NoMemory> {
        Ok(())
    }

    fn takes_item(
        &mut self,
        at: &Environment,
        component: Option<Name>,
        enum_: Name,
        item: Name,
    ) -> Result<(), NoMemory> {
        self.visitor.takes_item_of(at, component, enum_, item)
    }

    fn names_type(
        &mut self,
        _component: Option<Place>,
        _wanted: Wanted,
        _name: TypeName,
    ) -> Result<(), NoMemory> {
        Ok(())
    }

    fn names_base(&mut self, _action: &Declaration, _name: TypeName) -> Result<(), NoMemory> {
        Ok(())
    }

    fn calls(&mut self, _component: Option<Place>, _name: Name) -> Result<(), NoMemory> {
        Ok(())
    }

    fn assigns(&mut self, _at: &Environment, _name: Name) -> Result<(), NoMemory> {
        Ok(())
    }

    fn traverses(&mut self, _at: &Environment, _name: Name) -> Result<(), NoMemory> {
        Ok(())
    }

    fn ends(&mut self, _at: &Environment, _handle: Name, _reference: Name) -> Result<(), NoMemory> {
        Ok(())
    }

    fn joins(&mut self, _statements: &[StatementNode], _names: &NamesNode) -> Result<(), NoMemory> {
        Ok(())
    }

    fn binds(&mut self, _component: Place, _pool: Name) -> Result<(), NoMemory> {
        Ok(())
    }

    fn targets(
        &mut self,
        _component: Place,
        _pool: Name,
        _target: &TargetNode,
    ) -> Result<(), NoMemory> {
        Ok(())
    }
}

/// Shows a visitor each path in an expression, in the order of the text, and gives it back.
pub fn show_paths<V: PathVisitor + Drop>(
    alloc: Global,
    visitor: V,
    at: &Environment,
    expr: &ExprNode,
) -> Result<V, NoMemory>
    ensures { IfOk result (λ v. v ≡ fold (by_paths V.path_step) visitor (expr_uses at.now (view_expr expr.now))) }
{
    let mut paths = Paths { alloc, visitor };
    show_expr(&mut paths, at, expr)?;
    Ok(paths.visitor)
}
