//! The first names of the paths in an expression.
ghost use Rattle.std.specs.Prelude.{◌≡◌, ◌++◌, ◌∷◌, [], IfOk, OnOk};
ghost use Rattle.pst_ast.specs.ExpressionView.{view_expr};
ghost use Rattle.pst_type_rules.specs.Handles.{first_names as the_names};
ghost use Rattle.pst_handle_uses.specs.Firsts.{with_first};

use pst_ast::{
    ArgumentsNode, ArmNode, Declaration, DotName, EndNode, Environment, ExprNode, Name, NamesNode,
    NextExpr, NextPart, OtherEnds, PartNode, PlainNode, StatementNode, TargetNode, Traversal,
    TypeName, TypeNode,
};
use pst_base::{NoMemory, Place};
use pst_walk_parts::show_expression::show_expr;
use pst_walk_parts::{Role, Visitor, Wanted};
use std::alloc::Global;
use std::marker::Model;

// Sees the uses in an expression, and keeps the first names of the paths among them.
#[derive(Drop)]
struct FirstNames {
    found: Vec<Name>,
}

impl Model for FirstNames {
    ghost use Rattle.std.specs.Prelude.{List};
    ghost use Rattle.pst_ast.specs.declared.leaf.Name.{Name};

    ghost Value = { List Name };

    ghost view = { λ n. n.found.items };
}

impl FirstNames {
    // One that has seen nothing.
    fn new(alloc: Global) -> FirstNames
        ensures { result ≡ [] }
    {
        FirstNames {
            found: Vec::new(alloc),
        }
    }

    // The names that were kept.
    fn into_names(self) -> Vec<Name>
        ensures { result.items ≡ self }
    {
        self.found
    }

    // Keeps a name.
    fn keep(&mut self, name: Name) -> Result<(), NoMemory>
        ensures { OnOk result (self.new ≡ self.old ++ name ∷ []) }
    {
        self.found.push(name)?;
        Ok(())
    }
}

impl Visitor for FirstNames {
    ghost step = { with_first };

    fn judges(&mut self, _at: &Environment, _role: Role, _expr: &ExprNode) -> Result<(), NoMemory> {
        Ok(())
    }

    fn judges_count(
        &mut self,
        _at: &Environment,
        _statements: &[StatementNode],
        _count: &ExprNode,
    ) -> Result<(), NoMemory> {
        Ok(())
    }

    fn has_plain(&mut self, _at: &Environment, _plain: &PlainNode) -> Result<(), NoMemory> {
        Ok(())
    }

    fn has_type(&mut self, _at: &Environment, _field_type: &TypeNode) -> Result<(), NoMemory> {
        Ok(())
    }

    fn uniques(&mut self, _first: &ExprNode, _rest: &[NextExpr]) -> Result<(), NoMemory> {
        Ok(())
    }

    fn branches(&mut self, _statements: &[StatementNode]) -> Result<(), NoMemory> {
        Ok(())
    }

    fn arms(
        &mut self,
        _at: &Environment,
        _first: &ArmNode,
        _rest: &[ArmNode],
    ) -> Result<(), NoMemory> {
        Ok(())
    }

    fn performs(
        &mut self,
        _at: &Environment,
        _place: Place,
        _traversal: Traversal,
    ) -> Result<(), NoMemory> {
        Ok(())
    }

    fn ties(
        &mut self,
        _at: &Environment,
        _first: EndNode,
        _others: &OtherEnds,
    ) -> Result<(), NoMemory> {
        Ok(())
    }

    fn passes(
        &mut self,
        _component: Option<Place>,
        _name: Name,
        _arguments: &Option<ArgumentsNode>,
        _needed: bool,
    ) -> Result<(), NoMemory> {
        Ok(())
    }

    fn reads(
        &mut self,
        _at: &Environment,
        first: &PartNode,
        _rest: &[NextPart],
    ) -> Result<(), NoMemory> {
        self.keep(first.name)
    }

    fn repeats(
        &mut self,
        _at: &Environment,
        _first: Name,
        _rest: &[DotName],
    ) -> Result<(), NoMemory> {
        Ok(())
    }

    fn takes_item(
        &mut self,
        _at: &Environment,
        _component: Option<Name>,
        _enum_: Name,
        _item: Name,
    ) -> Result<(), NoMemory> {
        Ok(())
    }

    fn names_type(
        &mut self,
        _component: Option<Place>,
        _wanted: Wanted,
        _name: TypeName,
    ) -> Result<(), NoMemory> {
        Ok(())
    }

    fn names_base(&mut self, _action: &Declaration, _name: TypeName) -> Result<(), NoMemory> {
        Ok(())
    }

    fn calls(&mut self, _component: Option<Place>, _name: Name) -> Result<(), NoMemory> {
        Ok(())
    }

    fn assigns(&mut self, _at: &Environment, _name: Name) -> Result<(), NoMemory> {
        Ok(())
    }

    fn traverses(&mut self, _at: &Environment, _name: Name) -> Result<(), NoMemory> {
        Ok(())
    }

    fn ends(&mut self, _at: &Environment, _handle: Name, _reference: Name) -> Result<(), NoMemory> {
        Ok(())
    }

    fn joins(&mut self, _statements: &[StatementNode], _names: &NamesNode) -> Result<(), NoMemory> {
        Ok(())
    }

    fn binds(&mut self, _component: Place, _pool: Name) -> Result<(), NoMemory> {
        Ok(())
    }

    fn targets(
        &mut self,
        _component: Place,
        _pool: Name,
        _target: &TargetNode,
    ) -> Result<(), NoMemory> {
        Ok(())
    }
}

/// The first names of the paths in an expression, in the order of the text.
#[tactic(auto, using(crate::proofs::Firsts::firsts_of))]
pub fn first_names(alloc: Global, at: &Environment, expr: &ExprNode) -> Result<Vec<Name>, NoMemory>
    ensures { IfOk result (λ names. names.items ≡ the_names at.now (view_expr expr.now)) }
{
    let mut names = FirstNames::new(alloc);
    show_expr(&mut names, at, expr)?;
    Ok(names.into_names())
}
