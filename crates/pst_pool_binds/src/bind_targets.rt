//! The explicit binds of the sources.
ghost use Rattle.std.specs.Prelude.{◌≡◌, ◌++◌, ◌∷◌, [], Some, IfOk, OnOk, map};
ghost use Rattle.pst_ast.specs.DeclarationView.{view_target, view_unit};
ghost use Rattle.pst_ast.specs.Uses.{target_use};
ghost use Rattle.pst_pool_binds.specs.FoundBinds.{view_bind, view_binds, with_use};
ghost use Rattle.pst_pool_binds.specs.PoolBinds.{explicit_of};
ghost use Rattle.pst_pool_binds.specs.PoolBinds;

use crate::found_binds::FoundBind;
use pst_ast::{
    ArgumentsNode, ArmNode, Declaration, DotName, EndNode, Environment, ExprNode, Name, NamesNode,
    NextExpr, NextPart, OtherEnds, PartNode, PlainNode, StatementNode, TargetNode, Traversal,
    TypeName, TypeNode, Unit,
};
use pst_base::{NoMemory, Place};
use pst_walk::walk;
use pst_walk_parts::{Role, Visitor, Wanted};
use std::alloc::Global;
use std::marker::Model;

// Sees the uses of names in the sources, and keeps the targets of binds.
#[derive(Drop)]
struct BindVisitor {
    alloc: Global,
    found: Vec<FoundBind>,
}

impl Model for BindVisitor {
    ghost use Rattle.std.specs.Prelude.{List};
    ghost use Rattle.pst_pool_binds.specs.PoolBinds.{ExplicitBind};
    ghost use Rattle.pst_pool_binds.specs.FoundBinds.{view_binds};

    ghost Value = { List ExplicitBind };

    ghost view = { λ v. view_binds v.found.items };
}

// Reads a target from its end: a reference or claim, an action type, and instances.
fn bind_of(
    alloc: Global,
    component: Place,
    pool: Name,
    target: &TargetNode,
) -> Result<FoundBind, NoMemory>
    ensures { IfOk result (λ bind. explicit_of (target_use component pool (view_target target.now)) ≡ Some (view_bind bind)) }
{
    let mut instances = Vec::new(alloc);
    let mut action = target.first;
    let mut need = target.second.name;
    for next in target.rest.as_slice() {
        instances.push(action)?;
        action = need;
        need = next.name;
    }
    Ok(FoundBind {
        component,
        pool,
        instances,
        action,
        need,
    })
}

impl BindVisitor {
    // One that has seen nothing.
    fn new(alloc: Global) -> BindVisitor
        ensures { result ≡ [] }
    {
        BindVisitor {
            alloc,
            found: Vec::new(alloc),
        }
    }

    // The binds, in the order of their text.
    fn into_binds(self) -> Vec<FoundBind>
        ensures { view_binds result.items ≡ self }
    {
        self.found
    }

    // Keeps a bind.
    fn keep(&mut self, bind: FoundBind) -> Result<(), NoMemory>
        ensures { OnOk result (self.new ≡ self.old ++ view_bind bind ∷ []) }
    {
        self.found.push(bind)?;
        Ok(())
    }
}

impl Visitor for BindVisitor {
    ghost step = { with_use };

    fn judges(&mut self, _at: &Environment, _role: Role, _expr: &ExprNode) -> Result<(), NoMemory> {
        Ok(())
    }

    fn judges_count(
        &mut self,
        _at: &Environment,
        _statements: &[StatementNode],
        _count: &ExprNode,
    ) -> Result<(), NoMemory> {
        Ok(())
    }

    fn has_plain(&mut self, _at: &Environment, _plain: &PlainNode) -> Result<(), NoMemory> {
        Ok(())
    }

    fn has_type(&mut self, _at: &Environment, _field_type: &TypeNode) -> Result<(), NoMemory> {
        Ok(())
    }

    fn uniques(&mut self, _first: &ExprNode, _rest: &[NextExpr]) -> Result<(), NoMemory> {
        Ok(())
    }

    fn branches(&mut self, _statements: &[StatementNode]) -> Result<(), NoMemory> {
        Ok(())
    }

    fn arms(
        &mut self,
        _at: &Environment,
        _first: &ArmNode,
        _rest: &[ArmNode],
    ) -> Result<(), NoMemory> {
        Ok(())
    }

    fn performs(
        &mut self,
        _at: &Environment,
        _place: Place,
        _traversal: Traversal,
    ) -> Result<(), NoMemory> {
        Ok(())
    }

    fn ties(
        &mut self,
        _at: &Environment,
        _first: EndNode,
        _others: &OtherEnds,
    ) -> Result<(), NoMemory> {
        Ok(())
    }

    fn passes(
        &mut self,
        _component: Option<Place>,
        _name: Name,
        _arguments: &Option<ArgumentsNode>,
        _needed: bool,
    ) -> Result<(), NoMemory> {
        Ok(())
    }

    fn reads(
        &mut self,
        _at: &Environment,
        _first: &PartNode,
        _rest: &[NextPart],
    ) -> Result<(), NoMemory> {
        Ok(())
    }

    fn repeats(
        &mut self,
        _at: &Environment,
        _first: Name,
        _rest: &[DotName],
    ) -> Result<(), NoMemory> {
        Ok(())
    }

    fn takes_item(
        &mut self,
        _at: &Environment,
        _component: Option<Name>,
        _enum: Name,
        _item: Name,
    ) -> Result<(), NoMemory> {
        Ok(())
    }

    fn names_type(
        &mut self,
        _component: Option<Place>,
        _wanted: Wanted,
        _name: TypeName,
    ) -> Result<(), NoMemory> {
        Ok(())
    }

    fn names_base(&mut self, _action: &Declaration, _name: TypeName) -> Result<(), NoMemory> {
        Ok(())
    }

    fn calls(&mut self, _component: Option<Place>, _name: Name) -> Result<(), NoMemory> {
        Ok(())
    }

    fn assigns(&mut self, _at: &Environment, _name: Name) -> Result<(), NoMemory> {
        Ok(())
    }

    fn traverses(&mut self, _at: &Environment, _name: Name) -> Result<(), NoMemory> {
        Ok(())
    }

    fn ends(&mut self, _at: &Environment, _handle: Name, _reference: Name) -> Result<(), NoMemory> {
        Ok(())
    }

    fn joins(&mut self, _statements: &[StatementNode], _names: &NamesNode) -> Result<(), NoMemory> {
        Ok(())
    }

    fn binds(&mut self, _component: Place, _pool: Name) -> Result<(), NoMemory> {
        Ok(())
    }

    fn targets(
        &mut self,
        component: Place,
        pool: Name,
        target: &TargetNode,
    ) -> Result<(), NoMemory> {
        let bind = bind_of(self.alloc, component, pool, target)?;
        self.keep(bind)
    }
}

/// The targets of the explicit binds of the sources, in the order of their text.
#[tactic(auto, using(crate::proofs::Collected::uses_collected))]
pub fn explicit_binds(alloc: Global, units: &[Unit]) -> Result<Vec<FoundBind>, NoMemory>
    ensures { IfOk result (λ binds. view_binds binds.items ≡ PoolBinds.explicit_binds (map view_unit units.now)) }
{
    let mut visitor = BindVisitor::new(alloc);
    walk(alloc, units, &mut visitor)?;
    Ok(visitor.into_binds())
}
