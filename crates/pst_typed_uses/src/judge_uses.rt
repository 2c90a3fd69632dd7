//! The judge as a visitor.
ghost use Rattle.pst_typed_uses.specs.Judged.{judged};

use crate::judge::{Judge, is_constant};
use pst_ast::{
    ArgumentsNode, ArmNode, Declaration, DotName, EndNode, Environment, ExprNode, Name, NamesNode,
    NextExpr, NextPart, OtherEnds, PartNode, PlainNode, StatementNode, TargetNode, Traversal,
    TypeName, TypeNode,
};
use pst_base::{NoMemory, Place};
use pst_names::read_target;
use pst_range_rules::{arms_finding, plain_finding, type_finding};
use pst_use_rules::{
    assigned_finding, branches_finding, call_finding, count_finding, count_of_branches, expr_place,
    expression_finding, performed_finding, target_finding, ties_finding, unique_finding,
};
use pst_walk_parts::{Role, Visitor, Wanted};

impl<'a> Visitor for Judge<'a> {
    ghost step = { judged };

    fn judges(&mut self, at: &Environment, role: Role, expr: &ExprNode) -> Result<(), NoMemory> {
        let value = self.value_of(at, expr)?;
        let finding = expression_finding(&self.facts, at, role, expr, value)?;
        self.note(finding);
        self.keep(is_constant(role), expr_place(expr), value)
    }

    fn judges_count(
        &mut self,
        at: &Environment,
        statements: &[StatementNode],
        count: &ExprNode,
    ) -> Result<(), NoMemory> {
        let value = self.value_of(at, count)?;
        let branches = count_of_branches(statements);
        let finding = count_finding(&self.facts, at, branches, count, value);
        self.note(finding);
        self.keep(true, expr_place(count), value)
    }

    fn has_plain(&mut self, at: &Environment, plain: &PlainNode) -> Result<(), NoMemory> {
        let finding = plain_finding(&self.ranges(), at, plain)?;
        self.note(finding);
        Ok(())
    }

    fn has_type(&mut self, at: &Environment, field_type: &TypeNode) -> Result<(), NoMemory> {
        let finding = type_finding(&self.ranges(), at, field_type)?;
        self.note(finding);
        Ok(())
    }

    fn uniques(&mut self, first: &ExprNode, rest: &[NextExpr]) -> Result<(), NoMemory> {
        self.note(unique_finding(first, rest));
        Ok(())
    }

    fn branches(&mut self, statements: &[StatementNode]) -> Result<(), NoMemory> {
        self.note(branches_finding(statements));
        Ok(())
    }

    fn arms(
        &mut self,
        at: &Environment,
        first: &ArmNode,
        rest: &[ArmNode],
    ) -> Result<(), NoMemory> {
        let finding = arms_finding(&self.ranges(), at, first, rest)?;
        self.note(finding);
        Ok(())
    }

    fn performs(
        &mut self,
        at: &Environment,
        place: Place,
        traversal: Traversal,
    ) -> Result<(), NoMemory> {
        let finding = performed_finding(&self.facts, at, place, &traversal);
        self.note(finding);
        Ok(())
    }

    fn ties(
        &mut self,
        at: &Environment,
        first: EndNode,
        others: &OtherEnds,
    ) -> Result<(), NoMemory> {
        let finding = ties_finding(&self.facts, at, &first, others);
        self.note(finding);
        Ok(())
    }

    fn passes(
        &mut self,
        component: Option<Place>,
        name: Name,
        arguments: &Option<ArgumentsNode>,
        needed: bool,
    ) -> Result<(), NoMemory> {
        let finding = call_finding(&self.facts, component, name, arguments, needed);
        self.note(finding);
        Ok(())
    }

    fn reads(
        &mut self,
        _at: &Environment,
        _first: &PartNode,
        _rest: &[NextPart],
    ) -> Result<(), NoMemory> {
        Ok(())
    }

    fn repeats(
        &mut self,
        _at: &Environment,
        _first: Name,
        _rest: &[DotName],
    ) -> Result<(), NoMemory> {
        Ok(())
    }

    fn takes_item(
        &mut self,
        _at: &Environment,
        _component: Option<Name>,
        _enum_: Name,
        _item: Name,
    ) -> Result<(), NoMemory> {
        Ok(())
    }

    fn names_type(
        &mut self,
        _component: Option<Place>,
        _wanted: Wanted,
        _name: TypeName,
    ) -> Result<(), NoMemory> {
        Ok(())
    }

    fn names_base(&mut self, _action: &Declaration, _name: TypeName) -> Result<(), NoMemory> {
        Ok(())
    }

    fn calls(&mut self, _component: Option<Place>, _name: Name) -> Result<(), NoMemory> {
        Ok(())
    }

    fn assigns(&mut self, at: &Environment, name: Name) -> Result<(), NoMemory> {
        let finding = assigned_finding(&self.facts, at, name);
        self.note(finding);
        Ok(())
    }

    fn traverses(&mut self, _at: &Environment, _name: Name) -> Result<(), NoMemory> {
        Ok(())
    }

    fn ends(&mut self, _at: &Environment, _handle: Name, _reference: Name) -> Result<(), NoMemory> {
        Ok(())
    }

    fn joins(&mut self, _statements: &[StatementNode], _names: &NamesNode) -> Result<(), NoMemory> {
        Ok(())
    }

    fn binds(&mut self, _component: Place, _pool: Name) -> Result<(), NoMemory> {
        Ok(())
    }

    fn targets(
        &mut self,
        component: Place,
        pool: Name,
        target: &TargetNode,
    ) -> Result<(), NoMemory> {
        let read = read_target(self.facts.alloc, target)?;
        let finding = target_finding(
            self.facts.index,
            component,
            pool,
            read.instances.as_slice(),
            read.action,
            read.reference,
        );
        self.note(finding);
        Ok(())
    }
}
