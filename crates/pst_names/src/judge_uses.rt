//! The judge as a visitor.
ghost use Rattle.std.specs.Prelude.{◌≡◌, ◌++◌, OnOk};
ghost use Rattle.pst_ast.specs.Scopes.{component_meant, type_meant};
ghost use Rattle.pst_names.specs.Judged.{judged};

use crate::judge::Judge;
use pst_ast::{
    ArgumentsNode, ArmNode, Declaration, DotName, EndNode, Environment, ExprNode, Name, NamesNode,
    NextExpr, NextPart, OtherEnds, PartNode, PathPart, PlainNode, StatementNode, TargetNode,
    Traversal, TypeName, TypeNode,
};
use pst_base::{NoMemory, Place};
use pst_index::{PathFor, stands_for};
use pst_name_rules::{
    assigned_finding, base_finding, calls_finding, end_finding, end_named, enum_by, handle_finding,
    item_by, item_finding, type_finding,
};
use pst_walk_parts::path_parts::{part_of, parts_of, plain_parts};
use pst_walk_parts::{Role, Visitor, Wanted};

impl<'a> Judge<'a> {
    // Keeps what the names of a type name stand for.
    fn mean_type(&mut self, component: Option<Place>, name: &TypeName) -> Result<(), NoMemory>
        ensures { OnOk result (self.new ≡ record self.old { meant = self.old.meant ++ type_meant self.old.ds component name.now }) }
    {
        match name.second {
            None => {
                let found = self.index.type_here(component, name.first.id);
                self.mean_declared(name.first, found)
            }
            Some(second) => {
                let outer = self.index.component_named(component, name.first);
                self.mean_declared(name.first, outer)?;
                let found = self.index.type_named(component, name);
                self.mean_declared(second.name, found)
            }
        }
    }

    // Keeps what the component before an enum stands for, where there is one.
    fn mean_component(
        &mut self,
        component: Option<Place>,
        outer: Option<Name>,
    ) -> Result<(), NoMemory>
        ensures { OnOk result (self.new ≡ record self.old { meant = self.old.meant ++ component_meant self.old.ds component outer }) }
    {
        let Some(outer) = outer else {
            return Ok(());
        };
        let found = self.index.component_named(component, outer);
        self.mean_declared(outer, found)
    }
}

impl<'a> Visitor for Judge<'a> {
    ghost step = { judged };

    fn judges(&mut self, _at: &Environment, _role: Role, _expr: &ExprNode) -> Result<(), NoMemory> {
        Ok(())
    }

    fn judges_count(
        &mut self,
        _at: &Environment,
        _statements: &[StatementNode],
        _count: &ExprNode,
    ) -> Result<(), NoMemory> {
        Ok(())
    }

    fn has_plain(&mut self, _at: &Environment, _plain: &PlainNode) -> Result<(), NoMemory> {
        Ok(())
    }

    fn has_type(&mut self, _at: &Environment, _field_type: &TypeNode) -> Result<(), NoMemory> {
        Ok(())
    }

    fn uniques(&mut self, _first: &ExprNode, _rest: &[NextExpr]) -> Result<(), NoMemory> {
        Ok(())
    }

    fn branches(&mut self, _statements: &[StatementNode]) -> Result<(), NoMemory> {
        Ok(())
    }

    fn arms(
        &mut self,
        _at: &Environment,
        _first: &ArmNode,
        _rest: &[ArmNode],
    ) -> Result<(), NoMemory> {
        Ok(())
    }

    fn performs(
        &mut self,
        _at: &Environment,
        _place: Place,
        _traversal: Traversal,
    ) -> Result<(), NoMemory> {
        Ok(())
    }

    fn ties(
        &mut self,
        _at: &Environment,
        _first: EndNode,
        _others: &OtherEnds,
    ) -> Result<(), NoMemory> {
        Ok(())
    }

    fn passes(
        &mut self,
        _component: Option<Place>,
        _name: Name,
        _arguments: &Option<ArgumentsNode>,
        _needed: bool,
    ) -> Result<(), NoMemory> {
        Ok(())
    }

    fn reads(
        &mut self,
        at: &Environment,
        first: &PartNode,
        rest: &[NextPart],
    ) -> Result<(), NoMemory> {
        let parts = parts_of(self.alloc, rest)?;
        self.judge_path(at, PathFor::Value, part_of(first), parts.as_slice())
    }

    fn repeats(&mut self, at: &Environment, first: Name, rest: &[DotName]) -> Result<(), NoMemory> {
        let parts = plain_parts(self.alloc, rest)?;
        let part = PathPart {
            name: first,
            index: false,
        };
        self.judge_path(at, PathFor::Array, part, parts.as_slice())
    }

    fn takes_item(
        &mut self,
        at: &Environment,
        component: Option<Name>,
        enum_: Name,
        item: Name,
    ) -> Result<(), NoMemory> {
        let index = self.index;
        let finding = item_finding(index, at.component, component, enum_, item);
        self.note(finding);
        self.mean_component(at.component, component)?;
        let outer = enum_by(index, at.component, component, enum_);
        self.mean_declared(enum_, outer)?;
        let named = item_by(index, at.component, component, enum_, item);
        self.mean_declared(item, named)
    }

    fn names_type(
        &mut self,
        component: Option<Place>,
        wanted: Wanted,
        name: TypeName,
    ) -> Result<(), NoMemory> {
        let second = match name.second {
            Some(second) => Some(second.name),
            None => None,
        };
        let finding = type_finding(self.index, component, wanted, name.first, second);
        self.note(finding);
        self.mean_type(component, &name)
    }

    fn names_base(&mut self, action: &Declaration, name: TypeName) -> Result<(), NoMemory> {
        let finding = base_finding(self.index, action, &name);
        self.note(finding);
        self.mean_type(action.inside, &name)
    }

    fn calls(&mut self, component: Option<Place>, name: Name) -> Result<(), NoMemory> {
        let finding = calls_finding(self.index, component, name);
        self.note(finding);
        let found = self.index.type_here(component, name.id);
        self.mean_declared(name, found)
    }

    fn assigns(&mut self, at: &Environment, name: Name) -> Result<(), NoMemory> {
        let finding = assigned_finding(self.index, self.names, at, name);
        self.note(finding);
        let found = stands_for(self.index, self.names, at, name.id);
        self.mean(name, found)
    }

    fn traverses(&mut self, at: &Environment, name: Name) -> Result<(), NoMemory> {
        let finding = handle_finding(self.index, self.names, at, name);
        self.note(finding);
        let found = stands_for(self.index, self.names, at, name.id);
        self.mean(name, found)
    }

    fn ends(&mut self, at: &Environment, handle: Name, reference: Name) -> Result<(), NoMemory> {
        let finding = end_finding(self.index, self.names, at, handle, reference);
        self.note(finding);
        let found = stands_for(self.index, self.names, at, handle.id);
        self.mean(handle, found)?;
        let named = end_named(self.index, self.names, at, handle, reference.id);
        self.mean_declared(reference, named)
    }

    fn joins(&mut self, statements: &[StatementNode], names: &NamesNode) -> Result<(), NoMemory> {
        self.judge_joined(statements, names)
    }

    fn binds(&mut self, component: Place, pool: Name) -> Result<(), NoMemory> {
        self.judge_bind(component, pool)
    }

    fn targets(
        &mut self,
        component: Place,
        pool: Name,
        target: &TargetNode,
    ) -> Result<(), NoMemory> {
        self.judge_target(component, pool, target)
    }
}
