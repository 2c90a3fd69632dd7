//! A visitor that keeps what the rules of handles ask.
ghost use Rattle.std.specs.Prelude.{◌≡◌, ◌++◌, ◌∷◌, [], map, OnOk};
ghost use Rattle.std.specs.List.{flat_map};
ghost use Rattle.std.specs.Option.{option_to_list};
ghost use Rattle.pst_ast.specs.ExpressionView.{view_expr};
ghost use Rattle.pst_type_rules.specs.Handles.{first_names as the_names};
ghost use Rattle.pst_ast.specs.Uses.{Ties};
ghost use Rattle.pst_type_rules.specs.Binds.{pairs_of};
ghost use Rattle.pst_handle_uses.specs.Handled.{handled, judging as the_judging, naming, pair, tied as the_tied};

use crate::first_names::first_names;
use crate::handle_use::{Judging, Tied, judging_of, tie_of};
use pst_ast::{
    ArgumentsNode, ArmNode, Declaration, DotName, EndNode, Environment, ExprNode, Name, NamesNode,
    NextEnd, NextExpr, NextPart, OtherEnds, PartNode, PlainNode, StatementNode, TargetNode,
    Traversal, TypeName, TypeNode,
};
use pst_base::{Names, NoMemory, Place};
use pst_index::Index;
use pst_walk_parts::{Role, Visitor, Wanted};
use std::alloc::Global;
use std::marker::Model;

/// Sees the uses of a walk, and keeps what the rules of handles ask of them.
#[derive(Drop)]
pub struct HandleUses<'a> {
    alloc: Global,
    index: &'a Index,
    names: &'a Names,
    ties: Vec<Tied>,
    judgings: Vec<Judging>,
}

impl<'a> Model for HandleUses<'a> {
    ghost use Rattle.pst_handle_uses.specs.Handled.{Handled};

    ghost Value = { Handled };

    ghost view = { λ u. record { ds = u.index.now; names = u.names.now; ties = u.ties.items; judgings = u.judgings.items } };
}

impl<'a> HandleUses<'a> {
    /// One that has seen nothing.
    pub fn new(alloc: Global, index: &'a Index, names: &'a Names) -> HandleUses<'a>
        ensures { result ≡ record { ds = index.now; names = names.now; ties = []; judgings = [] } }
    {
        HandleUses {
            alloc,
            index,
            names,
            ties: Vec::new(alloc),
            judgings: Vec::new(alloc),
        }
    }

    /// The pairs of ends that binds join, in the order of the text.
    pub fn ties(&self) -> &[Tied]
        ensures { result.now ≡ self.now.ties }
    {
        self.ties.as_slice()
    }

    /// The handles that are named, in the order of the text.
    pub fn judgings(&self) -> &[Judging]
        ensures { result.now ≡ self.now.judgings }
    {
        self.judgings.as_slice()
    }

    // Keeps a pair of ends.
    fn keep_tie(&mut self, at: &Environment, first: EndNode, other: EndNode) -> Result<(), NoMemory>
        ensures { OnOk result (self.new ≡ record self.old { ties = self.old.ties ++ the_tied self.old.ds self.old.names (pair at.now first other) ∷ [] }) }
    {
        let tie = tie_of(self.index, self.names, at, first, other);
        self.ties.push(tie)?;
        Ok(())
    }

    // Keeps the pairs of a first end and others.
    fn keep_next_ties(
        &mut self,
        at: &Environment,
        first: EndNode,
        others: &[NextEnd],
    ) -> Result<(), NoMemory>
        ensures { OnOk result (self.new ≡ record self.old { ties = self.old.ties ++ map (the_tied self.old.ds self.old.names) (pairs_of (Ties at.now first (map (λ n. n.end) others.now))) }) }
    {
        for next in others {
            self.keep_tie(at, first, next.end)?;
        }
        Ok(())
    }

    // Keeps the pairs of a bind with several others.
    #[tactic(auto, using(crate::proofs::Nothing::several))]
    fn keep_several(
        &mut self,
        at: &Environment,
        first: EndNode,
        second: EndNode,
        others: &[NextEnd],
    ) -> Result<(), NoMemory>
        ensures { OnOk result (self.new ≡ handled self.old (Ties at.now first (second ∷ map (λ n. n.end) others.now))) }
    {
        self.keep_tie(at, first, second)?;
        self.keep_next_ties(at, first, others)
    }

    // Keeps what is asked of a name.
    fn keep_judging(&mut self, at: &Environment, name: Name, derived: bool) -> Result<(), NoMemory>
        ensures { OnOk result (self.new ≡ record self.old { judgings = self.old.judgings ++ option_to_list (the_judging self.old.ds self.old.names (naming at.now derived name)) }) }
    {
        if let Some(judging) = judging_of(self.alloc, self.index, self.names, at, name, derived) {
            self.judgings.push(judging)?;
        }
        Ok(())
    }

    // Keeps what is asked of names one after another.
    fn keep_judgings(
        &mut self,
        at: &Environment,
        names: &[Name],
        derived: bool,
    ) -> Result<(), NoMemory>
        ensures { OnOk result (self.new ≡ record self.old { judgings = self.old.judgings ++ flat_map (λ m. option_to_list (the_judging self.old.ds self.old.names m)) (map (naming at.now derived) names.now) }) }
    {
        for name in names {
            self.keep_judging(at, *name, derived)?;
        }
        Ok(())
    }

    // Keeps what is asked of the names in an expression.
    fn keep_names(
        &mut self,
        at: &Environment,
        expr: &ExprNode,
        derived: bool,
    ) -> Result<(), NoMemory>
        ensures { OnOk result (self.new ≡ record self.old { judgings = self.old.judgings ++ flat_map (λ m. option_to_list (the_judging self.old.ds self.old.names m)) (map (naming at.now derived) (the_names at.now (view_expr expr.now))) }) }
    {
        let names = first_names(self.alloc, at, expr)?;
        self.keep_judgings(at, names.as_slice(), derived)
    }
}

impl<'a> Visitor for HandleUses<'a> {
    ghost step = { handled };

    fn judges(&mut self, at: &Environment, role: Role, expr: &ExprNode) -> Result<(), NoMemory> {
        match role {
            Role::Constrains => self.keep_names(at, expr, at.traversal.is_none()),
            Role::InBody => self.keep_names(at, expr, false),
            _ => Ok(()),
        }
    }

    fn judges_count(
        &mut self,
        _at: &Environment,
        _statements: &[StatementNode],
        _count: &ExprNode,
    ) -> Result<(), NoMemory> {
        Ok(())
    }

    fn has_plain(&mut self, _at: &Environment, _plain: &PlainNode) -> Result<(), NoMemory> {
        Ok(())
    }

    fn has_type(&mut self, _at: &Environment, _field_type: &TypeNode) -> Result<(), NoMemory> {
        Ok(())
    }

    fn uniques(&mut self, _first: &ExprNode, _rest: &[NextExpr]) -> Result<(), NoMemory> {
        Ok(())
    }

    fn branches(&mut self, _statements: &[StatementNode]) -> Result<(), NoMemory> {
        Ok(())
    }

    fn arms(
        &mut self,
        _at: &Environment,
        _first: &ArmNode,
        _rest: &[ArmNode],
    ) -> Result<(), NoMemory> {
        Ok(())
    }

    fn performs(
        &mut self,
        _at: &Environment,
        _place: Place,
        _traversal: Traversal,
    ) -> Result<(), NoMemory> {
        Ok(())
    }

    fn ties(
        &mut self,
        at: &Environment,
        first: EndNode,
        others: &OtherEnds,
    ) -> Result<(), NoMemory> {
        match others {
            OtherEnds::One(other) => self.keep_tie(at, first, *other),
            OtherEnds::Several {
                first: second,
                rest,
                ..
            } => self.keep_several(at, first, *second, rest.as_slice()),
        }
    }

    fn passes(
        &mut self,
        _component: Option<Place>,
        _name: Name,
        _arguments: &Option<ArgumentsNode>,
        _needed: bool,
    ) -> Result<(), NoMemory> {
        Ok(())
    }

    fn reads(
        &mut self,
        _at: &Environment,
        _first: &PartNode,
        _rest: &[NextPart],
    ) -> Result<(), NoMemory> {
        Ok(())
    }

    fn repeats(
        &mut self,
        at: &Environment,
        first: Name,
        _rest: &[DotName],
    ) -> Result<(), NoMemory> {
        self.keep_judging(at, first, at.traversal.is_none())
    }

    fn takes_item(
        &mut self,
        _at: &Environment,
        _component: Option<Name>,
        _enum_: Name,
        _item: Name,
    ) -> Result<(), NoMemory> {
        Ok(())
    }

    fn names_type(
        &mut self,
        _component: Option<Place>,
        _wanted: Wanted,
        _name: TypeName,
    ) -> Result<(), NoMemory> {
        Ok(())
    }

    fn names_base(&mut self, _action: &Declaration, _name: TypeName) -> Result<(), NoMemory> {
        Ok(())
    }

    fn calls(&mut self, _component: Option<Place>, _name: Name) -> Result<(), NoMemory> {
        Ok(())
    }

    fn assigns(&mut self, at: &Environment, name: Name) -> Result<(), NoMemory> {
        self.keep_judging(at, name, false)
    }

    fn traverses(&mut self, _at: &Environment, _name: Name) -> Result<(), NoMemory> {
        Ok(())
    }

    fn ends(&mut self, at: &Environment, handle: Name, _reference: Name) -> Result<(), NoMemory> {
        self.keep_judging(at, handle, false)
    }

    fn joins(&mut self, _statements: &[StatementNode], _names: &NamesNode) -> Result<(), NoMemory> {
        Ok(())
    }

    fn binds(&mut self, _component: Place, _pool: Name) -> Result<(), NoMemory> {
        Ok(())
    }

    fn targets(
        &mut self,
        _component: Place,
        _pool: Name,
        _target: &TargetNode,
    ) -> Result<(), NoMemory> {
        Ok(())
    }
}
