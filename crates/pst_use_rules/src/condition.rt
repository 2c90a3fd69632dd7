//! The names in the conditions of activities.
ghost use Rattle.std.specs.Prelude.{◌≡◌, IfOk, None};
ghost use Rattle.pst_ast.specs.ExpressionView.{view_expr};
ghost use Rattle.pst_ast.specs.Uses.{expr_uses};
ghost use Rattle.pst_name_rules.specs.Leasts.{least_at};
ghost use Rattle.pst_use_rules.specs.Found.{may_be_named as may_it, read_found};
ghost use Rattle.pst_use_rules.specs.Read.{read};

use crate::facts::Facts;
use pst_ast::{Environment, ExprNode, Finding, Name, PathPart, Referent, Sort};
use pst_base::{Names, NoMemory};
use pst_index::{Index, stands_for};
use pst_name_rules::{earlier, unless};
use pst_walk_paths::{PathVisitor, show_paths};
use std::marker::Model;

// Whether a name stands for something that a condition may name, or for nothing.
fn may_be_named(found: &Option<Referent>) -> bool
    ensures { result ≡ may_it found.now }
{
    match found {
        Some(Referent::Declared(found)) => {
            matches!(
                found.sort,
                Sort::Field { .. } | Sort::Item { .. } | Sort::Index
            )
        }
        Some(_) => false,
        None => true,
    }
}

// Sees the paths in a condition.
#[derive(Drop)]
struct Condition<'a> {
    index: &'a Index,
    names: &'a Names,
    least: Option<Finding>,
}

impl<'a> Model for Condition<'a> {
    ghost use Rattle.pst_use_rules.specs.Read.{ReadSoFar};

    ghost Value = { ReadSoFar };

    ghost view = { λ c. record { ds = c.index.now; names = c.names.now; least = c.least } };
}

impl<'a> Condition<'a> {
    // The least finding.
    fn into_least(self) -> Option<Finding>
        ensures { result ≡ self.entry.least }
    {
        self.least
    }
}

impl<'a> PathVisitor for Condition<'a> {
    ghost path_step = { read };

    fn reads_path(
        &mut self,
        at: &Environment,
        first: PathPart,
        _rest: &[PathPart],
    ) -> Result<(), NoMemory> {
        let found = stands_for(self.index, self.names, at, first.name.id);
        let good = may_be_named(&found);
        self.least = earlier(self.least, unless(good, first.name.place, 19));
        Ok(())
    }

    fn takes_item_of(
        &mut self,
        _at: &Environment,
        _component: Option<Name>,
        _enum_: Name,
        _item: Name,
    ) -> Result<(), NoMemory> {
        Ok(())
    }
}

/// Rule 19 in a condition: the least finding of the names in it.
#[tactic(auto, using(crate::proofs::Reading::read_all))]
pub fn condition_least(
    facts: &Facts<'_>,
    at: &Environment,
    expr: &ExprNode,
) -> Result<Option<Finding>, NoMemory>
    ensures { IfOk result (λ r. r ≡ least_at (read_found facts.now.index.now facts.now.names.now) (expr_uses at.now (view_expr expr.now)) None) }
{
    let condition = Condition {
        index: facts.index,
        names: facts.names,
        least: None,
    };
    let seen = show_paths(facts.alloc, condition, at, expr)?;
    Ok(seen.into_least())
}
