//! A visitor that judges each use by the rules of types, and keeps the values of constants.
ghost use Rattle.std.specs.Prelude.{◌≡◌, [], None, IfOk, OnOk};
ghost use Rattle.pst_ast.specs.ExpressionView.{view_expr};
ghost use Rattle.pst_type_rules.specs.TypeRules;
ghost use Rattle.pst_evaluate.specs.Kept.{constant_by, known_in};
ghost use Rattle.pst_walk_parts.specs.Shown.{view_role};
ghost use Rattle.pst_typed_uses.specs.Judged.{constant_if, with_constant, with_found};

use pst_ast::{Environment, ExprNode, Finding};
use pst_base::{NoMemory, Place};
use pst_enum_values::EnumTable;
use pst_evaluate::constant_value;
use pst_name_rules::earlier;
use pst_range_rules::RangeFacts;
use pst_type_rules::ConstantValue;
use pst_use_rules::Facts;
use pst_walk_parts::Role;
use std::alloc::Global;
use std::marker::Model;

/// Judges the uses of a walk.
#[derive(Drop)]
pub struct Judge<'a> {
    pub facts: Facts<'a>,
    pub enums: &'a EnumTable<'a>,
    least: Option<Finding>,
    constants: Vec<ConstantValue>,
}

impl<'a> Model for Judge<'a> {
    ghost use Rattle.std.specs.Coded.{codes};
    ghost use Rattle.pst_ast.specs.contracts.expression.ExprNode as the_expr_node;
    ghost use Rattle.pst_ast.specs.contracts.expression.UnaryNode as the_unary_node;
    ghost use Rattle.pst_ast.specs.contracts.expression.PrimaryNode as the_primary_node;
    ghost use Rattle.pst_ast.specs.contracts.expression.PathNode as the_path_node;
    ghost use Rattle.pst_ast.specs.contracts.expression.PartNode as the_part_node;
    ghost use Rattle.pst_ast.specs.contracts.expression.NextPart as the_next_part;
    ghost use Rattle.pst_ast.specs.contracts.expression.IndexNode as the_index_node;
    ghost use Rattle.pst_ast.specs.contracts.expression.RangesNode as the_ranges_node;
    ghost use Rattle.pst_ast.specs.contracts.expression.NextRange as the_next_range;
    ghost use Rattle.pst_ast.specs.contracts.expression.RangeNode as the_range_node;
    ghost use Rattle.pst_ast.specs.contracts.activity.StatementNode as the_statement_node;
    ghost use Rattle.pst_ast.specs.contracts.activity.CoreNode as the_core_node;
    ghost use Rattle.pst_ast.specs.contracts.activity.BranchNode as the_branch_node;
    ghost use Rattle.pst_ast.specs.contracts.activity.ArmNode as the_arm_node;
    ghost use Rattle.pst_ast.specs.contracts.constraint.ConstraintNode as the_constraint_node;
    ghost use Rattle.pst_ast.specs.contracts.constraint.ConstraintItem as the_constraint_item;
    ghost use Rattle.pst_ast.specs.contracts.body.BodyStatement as the_body_statement;
    ghost use Rattle.pst_typed_uses.specs.Judged.{Judged};

    ghost Value = { Judged };

    ghost coded = { Prim.hlevel (codes, the_expr_node.the_row.coded, the_unary_node.the_row.coded, the_primary_node.the_row.coded, the_path_node.the_row.coded, the_part_node.the_row.coded, the_next_part.the_row.coded, the_index_node.the_row.coded, the_ranges_node.the_row.coded, the_next_range.the_row.coded, the_range_node.the_row.coded, the_statement_node.the_row.coded, the_core_node.the_row.coded, the_branch_node.the_row.coded, the_arm_node.the_row.coded, the_constraint_node.the_row.coded, the_constraint_item.the_row.coded, the_body_statement.the_row.coded) };

    ghost view = { λ j. record { units = j.facts.sites.now; ds = j.facts.index.now; enums = j.enums.now.enums; names = j.facts.names.now; items = j.enums.now.items; least = j.least; constants = j.constants.items } };
}

impl<'a> Judge<'a> {
    /// A judge that has seen nothing.
    pub fn new(alloc: Global, facts: Facts<'a>, enums: &'a EnumTable<'a>) -> Judge<'a>
        ensures { result ≡ record { units = facts.entry.sites.now; ds = facts.entry.index.now; enums = enums.now.enums; names = facts.entry.names.now; items = enums.now.items; least = None; constants = [] } }
    {
        Judge {
            facts,
            enums,
            least: None,
            constants: Vec::new(alloc),
        }
    }

    /// The least finding, and the constants.
    pub fn into_parts(self) -> (Option<Finding>, Vec<ConstantValue>)
        ensures least { result.0 ≡ self.entry.least }
        ensures constants { result.1.items ≡ self.entry.constants }
    {
        (self.least, self.constants)
    }

    /// The facts by which ranges are judged.
    pub fn ranges(&self) -> RangeFacts<'a>
        ensures index { result.index.now ≡ self.now.ds }
        ensures names { result.names.now ≡ self.now.names }
        ensures enums { result.enums.now.enums ≡ self.now.enums }
        ensures items { result.enums.now.items ≡ self.now.items }
    {
        RangeFacts {
            alloc: self.facts.alloc,
            index: self.facts.index,
            names: self.facts.names,
            enums: self.enums,
        }
    }

    /// Keeps a finding, where it is the least.
    pub fn note(&mut self, finding: Option<Finding>)
        ensures { self.new ≡ with_found self.old finding }
    {
        self.least = earlier(self.least, finding);
    }

    /// Keeps the value of a constant part, where it has one.
    pub fn keep(&mut self, constant: bool, at: Place, value: Option<i64>) -> Result<(), NoMemory>
        ensures { OnOk result (self.new ≡ with_constant self.old (constant_if constant at value)) }
    {
        match value {
            Some(value) if constant => {
                self.constants.push(ConstantValue { at, value })?;
                Ok(())
            }
            _ => Ok(()),
        }
    }

    /// The value of an expression as a constant.
    pub fn value_of(&self, at: &Environment, expr: &ExprNode) -> Result<Option<i64>, NoMemory>
        ensures { IfOk result (λ v. v ≡ constant_by self.now.ds self.now.names (known_in self.now.items) at.now (view_expr expr.now)) }
    {
        constant_value(
            self.facts.alloc,
            self.facts.index,
            self.facts.names,
            self.enums.values(),
            at,
            expr,
        )
    }
}

/// Whether an expression for that must be constant.
pub fn is_constant(role: Role) -> bool
    ensures { result ≡ TypeRules.is_constant (view_role role) }
{
    !matches!(role, Role::Condition | Role::Constrains | Role::InBody)
}
