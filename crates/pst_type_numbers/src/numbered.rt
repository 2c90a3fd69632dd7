//! The sources with the numbers of their types.
ghost use Rattle.std.specs.Prelude.{◌≡◌, IfOk};
ghost use Rattle.pst_tree.specs.Bases;
ghost use Rattle.pst_terms.specs.Sources.{declared_in};
ghost use Rattle.pst_sources.specs.Shown.{sources_of};
ghost use Rattle.pst_type_numbers.specs.Placed.{AreTables};

use crate::places::{TypeTables, number_of, tables_of};
use pst_ast::Declaration;
use pst_base::NoMemory;
use pst_sources::Sources;
use std::marker::Model;

/// The sources with the numbers of their action types, object types and functions.
///
/// Contracts see what `Sources` shows. A number is found in expected constant time.
#[derive(Drop)]
pub struct Numbered<'a> {
    sources: &'a Sources<'a>,
    tables: TypeTables,
}

impl<'a> Model for Numbered<'a> {
    ghost use Rattle.std.specs.Coded.{codes};
    ghost use Rattle.pst_ast.specs.contracts.expression.ExprNode as the_expr_node;
    ghost use Rattle.pst_ast.specs.contracts.expression.UnaryNode as the_unary_node;
    ghost use Rattle.pst_ast.specs.contracts.expression.PrimaryNode as the_primary_node;
    ghost use Rattle.pst_ast.specs.contracts.expression.PathNode as the_path_node;
    ghost use Rattle.pst_ast.specs.contracts.expression.PartNode as the_part_node;
    ghost use Rattle.pst_ast.specs.contracts.expression.NextPart as the_next_part;
    ghost use Rattle.pst_ast.specs.contracts.expression.IndexNode as the_index_node;
    ghost use Rattle.pst_ast.specs.contracts.expression.RangesNode as the_ranges_node;
    ghost use Rattle.pst_ast.specs.contracts.expression.NextRange as the_next_range;
    ghost use Rattle.pst_ast.specs.contracts.expression.RangeNode as the_range_node;
    ghost use Rattle.pst_ast.specs.contracts.activity.StatementNode as the_statement_node;
    ghost use Rattle.pst_ast.specs.contracts.activity.CoreNode as the_core_node;
    ghost use Rattle.pst_ast.specs.contracts.activity.BranchNode as the_branch_node;
    ghost use Rattle.pst_ast.specs.contracts.activity.ArmNode as the_arm_node;
    ghost use Rattle.pst_ast.specs.contracts.constraint.ConstraintNode as the_constraint_node;
    ghost use Rattle.pst_ast.specs.contracts.constraint.ConstraintItem as the_constraint_item;
    ghost use Rattle.pst_ast.specs.contracts.body.BodyStatement as the_body_statement;
    ghost use Rattle.pst_sources.specs.Shown.{Shown};
    ghost use Rattle.pst_type_numbers.specs.Kept.{HasNumbers};

    ghost Value = { Shown };

    ghost coded = { Prim.hlevel (codes, the_expr_node.the_row.coded, the_unary_node.the_row.coded, the_primary_node.the_row.coded, the_path_node.the_row.coded, the_part_node.the_row.coded, the_next_part.the_row.coded, the_index_node.the_row.coded, the_ranges_node.the_row.coded, the_next_range.the_row.coded, the_range_node.the_row.coded, the_statement_node.the_row.coded, the_core_node.the_row.coded, the_branch_node.the_row.coded, the_arm_node.the_row.coded, the_constraint_node.the_row.coded, the_constraint_item.the_row.coded, the_body_statement.the_row.coded) };

    ghost view = { λ n. n.sources.now };

    ghost invariant = { HasNumbers };
}

// The places of the types that sources declare.
fn tables_in(sources: &Sources<'_>) -> Result<TypeTables, NoMemory>
    ensures { IfOk result (AreTables (declared_in (sources_of sources.now))) }
{
    let known = sources.known();
    tables_of(known.alloc(), known.index().as_slice())
}

impl<'a> Numbered<'a> {
    /// The sources with the numbers of their types.
    pub fn new(sources: &'a Sources<'a>) -> Result<Numbered<'a>, NoMemory>
        ensures { IfOk result (λ n. n ≡ sources.now) }
    {
        let tables = tables_in(sources)?;
        Ok(Numbered { sources, tables })
    }

    /// The sources.
    pub fn sources(&self) -> &'a Sources<'a>
        ensures { result.now ≡ self.now }
    {
        self.sources
    }

    /// The number of an action type.
    #[tactic(auto, using(crate::proofs::Numbering::number_is))]
    pub fn action_number(&self, action: &Declaration) -> Result<u32, NoMemory>
        ensures { IfOk result (λ n. n ≡ Bases.action_number (declared_in (sources_of self.now)) action.now) }
    {
        number_of(&self.tables.actions, action)
    }

    /// The number of an object type.
    #[tactic(auto, using(crate::proofs::Numbering::number_is))]
    pub fn object_number(&self, object: &Declaration) -> Result<u32, NoMemory>
        ensures { IfOk result (λ n. n ≡ Bases.object_number (declared_in (sources_of self.now)) object.now) }
    {
        number_of(&self.tables.objects, object)
    }

    /// The number of a function.
    #[tactic(auto, using(crate::proofs::Numbering::number_is))]
    pub fn function_number(&self, function: &Declaration) -> Result<u32, NoMemory>
        ensures { IfOk result (λ n. n ≡ Bases.function_number (declared_in (sources_of self.now)) function.now) }
    {
        number_of(&self.tables.functions, function)
    }
}
