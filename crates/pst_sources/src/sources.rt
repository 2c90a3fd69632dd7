//! The sources with the values of their enum items and the numbers of the fields of their types.
ghost use Rattle.std.specs.Prelude.{◌≡◌, IfOk};
ghost use Rattle.pst_terms.specs.Fields as numbering;
ghost use Rattle.pst_terms.specs.Sources as tree;
ghost use Rattle.pst_sources.specs.Shown.{sources_of};
ghost use Rattle.pst_sources.specs.Valued.{AreTables};

use crate::fields::FieldNumbers;
use crate::items::list_values;
use crate::known::Known;
use crate::lookup::{item_in, places_of_items};
use pst_ast::Declaration;
use pst_base::{NoMemory, Place};
use pst_places::PlaceList;
use std::marker::Model;

// What is found once for all of the sources.
#[derive(Drop)]
pub(crate) struct SourceTables {
    // The values of enum items.
    pub(crate) items: Vec<(Place, Option<i64>)>,
    // The places of their names.
    pub(crate) places: PlaceList,
    // The numbers of the fields of types.
    pub(crate) numbers: FieldNumbers,
}

/// The sources with the values of their constants and of their enum items, and with the numbers of
/// the fields of their types.
///
/// Contracts see what `Known` shows of them. Values are found in expected constant time, numbers of
/// fields in the time of going through the fields of one type.
#[derive(Drop)]
pub struct Sources<'a> {
    known: Known<'a>,
    tables: SourceTables,
}

impl<'a> Model for Sources<'a> {
    ghost use Rattle.std.specs.Coded.{codes};
    ghost use Rattle.pst_ast.specs.contracts.expression.ExprNode as the_expr_node;
    ghost use Rattle.pst_ast.specs.contracts.expression.UnaryNode as the_unary_node;
    ghost use Rattle.pst_ast.specs.contracts.expression.PrimaryNode as the_primary_node;
    ghost use Rattle.pst_ast.specs.contracts.expression.PathNode as the_path_node;
    ghost use Rattle.pst_ast.specs.contracts.expression.PartNode as the_part_node;
    ghost use Rattle.pst_ast.specs.contracts.expression.NextPart as the_next_part;
    ghost use Rattle.pst_ast.specs.contracts.expression.IndexNode as the_index_node;
    ghost use Rattle.pst_ast.specs.contracts.expression.RangesNode as the_ranges_node;
    ghost use Rattle.pst_ast.specs.contracts.expression.NextRange as the_next_range;
    ghost use Rattle.pst_ast.specs.contracts.expression.RangeNode as the_range_node;
    ghost use Rattle.pst_ast.specs.contracts.activity.StatementNode as the_statement_node;
    ghost use Rattle.pst_ast.specs.contracts.activity.CoreNode as the_core_node;
    ghost use Rattle.pst_ast.specs.contracts.activity.BranchNode as the_branch_node;
    ghost use Rattle.pst_ast.specs.contracts.activity.ArmNode as the_arm_node;
    ghost use Rattle.pst_ast.specs.contracts.constraint.ConstraintNode as the_constraint_node;
    ghost use Rattle.pst_ast.specs.contracts.constraint.ConstraintItem as the_constraint_item;
    ghost use Rattle.pst_ast.specs.contracts.body.BodyStatement as the_body_statement;
    ghost use Rattle.pst_sources.specs.Shown.{Shown};
    ghost use Rattle.pst_sources.specs.Valued.{HasTables};

    ghost Value = { Shown };

    ghost coded = { Prim.hlevel (codes, the_expr_node.the_row.coded, the_unary_node.the_row.coded, the_primary_node.the_row.coded, the_path_node.the_row.coded, the_part_node.the_row.coded, the_next_part.the_row.coded, the_index_node.the_row.coded, the_ranges_node.the_row.coded, the_next_range.the_row.coded, the_range_node.the_row.coded, the_statement_node.the_row.coded, the_core_node.the_row.coded, the_branch_node.the_row.coded, the_arm_node.the_row.coded, the_constraint_node.the_row.coded, the_constraint_item.the_row.coded, the_body_statement.the_row.coded) };

    ghost view = { λ s. s.known };

    ghost invariant = { HasTables };
}

// What is found once for all of the sources.
fn tables_of(known: &Known<'_>) -> Result<SourceTables, NoMemory>
    ensures { IfOk result (AreTables (sources_of known.now)) }
{
    let items = list_values(known)?;
    let places = places_of_items(known.alloc(), items.as_slice())?;
    let numbers = FieldNumbers::new(known)?;
    Ok(SourceTables {
        items,
        places,
        numbers,
    })
}

impl<'a> Sources<'a> {
    /// The sources with the values of their enum items and the numbers of the fields of their types.
    pub fn new(known: Known<'a>) -> Result<Sources<'a>, NoMemory>
        ensures { IfOk result (λ s. s ≡ known.entry) }
    {
        let tables = tables_of(&known)?;
        Ok(Sources { known, tables })
    }

    /// The sources with the values of their constants.
    pub fn known(&self) -> &Known<'a>
        ensures { result.now ≡ self.now }
    {
        &self.known
    }

    /// The value of the enum item whose name stands at a place.
    #[tactic(auto, unfolding(pst_terms::specs::Sources::item_value))]
    pub fn item_value(&self, place: Place) -> Option<i64>
        ensures { result ≡ tree.item_value (sources_of self.now) place }
    {
        match item_in(self.tables.items.as_slice(), &self.tables.places, place) {
            None => None,
            Some(item) => item.1,
        }
    }

    /// The number of a field of a type, for an array that of its first element.
    pub fn field_number(&self, owner: &Declaration, field: &Declaration) -> Result<u32, NoMemory>
        ensures { IfOk result (λ n. n ≡ numbering.field_number (sources_of self.now) owner.now field.now) }
    {
        match self.tables.numbers.number(owner, field) {
            Some(number) => Ok(number),
            None => self.known.field_number(owner, field),
        }
    }
}
