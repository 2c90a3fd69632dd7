//! The sources with the values of their constants.
ghost use Rattle.std.specs.Prelude.{◌≡◌, IfOk, map};
ghost use Rattle.pst_ast.specs.DeclarationView.{view_unit};
ghost use Rattle.pst_ast.specs.ExpressionView.{view_expr};
ghost use Rattle.pst_ast.specs.Declarations.{declarations};
ghost use Rattle.pst_terms.specs.Fields as numbering;
ghost use Rattle.pst_terms.specs.Sources as tree;
ghost use Rattle.pst_sources.specs.Shown.{sources_of, with_constants};

use crate::first_token::expr_place;
use crate::lookup::{constant_in, places_of_constants};
use pst_ast::{Declaration, ExprNode};
use pst_base::{Names, NoMemory};
use pst_index::Index;
use pst_member_bases::MemberBases;
use pst_places::PlaceList;
use pst_sites::Sites;
use pst_type_members::{MemberSort, Members};
use pst_type_rules::ConstantValue;
use std::alloc::Global;
use std::marker::Model;

/// The sources with the values of their constants.
///
/// Contracts see the trees of the sources, the texts of their names, and the values of their
/// constants. The value of a constant is found in expected constant time.
#[derive(Drop)]
pub struct Known<'a> {
    alloc: Global,
    members: Members<'a>,
    names: &'a Names,
    sites: &'a Sites<'a>,
    constants: &'a [ConstantValue],
    places: PlaceList,
}

impl<'a> Model for Known<'a> {
    ghost use Rattle.std.specs.Coded.{codes};
    ghost use Rattle.pst_ast.specs.contracts.expression.ExprNode as the_expr_node;
    ghost use Rattle.pst_ast.specs.contracts.expression.UnaryNode as the_unary_node;
    ghost use Rattle.pst_ast.specs.contracts.expression.PrimaryNode as the_primary_node;
    ghost use Rattle.pst_ast.specs.contracts.expression.PathNode as the_path_node;
    ghost use Rattle.pst_ast.specs.contracts.expression.PartNode as the_part_node;
    ghost use Rattle.pst_ast.specs.contracts.expression.NextPart as the_next_part;
    ghost use Rattle.pst_ast.specs.contracts.expression.IndexNode as the_index_node;
    ghost use Rattle.pst_ast.specs.contracts.expression.RangesNode as the_ranges_node;
    ghost use Rattle.pst_ast.specs.contracts.expression.NextRange as the_next_range;
    ghost use Rattle.pst_ast.specs.contracts.expression.RangeNode as the_range_node;
    ghost use Rattle.pst_ast.specs.contracts.activity.StatementNode as the_statement_node;
    ghost use Rattle.pst_ast.specs.contracts.activity.CoreNode as the_core_node;
    ghost use Rattle.pst_ast.specs.contracts.activity.BranchNode as the_branch_node;
    ghost use Rattle.pst_ast.specs.contracts.activity.ArmNode as the_arm_node;
    ghost use Rattle.pst_ast.specs.contracts.constraint.ConstraintNode as the_constraint_node;
    ghost use Rattle.pst_ast.specs.contracts.constraint.ConstraintItem as the_constraint_item;
    ghost use Rattle.pst_ast.specs.contracts.body.BodyStatement as the_body_statement;
    ghost use Rattle.pst_sources.specs.Shown.{Shown};
    ghost use Rattle.pst_sources.specs.Kept.{IsKnown, known_sources};

    ghost Value = { Shown };

    ghost coded = { Prim.hlevel (codes, the_expr_node.the_row.coded, the_unary_node.the_row.coded, the_primary_node.the_row.coded, the_path_node.the_row.coded, the_part_node.the_row.coded, the_next_part.the_row.coded, the_index_node.the_row.coded, the_ranges_node.the_row.coded, the_next_range.the_row.coded, the_range_node.the_row.coded, the_statement_node.the_row.coded, the_core_node.the_row.coded, the_branch_node.the_row.coded, the_arm_node.the_row.coded, the_constraint_node.the_row.coded, the_constraint_item.the_row.coded, the_body_statement.the_row.coded) };

    ghost view = { known_sources };

    ghost invariant = { IsKnown };
}

impl<'a> Known<'a> {
    /// The sources with these constants.
    pub fn new(
        alloc: Global,
        bases: &'a MemberBases<'a>,
        names: &'a Names,
        sites: &'a Sites<'a>,
        constants: &'a [ConstantValue],
    ) -> Result<Known<'a>, NoMemory>
        requires { bases.now ≡ declarations (map view_unit sites.now) }
        ensures { IfOk result (λ k. sources_of k ≡ with_constants (map view_unit sites.now) names.now constants.now) }
    {
        let members = Members::new(alloc, bases)?;
        let places = places_of_constants(alloc, constants)?;
        Ok(Known {
            alloc,
            members,
            names,
            sites,
            constants,
            places,
        })
    }

    /// Where memory comes from.
    pub fn alloc(&self) -> Global {
        self.alloc
    }

    /// What the sources declare.
    pub fn index(&self) -> &'a Index
        ensures { result.now ≡ tree.declared_in (sources_of self.now) }
    {
        self.members.index()
    }

    /// The members of types.
    pub fn members(&self) -> &Members<'a>
        ensures { result.now ≡ tree.declared_in (sources_of self.now) }
    {
        &self.members
    }

    /// The texts of names.
    pub fn names(&self) -> &'a Names
        ensures { result.now ≡ (sources_of self.now).names }
    {
        self.names
    }

    /// The sources, by places.
    pub fn sites(&self) -> &'a Sites<'a>
        ensures { map view_unit result.now ≡ (sources_of self.now).units }
    {
        self.sites
    }

    /// The value of a constant expression, which its first token tells.
    pub fn value_of(&self, expr: &ExprNode) -> Option<i64>
        ensures { result ≡ tree.value_of (sources_of self.now) (view_expr expr.now) }
    {
        match constant_in(self.constants, &self.places, expr_place(expr)) {
            None => None,
            Some(constant) => Some(constant.value),
        }
    }

    /// The same as a number that isn't negative.
    pub fn amount_of(&self, expr: &ExprNode) -> u64
        ensures { result ≡ tree.amount_of (sources_of self.now) (view_expr expr.now) }
    {
        match self.value_of(expr) {
            None => 0,
            Some(value) => value.unsigned_abs(),
        }
    }

    /// The number of elements of an array; none for a field that is no array.
    pub fn size_of(&self, field: &Declaration) -> Option<u64>
        ensures { result ≡ numbering.size_of (sources_of self.now) field.now }
    {
        let site = self.sites.field_at(field.name.place)?;
        let size = site.size?;
        Some(self.amount_of(size))
    }

    /// As how many fields a declared field counts.
    pub fn count_of(&self, field: &Declaration) -> u64
        ensures { result ≡ numbering.count_of (sources_of self.now) field.now }
    {
        match self.size_of(field) {
            None => 1,
            Some(size) => size,
        }
    }

    // How many fields stand before one of a list.
    fn field_number_in(&self, fields: &[Declaration], field: &Declaration) -> Result<u64, NoMemory>
        ensures { IfOk result (λ n. n ≡ numbering.field_number_in (sources_of self.now) fields.now field.now) }
    {
        let mut number: u64 = 0;
        for other in fields {
            if other.name.place == field.name.place {
                return Ok(number);
            }
            let Some(more) = number.checked_add(self.count_of(other)) else {
                return Err(NoMemory);
            };
            number = more;
        }
        Ok(number)
    }

    /// The number of a field of a type, for an array that of its first element, counted anew.
    pub(crate) fn field_number(
        &self,
        owner: &Declaration,
        field: &Declaration,
    ) -> Result<u32, NoMemory>
        ensures { IfOk result (λ n. n ≡ numbering.field_number (sources_of self.now) owner.now field.now) }
    {
        let fields = self.members.those(self.alloc, MemberSort::Field, owner)?;
        let number = self.field_number_in(fields.as_slice(), field)?;
        match u32::try_from(number) {
            Ok(number) => Ok(number),
            Err(_) => Err(NoMemory),
        }
    }
}
