//! The sites of the sources.
ghost use Rattle.std.specs.Prelude.{◌≡◌, IfOk, map};
ghost use Rattle.std.specs.Option.{option_map};
ghost use Rattle.pst_ast.specs.DeclarationView.{view_action, view_function, view_unit};
ghost use Rattle.pst_type_rules.specs.Enums;
ghost use Rattle.pst_type_rules.specs.Sites as tree;
ghost use Rattle.pst_site_lists.specs.Sited.{view_enum_site, view_field_site};

use crate::find::{
    action_in, enum_in, field_in, function_in, places_of_actions, places_of_enums,
    places_of_fields, places_of_functions,
};
use pst_ast::{ActionNode, FunctionNode, Unit};
use pst_base::{NoMemory, Place};
use pst_places::PlaceList;
use pst_site_lists::{EnumSite, FieldSite, list_actions, list_enums, list_fields, list_functions};
use std::alloc::Global;
use std::marker::Model;

/// The actions, functions, fields and enums of the sources, each by the place of its name.
///
/// Contracts see the sources. A look-up takes expected constant time.
#[derive(Drop)]
pub struct Sites<'a> {
    units: &'a [Unit],
    actions: Vec<&'a ActionNode>,
    action_places: PlaceList,
    functions: Vec<&'a FunctionNode>,
    function_places: PlaceList,
    fields: Vec<FieldSite<'a>>,
    field_places: PlaceList,
    enums: Vec<EnumSite<'a>>,
    enum_places: PlaceList,
}

impl<'a> Model for Sites<'a> {
    ghost use Rattle.std.specs.Prelude.{List};
    ghost use Rattle.std.specs.Coded.{codes};
    ghost use Rattle.pst_ast.specs.contracts.expression.ExprNode as the_expr_node;
    ghost use Rattle.pst_ast.specs.contracts.expression.UnaryNode as the_unary_node;
    ghost use Rattle.pst_ast.specs.contracts.expression.PrimaryNode as the_primary_node;
    ghost use Rattle.pst_ast.specs.contracts.expression.PathNode as the_path_node;
    ghost use Rattle.pst_ast.specs.contracts.expression.PartNode as the_part_node;
    ghost use Rattle.pst_ast.specs.contracts.expression.NextPart as the_next_part;
    ghost use Rattle.pst_ast.specs.contracts.expression.IndexNode as the_index_node;
    ghost use Rattle.pst_ast.specs.contracts.expression.RangesNode as the_ranges_node;
    ghost use Rattle.pst_ast.specs.contracts.expression.NextRange as the_next_range;
    ghost use Rattle.pst_ast.specs.contracts.expression.RangeNode as the_range_node;
    ghost use Rattle.pst_ast.specs.contracts.activity.StatementNode as the_statement_node;
    ghost use Rattle.pst_ast.specs.contracts.activity.CoreNode as the_core_node;
    ghost use Rattle.pst_ast.specs.contracts.activity.BranchNode as the_branch_node;
    ghost use Rattle.pst_ast.specs.contracts.activity.ArmNode as the_arm_node;
    ghost use Rattle.pst_ast.specs.contracts.constraint.ConstraintNode as the_constraint_node;
    ghost use Rattle.pst_ast.specs.contracts.constraint.ConstraintItem as the_constraint_item;
    ghost use Rattle.pst_ast.specs.contracts.body.BodyStatement as the_body_statement;
    ghost use Rattle.pst_ast.specs.declared.declaration.Unit.{Unit};
    ghost use Rattle.pst_sites.specs.Kept.{AreSites};

    ghost Value = { List Unit };

    ghost coded = { Prim.hlevel (codes, the_expr_node.the_row.coded, the_unary_node.the_row.coded, the_primary_node.the_row.coded, the_path_node.the_row.coded, the_part_node.the_row.coded, the_next_part.the_row.coded, the_index_node.the_row.coded, the_ranges_node.the_row.coded, the_next_range.the_row.coded, the_range_node.the_row.coded, the_statement_node.the_row.coded, the_core_node.the_row.coded, the_branch_node.the_row.coded, the_arm_node.the_row.coded, the_constraint_node.the_row.coded, the_constraint_item.the_row.coded, the_body_statement.the_row.coded) };

    ghost view = { λ s. s.units.now };

    ghost invariant = { AreSites };
}

impl<'a> Sites<'a> {
    /// The sites of sources.
    pub fn new(alloc: Global, units: &'a [Unit]) -> Result<Sites<'a>, NoMemory>
        ensures { IfOk result (λ s. s ≡ units.now) }
    {
        let actions = list_actions(alloc, units)?;
        let action_places = places_of_actions(alloc, actions.as_slice())?;
        let functions = list_functions(alloc, units)?;
        let function_places = places_of_functions(alloc, functions.as_slice())?;
        let fields = list_fields(alloc, units)?;
        let field_places = places_of_fields(alloc, fields.as_slice())?;
        let enums = list_enums(alloc, units)?;
        let enum_places = places_of_enums(alloc, enums.as_slice())?;
        Ok(Sites {
            units,
            actions,
            action_places,
            functions,
            function_places,
            fields,
            field_places,
            enums,
            enum_places,
        })
    }

    /// The sources.
    pub fn sources(&self) -> &'a [Unit]
        ensures { result.now ≡ self.now }
    {
        self.units
    }

    /// The actions, in the order of their text.
    pub fn actions(&self) -> &[&'a ActionNode]
        ensures { map (λ a. tree.action_of (view_action a.now)) result.now ≡ tree.actions (map view_unit self.now) }
    {
        self.actions.as_slice()
    }

    /// The enums, in the order of their text.
    pub fn enums(&self) -> &[EnumSite<'a>]
        ensures { map view_enum_site result.now ≡ Enums.enums (map view_unit self.now) }
    {
        self.enums.as_slice()
    }

    /// The action whose name stands at a place.
    #[tactic(auto, unfolding(pst_type_rules::specs::Sites::action_at))]
    pub fn action_at(&self, place: Place) -> Option<&'a ActionNode>
        ensures { option_map (λ a. tree.action_of (view_action a.now)) result ≡ tree.action_at (map view_unit self.now) place }
    {
        action_in(self.actions.as_slice(), &self.action_places, place)
    }

    /// The function whose name stands at a place.
    #[tactic(auto, unfolding(pst_type_rules::specs::Sites::function_at))]
    pub fn function_at(&self, place: Place) -> Option<&'a FunctionNode>
        ensures { option_map (λ f. tree.function_of (view_function f.now)) result ≡ tree.function_at (map view_unit self.now) place }
    {
        function_in(self.functions.as_slice(), &self.function_places, place)
    }

    /// The field whose name stands at a place.
    #[tactic(auto, unfolding(pst_type_rules::specs::Sites::field_at))]
    pub fn field_at(&self, place: Place) -> Option<&FieldSite<'a>>
        ensures { option_map (λ f. view_field_site f.now) result ≡ tree.field_at (map view_unit self.now) place }
    {
        field_in(self.fields.as_slice(), &self.field_places, place)
    }

    /// The enum whose name stands at a place.
    #[tactic(auto, unfolding(pst_type_rules::specs::Enums::enum_at))]
    pub fn enum_at(&self, place: Place) -> Option<EnumSite<'a>>
        ensures { option_map view_enum_site result ≡ Enums.enum_at (map view_unit self.now) place }
    {
        enum_in(self.enums.as_slice(), &self.enum_places, place)
    }
}
