//! What a walk shows of the sources.
ghost use Rattle.std.specs.Prelude.{◌≡◌, ◌∷◌, Some, OnOk, length, map};
ghost use Rattle.std.specs.List.{fold};
ghost use Rattle.std.specs.Option.{option_map};
ghost use Rattle.pst_ast.specs.ActivityView.{view_arm, view_other_ends};
ghost use Rattle.pst_ast.specs.BodyView.{view_arguments};
ghost use Rattle.pst_ast.specs.DeclarationView.{view_target};
ghost use Rattle.pst_ast.specs.ExpressionView.{view_expr, view_next_part, view_part};
ghost use Rattle.pst_ast.specs.SharedView.{view_names, view_next_expr, view_plain, view_type};
ghost use Rattle.pst_ast.specs.Declarations.{names_of};
ghost use Rattle.pst_ast.specs.Uses.{Use, Judges, JoinCount, HasPlain, HasType, Uniques, Branches, Arms, Performs, Ties, Passes, Reads, Repeats, TakesItem, NamesType, NamesBase, Calls, Assigns, Traverses, Ends, Joins, Binds, arguments_of, arm_label, branch_places, branches_in, labels_in, next_expr, other_ends, part_of, plain_part, target_use};
ghost use Rattle.pst_walk_parts.specs.Shown.{dotted_part, view_role, view_statements, view_wanted};

use pst_ast::{
    ArgumentsNode, ArmNode, Declaration, DotName, EndNode, Environment, ExprNode, Name, NamesNode,
    NextExpr, NextPart, OtherEnds, PartNode, PlainNode, StatementNode, TargetNode, Traversal,
    TypeName, TypeNode,
};
use pst_base::{NoMemory, Place};

/// The sorts of types that a type name may ask for.
#[derive(Clone, Copy, PartialEq, Eq)]
pub enum Wanted {
    /// A component.
    Component,
    /// An action.
    Action,
    /// An object.
    Object,
    /// An enum.
    Enumeration,
}

/// What an outermost expression is for, other than the count of branches that a block joins.
#[derive(Clone, Copy, PartialEq, Eq)]
pub enum Role {
    /// The width of a plain type, or the number of its highest bit.
    Width {
        /// Whether the type has a sign.
        signed: bool,
    },
    /// The number of the lowest bit of a plain type.
    LowestBit,
    /// An end of a range of a type or an arm.
    RangeEnd,
    /// The value of an item of an enum.
    EnumValue,
    /// The size of a pool.
    PoolSize {
        /// The type of its objects.
        object: TypeName,
    },
    /// The size of an array.
    ArraySize,
    /// The weight of a branch.
    Weight,
    /// A condition, guard, count or matched value of an activity.
    Condition,
    /// A part of a constraint, or of an inline one.
    Constrains,
    /// A part of a body.
    InBody,
}

/// Sees the uses of the sources one after another, each as a call of its own.
pub trait Visitor {
    /// What it becomes by a use.
    ghost step: { Self → Use → Self };

    /// An outermost expression as a whole, but not the count of branches that a block joins.
    fn judges(&mut self, at: &Environment, role: Role, expr: &ExprNode) -> Result<(), NoMemory>
        ensures { OnOk result (self.new ≡ step self.old (Judges at.now (view_role role) (view_expr expr.now))) };

    /// The count of branches that a block with these statements joins.
    fn judges_count(
        &mut self,
        at: &Environment,
        statements: &[StatementNode],
        count: &ExprNode,
    ) -> Result<(), NoMemory>
        ensures { OnOk result (self.new ≡ step self.old (Judges at.now (JoinCount (branches_in (view_statements statements.now))) (view_expr count.now))) };

    /// A plain type that may have a width.
    fn has_plain(&mut self, at: &Environment, plain: &PlainNode) -> Result<(), NoMemory>
        ensures { OnOk result (self.new ≡ step self.old (HasPlain at.now (view_plain plain.now))) };

    /// The type of a field.
    fn has_type(&mut self, at: &Environment, field_type: &TypeNode) -> Result<(), NoMemory>
        ensures { OnOk result (self.new ≡ step self.old (HasType at.now (view_type field_type.now))) };

    /// The items of a `unique`.
    fn uniques(&mut self, first: &ExprNode, rest: &[NextExpr]) -> Result<(), NoMemory>
        ensures { OnOk result (self.new ≡ step self.old (Uniques (view_expr first.now ∷ map next_expr (map view_next_expr rest.now)))) };

    /// The branches of a block with a join form, which has these statements.
    fn branches(&mut self, statements: &[StatementNode]) -> Result<(), NoMemory>
        ensures { OnOk result (self.new ≡ step self.old (Branches (branch_places (view_statements statements.now)))) };

    /// The arms of a `match`.
    fn arms(&mut self, at: &Environment, first: &ArmNode, rest: &[ArmNode]) -> Result<(), NoMemory>
        ensures { OnOk result (self.new ≡ step self.old (Arms at.now (arm_label (view_arm first.now) ∷ map (λ a. arm_label (view_arm a)) rest.now))) };

    /// A traversal, at the first token of its statement.
    fn performs(
        &mut self,
        at: &Environment,
        place: Place,
        traversal: Traversal,
    ) -> Result<(), NoMemory>
        ensures { OnOk result (self.new ≡ step self.old (Performs at.now place traversal)) };

    /// A bind of an activity.
    fn ties(&mut self, at: &Environment, first: EndNode, others: &OtherEnds) -> Result<(), NoMemory>
        ensures { OnOk result (self.new ≡ step self.old (Ties at.now first (other_ends (view_other_ends others.now)))) };

    /// A call with its arguments, whose answer is needed or dropped.
    fn passes(
        &mut self,
        component: Option<Place>,
        name: Name,
        arguments: &Option<ArgumentsNode>,
        needed: bool,
    ) -> Result<(), NoMemory>
        ensures { OnOk result (self.new ≡ step self.old (Passes component name (length (arguments_of (option_map view_arguments arguments.now))) needed)) };

    /// A path in an expression.
    fn reads(
        &mut self,
        at: &Environment,
        first: &PartNode,
        rest: &[NextPart],
    ) -> Result<(), NoMemory>
        ensures { OnOk result (self.new ≡ step self.old (Reads at.now (part_of (view_part first.now)) (map (λ n. dotted_part (view_next_part n)) rest.now))) };

    /// The path of a `foreach`.
    fn repeats(&mut self, at: &Environment, first: Name, rest: &[DotName]) -> Result<(), NoMemory>
        ensures { OnOk result (self.new ≡ step self.old (Repeats at.now (plain_part first) (map (λ d. plain_part d.name) rest.now))) };

    /// An item behind the name of its enum, before which a component's may stand.
    fn takes_item(
        &mut self,
        at: &Environment,
        component: Option<Name>,
        enum_: Name,
        item: Name,
    ) -> Result<(), NoMemory>
        ensures { OnOk result (self.new ≡ step self.old (TakesItem at.now component enum_ item)) };

    /// The name of a type, in the text of a component.
    fn names_type(
        &mut self,
        component: Option<Place>,
        wanted: Wanted,
        name: TypeName,
    ) -> Result<(), NoMemory>
        ensures { OnOk result (self.new ≡ step self.old (NamesType component (view_wanted wanted) name)) };

    /// The base of an action.
    fn names_base(&mut self, action: &Declaration, name: TypeName) -> Result<(), NoMemory>
        ensures { OnOk result (self.new ≡ step self.old (NamesBase action.now name)) };

    /// The function of a call, in the text of a component.
    fn calls(&mut self, component: Option<Place>, name: Name) -> Result<(), NoMemory>
        ensures { OnOk result (self.new ≡ step self.old (Calls component name)) };

    /// What a value is assigned to.
    fn assigns(&mut self, at: &Environment, name: Name) -> Result<(), NoMemory>
        ensures { OnOk result (self.new ≡ step self.old (Assigns at.now name)) };

    /// The handle of a traversal.
    fn traverses(&mut self, at: &Environment, name: Name) -> Result<(), NoMemory>
        ensures { OnOk result (self.new ≡ step self.old (Traverses at.now name)) };

    /// An end of a bind of an activity.
    fn ends(&mut self, at: &Environment, handle: Name, reference: Name) -> Result<(), NoMemory>
        ensures { OnOk result (self.new ≡ step self.old (Ends at.now handle reference)) };

    /// The branches that are joined, by their labels, of a block with these statements.
    fn joins(&mut self, statements: &[StatementNode], names: &NamesNode) -> Result<(), NoMemory>
        ensures { OnOk result (self.new ≡ fold step self.old (map (Joins (labels_in (view_statements statements.now))) (names_of (view_names names.now)))) };

    /// The pool of a bind of a component.
    fn binds(&mut self, component: Place, pool: Name) -> Result<(), NoMemory>
        ensures { OnOk result (self.new ≡ step self.old (Binds component pool)) };

    /// A target that a pool is bound to.
    fn targets(&mut self, component: Place, pool: Name, target: &TargetNode) -> Result<(), NoMemory>
        ensures { OnOk result (self.new ≡ step self.old (target_use component pool (view_target target.now))) };
}
