//! The uses in traversals, and what stands before the statements of branches and arms.
ghost use Rattle.std.specs.Prelude.{◌≡◌, ◌∷◌, OnOk, map};
ghost use Rattle.std.specs.List.{fold};
ghost use Rattle.std.specs.Option.{option_map};
ghost use Rattle.pst_ast.specs.ActivityView.{view_arm, view_arm_label, view_core, view_guard, view_weight, view_with};
ghost use Rattle.pst_ast.specs.ExpressionView.{view_expr};
ghost use Rattle.pst_ast.specs.Uses;
ghost use Rattle.pst_ast.specs.Uses.{Arms, Condition, arm_label, arm_label_uses, guard_uses, option_uses, performed, weight_uses, whole_uses, with_uses};

use pst_ast::{
    ArmLabel, ArmNode, CoreNode, Environment, ExprNode, GuardNode, Name, Traversal, WeightNode,
    WithNode,
};
use pst_base::{NoMemory, Place};
use pst_walk_parts::show_constraint::show_set;
use pst_walk_parts::show_shared::{show_ends, show_whole};
use pst_walk_parts::{Role, Visitor};

// The traversal of a handle, where it stands.
pub fn by_handle(at: &Environment, name: Name) -> Traversal
    ensures { result ≡ Uses.by_handle at.now name }
{
    Traversal::ByHandle {
        hidden_by: at.inner.find(name.id),
        name,
    }
}

// The first token of a statement without a label.
pub fn core_place(core: &CoreNode) -> Place
    ensures { result ≡ Uses.core_place (view_core core.now) }
{
    match core {
        CoreNode::Do { do_, .. } => *do_,
        CoreNode::Handle { name, .. } => name.place,
        CoreNode::Sequence {
            sequence,
            left_brace,
            ..
        } => match sequence {
            None => *left_brace,
            Some(word) => *word,
        },
        CoreNode::Together { place, .. } => *place,
        CoreNode::Select { select, .. } => *select,
        CoreNode::Repeat { repeat, .. } => *repeat,
        CoreNode::If { if_, .. } => *if_,
        CoreNode::IfElse { if_, .. } => *if_,
        CoreNode::Match { match_, .. } => *match_,
        CoreNode::Bind(bind) => bind.bind,
    }
}

// Shows a traversal as a statement.
pub fn show_performed<V: Visitor>(
    visitor: &mut V,
    at: &Environment,
    place: Place,
    core: &CoreNode,
) -> Result<(), NoMemory>
    ensures { OnOk result (visitor.new ≡ fold V.step visitor.old (performed at.now place (view_core core.now))) }
{
    match core {
        CoreNode::Do { name, .. } => visitor.performs(at, place, Traversal::ByType(*name)),
        CoreNode::Handle { name, .. } => visitor.performs(at, place, by_handle(at, *name)),
        CoreNode::Sequence { .. } => Ok(()),
        CoreNode::Together { .. } => Ok(()),
        CoreNode::Select { .. } => Ok(()),
        CoreNode::Repeat { .. } => Ok(()),
        CoreNode::If { .. } => Ok(()),
        CoreNode::IfElse { .. } => Ok(()),
        CoreNode::Match { .. } => Ok(()),
        CoreNode::Bind(_) => Ok(()),
    }
}

// Shows the uses in the inline constraint of a traversal.
pub fn show_with<V: Visitor>(
    visitor: &mut V,
    at: &mut Environment,
    traversal: Traversal,
    with: &WithNode,
) -> Result<(), NoMemory>
    ensures uses { OnOk result (visitor.new ≡ fold V.step visitor.old (with_uses at.old traversal (view_with with.now))) }
    ensures kept { OnOk result (at.new ≡ at.old) }
{
    match with {
        WithNode::Nothing(_) => Ok(()),
        WithNode::Set { set, .. } => {
            let outer = at.traversal;
            at.traversal = Some(traversal);
            show_set(visitor, at, set)?;
            at.traversal = outer;
            Ok(())
        }
    }
}

// Shows the weight of a branch.
fn show_weight<V: Visitor>(
    visitor: &mut V,
    at: &Environment,
    weight: &WeightNode,
) -> Result<(), NoMemory>
    ensures { OnOk result (visitor.new ≡ fold V.step visitor.old (weight_uses at.now (view_weight weight.now))) }
{
    show_whole(visitor, at, Role::Weight, &weight.expr)
}

// Shows the weight of a branch, where it has one.
fn show_optional_weight<V: Visitor>(
    visitor: &mut V,
    at: &Environment,
    weight: &Option<WeightNode>,
) -> Result<(), NoMemory>
    ensures { OnOk result (visitor.new ≡ fold V.step visitor.old (option_uses (weight_uses at.now) (option_map view_weight weight.now))) }
{
    match weight {
        None => Ok(()),
        Some(weight) => show_weight(visitor, at, weight),
    }
}

// Shows what stands before the statement of a branch.
#[tactic(auto, using(crate::proofs::Folds::fold_append))]
fn show_guard<V: Visitor>(
    visitor: &mut V,
    at: &Environment,
    guard: &GuardNode,
) -> Result<(), NoMemory>
    ensures { OnOk result (visitor.new ≡ fold V.step visitor.old (guard_uses at.now (view_guard guard.now))) }
{
    match guard {
        GuardNode::Condition {
            condition,
            weight,
            ..
        } => {
            show_whole(visitor, at, Role::Condition, condition)?;
            show_optional_weight(visitor, at, weight)
        }
        GuardNode::Weight { weight, .. } => show_weight(visitor, at, weight),
    }
}

// Shows what stands before the statement of a branch, where something does.
pub fn show_optional_guard<V: Visitor>(
    visitor: &mut V,
    at: &Environment,
    guard: &Option<GuardNode>,
) -> Result<(), NoMemory>
    ensures { OnOk result (visitor.new ≡ fold V.step visitor.old (option_uses (guard_uses at.now) (option_map view_guard guard.now))) }
{
    match guard {
        None => Ok(()),
        Some(guard) => show_guard(visitor, at, guard),
    }
}

// Shows what stands before the colon of an arm.
pub fn show_arm_label<V: Visitor>(
    visitor: &mut V,
    at: &Environment,
    label: &ArmLabel,
) -> Result<(), NoMemory>
    ensures { OnOk result (visitor.new ≡ fold V.step visitor.old (arm_label_uses at.now (view_arm_label label.now))) }
{
    match label {
        ArmLabel::Ranges { ranges, .. } => show_ends(visitor, at, ranges),
        ArmLabel::Default(_) => Ok(()),
    }
}

// Shows the arms of a `match` as a whole, and what they are matched with.
pub fn show_matched<V: Visitor>(
    visitor: &mut V,
    at: &Environment,
    expr: &ExprNode,
    first: &ArmNode,
    rest: &[ArmNode],
) -> Result<(), NoMemory>
    ensures { OnOk result (visitor.new ≡ fold V.step visitor.old (Arms at.now (arm_label (view_arm first.now) ∷ map (λ a. arm_label (view_arm a)) rest.now) ∷ whole_uses at.now Condition (view_expr expr.now))) }
{
    visitor.arms(at, first, rest)?;
    show_whole(visitor, at, Role::Condition, expr)
}
