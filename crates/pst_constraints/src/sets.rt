//! Sets of constraints.
ghost use Rattle.std.specs.Prelude.{◌≡◌, ◌++◌, OnOk, map, if◌then◌else◌};
ghost use Rattle.std.specs.List.{flat_map};
ghost use Rattle.pst_ast.specs.ConstraintView.{view_constraint as view_set, view_constraint_declaration, view_constraint_item};
ghost use Rattle.pst_ast.specs.ExpressionView.{view_expr};
ghost use Rattle.pst_elab_rules.specs.Constraints.{declaration_terms, for_each, implied, item_terms, set_terms, with_turn};
ghost use Rattle.pst_expr.specs.declared.tree.UnaryOp.TheVariants as unary;
ghost use Rattle.pst_model.specs.ConstraintTree.{view_constraint};
ghost use Rattle.pst_path_readings.specs.Set.{view_setting};
ghost use Rattle.pst_terms.specs.Readings.{AtNumber, expr_term};
ghost use Rattle.pst_terms.specs.Slots.{constraint_of};
ghost use Rattle.pst_terms.specs.Terms.{Prefix};
ghost use Rattle.pst_constraints.specs.Implied.{made, view_premises};
ghost use Rattle.pst_sources.specs.Shown.{sources_of};

use crate::made::made_of;
use crate::pairs::add_pairs;
use crate::premises::{Premises, no_premises, with_premise};
use crate::turns::{pop_turn, push_turn, turns_of};
use pst_ast::{
    ConstraintContent, ConstraintDeclaration, ConstraintItem, ConstraintNode, ExprNode, Name,
};
use pst_base::NoMemory;
use pst_model::Constraint;
use pst_path_readings::{Setting, Turn};
use pst_sources::Sources;

// Adds a set of constraints under premises.
#[cycle(sets)]
#[tactic(auto)]
fn add_set(
    sources: &Sources<'_>,
    setting: &mut Setting<'_>,
    premises: &Premises,
    found: &mut Vec<Constraint>,
    set: &ConstraintNode,
) -> Result<(), NoMemory>
    ensures found { OnOk result (map view_constraint found.new.items ≡ map view_constraint found.old.items ++ map (made (view_premises premises.now)) (set_terms (sources_of sources.now) (view_setting setting.old) (view_set set.now))) }
    ensures kept { OnOk result (view_setting setting.new ≡ view_setting setting.old) }
{
    match set {
        ConstraintNode::One(item) => add_item(sources, setting, premises, found, item),
        ConstraintNode::Block { items, .. } => {
            add_items(sources, setting, premises, found, items.as_slice())
        }
    }
}

// Adds a constraint under premises.
#[cycle(sets)]
fn add_item(
    sources: &Sources<'_>,
    setting: &mut Setting<'_>,
    premises: &Premises,
    found: &mut Vec<Constraint>,
    item: &ConstraintItem,
) -> Result<(), NoMemory>
    ensures found { OnOk result (map view_constraint found.new.items ≡ map view_constraint found.old.items ++ map (made (view_premises premises.now)) (item_terms (sources_of sources.now) (view_setting setting.old) (view_constraint_item item.now))) }
    ensures kept { OnOk result (view_setting setting.new ≡ view_setting setting.old) }
{
    match item {
        ConstraintItem::Empty(_) => Ok(()),
        ConstraintItem::Expr { expr, .. } => {
            found.push(made_of(sources, setting, premises, expr)?)?;
            Ok(())
        }
        ConstraintItem::Implies { condition, set, .. } => {
            add_implied(sources, setting, premises, found, condition, false, set)
        }
        ConstraintItem::If {
            condition,
            then,
            ..
        } => add_implied(sources, setting, premises, found, condition, false, then),
        ConstraintItem::IfElse {
            condition,
            then,
            otherwise,
            ..
        } => {
            add_implied(sources, setting, premises, found, condition, false, then)?;
            add_implied(
                sources, setting, premises, found, condition, true, otherwise,
            )
        }
        ConstraintItem::Unique { first, rest, .. } => {
            add_pairs(sources, setting, premises, found, first, rest.as_slice())
        }
        ConstraintItem::Foreach {
            first,
            rest,
            index,
            set,
            ..
        } => {
            let count = turns_of(sources, setting, *first, rest.as_slice())?;
            add_turns(sources, setting, premises, found, *index, count, set)
        }
    }
}

// Adds a set under premises and a further one, or its negation.
#[cycle(sets)]
#[tactic(auto, using(crate::proofs::Premised::implied_made))]
fn add_implied(
    sources: &Sources<'_>,
    setting: &mut Setting<'_>,
    premises: &Premises,
    found: &mut Vec<Constraint>,
    condition: &ExprNode,
    negated: bool,
    set: &ConstraintNode,
) -> Result<(), NoMemory>
    ensures found { OnOk result (map view_constraint found.new.items ≡ map view_constraint found.old.items ++ map (made (view_premises premises.now)) (implied (if negated then Prefix unary.Not (expr_term (sources_of sources.now) (view_setting setting.old) (view_expr condition.now)) else expr_term (sources_of sources.now) (view_setting setting.old) (view_expr condition.now)) (set_terms (sources_of sources.now) (view_setting setting.old) (view_set set.now)))) }
    ensures kept { OnOk result (view_setting setting.new ≡ view_setting setting.old) }
{
    let inner = with_premise(sources, setting, premises, condition, negated)?;
    add_set(sources, setting, &inner, found, set)
}

// Adds the turns of a `foreach`.
#[cycle(sets)]
fn add_turns(
    sources: &Sources<'_>,
    setting: &mut Setting<'_>,
    premises: &Premises,
    found: &mut Vec<Constraint>,
    index: Name,
    count: u32,
    set: &ConstraintNode,
) -> Result<(), NoMemory>
    ensures found { OnOk result (map view_constraint found.new.items ≡ map view_constraint found.old.items ++ map (made (view_premises premises.now)) (for_each (λ i. set_terms (sources_of sources.now) (with_turn (view_setting setting.old) index (AtNumber i)) (view_set set.now)) count)) }
    ensures kept { OnOk result (view_setting setting.new ≡ view_setting setting.old) }
{
    for number in 0..count {
        push_turn(setting, index, Turn::AtNumber(number))?;
        add_set(sources, setting, premises, found, set)?;
        pop_turn(setting);
    }
    Ok(())
}

// Adds constraints one after another.
#[cycle(sets)]
fn add_items(
    sources: &Sources<'_>,
    setting: &mut Setting<'_>,
    premises: &Premises,
    found: &mut Vec<Constraint>,
    items: &[ConstraintItem],
) -> Result<(), NoMemory>
    ensures found { OnOk result (map view_constraint found.new.items ≡ map view_constraint found.old.items ++ map (made (view_premises premises.now)) (flat_map (item_terms (sources_of sources.now) (view_setting setting.old)) (map view_constraint_item items.now))) }
    ensures kept { OnOk result (view_setting setting.new ≡ view_setting setting.old) }
{
    for item in items {
        add_item(sources, setting, premises, found, item)?;
    }
    Ok(())
}

/// Adds an inline constraint.
pub fn add_inline(
    sources: &Sources<'_>,
    setting: &mut Setting<'_>,
    found: &mut Vec<Constraint>,
    set: &ConstraintNode,
) -> Result<(), NoMemory>
    ensures found { OnOk result (map view_constraint found.new.items ≡ map view_constraint found.old.items ++ map constraint_of (set_terms (sources_of sources.now) (view_setting setting.old) (view_set set.now))) }
    ensures kept { OnOk result (view_setting setting.new ≡ view_setting setting.old) }
{
    let premises = no_premises(sources.known().alloc());
    add_set(sources, setting, &premises, found, set)
}

/// Adds a declared constraint.
pub fn add_declared(
    sources: &Sources<'_>,
    setting: &mut Setting<'_>,
    found: &mut Vec<Constraint>,
    declaration: &ConstraintDeclaration,
) -> Result<(), NoMemory>
    ensures found { OnOk result (map view_constraint found.new.items ≡ map view_constraint found.old.items ++ map constraint_of (declaration_terms (sources_of sources.now) (view_setting setting.old) (view_constraint_declaration declaration.now))) }
    ensures kept { OnOk result (view_setting setting.new ≡ view_setting setting.old) }
{
    let premises = no_premises(sources.known().alloc());
    match &declaration.content {
        ConstraintContent::Named { items, .. } => {
            add_items(sources, setting, &premises, found, items.as_slice())
        }
        ConstraintContent::Set(set) => add_set(sources, setting, &premises, found, set),
    }
}
