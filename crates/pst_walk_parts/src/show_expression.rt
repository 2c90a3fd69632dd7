//! The uses in expressions.
ghost use Rattle.std.specs.Prelude.{◌≡◌, OnOk, drop};
ghost use Rattle.std.specs.List.{flat_map, fold};
ghost use Rattle.pst_ast.specs.ExpressionView.{view_expr, view_unary, view_primary, view_path, view_part, view_next_part, view_ranges, view_range, view_next_range};
ghost use Rattle.pst_ast.specs.Uses.{expr_uses, unary_uses, primary_uses, path_uses, part_uses, dotted_uses, ranges_uses, range_uses, comma_range_uses};

use crate::Visitor;
use pst_ast::{
    Environment, ExprNode, NextPart, NextRange, PartNode, PathNode, PrimaryNode, RangeNode,
    RangesNode, UnaryNode,
};
use pst_base::NoMemory;

// Shows the uses in an expression.
#[cycle(expression_uses)]
#[tactic(auto, using(crate::proofs::Folds::fold_append))]
pub fn show_expr<V: Visitor>(
    visitor: &mut V,
    at: &Environment,
    expr: &ExprNode,
) -> Result<(), NoMemory>
    ensures { OnOk result (visitor.new ≡ fold V.step visitor.old (expr_uses at.now (view_expr expr.now))) }
{
    match expr {
        ExprNode::Unary(unary) => show_unary(visitor, at, unary),
        ExprNode::Binary { left, right, .. } => {
            show_expr(visitor, at, left)?;
            show_expr(visitor, at, right)
        }
        ExprNode::In { left, ranges, .. } => {
            show_expr(visitor, at, left)?;
            show_ranges(visitor, at, ranges)
        }
    }
}

#[cycle(expression_uses)]
#[tactic(auto, using(crate::proofs::Folds::fold_append))]
fn show_unary<V: Visitor>(
    visitor: &mut V,
    at: &Environment,
    unary: &UnaryNode,
) -> Result<(), NoMemory>
    ensures { OnOk result (visitor.new ≡ fold V.step visitor.old (unary_uses at.now (view_unary unary.now))) }
{
    match unary {
        UnaryNode::Prefix { operand, .. } => show_unary(visitor, at, operand),
        UnaryNode::Primary(primary) => show_primary(visitor, at, primary),
    }
}

#[cycle(expression_uses)]
#[tactic(auto, using(crate::proofs::Folds::fold_append))]
fn show_primary<V: Visitor>(
    visitor: &mut V,
    at: &Environment,
    primary: &PrimaryNode,
) -> Result<(), NoMemory>
    ensures { OnOk result (visitor.new ≡ fold V.step visitor.old (primary_uses at.now (view_primary primary.now))) }
{
    match primary {
        PrimaryNode::Number(_) => Ok(()),
        PrimaryNode::True(_) => Ok(()),
        PrimaryNode::False(_) => Ok(()),
        PrimaryNode::Path(path) => show_path(visitor, at, path),
        PrimaryNode::Group { expr, .. } => show_expr(visitor, at, expr),
    }
}

#[cycle(expression_uses)]
#[tactic(auto, using(crate::proofs::Folds::fold_append))]
fn show_path<V: Visitor>(visitor: &mut V, at: &Environment, path: &PathNode) -> Result<(), NoMemory>
    ensures { OnOk result (visitor.new ≡ fold V.step visitor.old (path_uses at.now (view_path path.now))) }
{
    match path {
        PathNode::Dotted { first, rest } => {
            visitor.reads(at, first, rest.as_slice())?;
            show_part(visitor, at, first)?;
            show_next_parts(visitor, at, rest.as_slice())
        }
        PathNode::Item { first, second, .. } => visitor.takes_item(at, None, *first, *second),
        PathNode::LongItem {
            first,
            second,
            third,
            ..
        } => visitor.takes_item(at, Some(*first), *second, *third),
    }
}

#[cycle(expression_uses)]
#[tactic(auto, using(crate::proofs::Folds::fold_append))]
fn show_part<V: Visitor>(visitor: &mut V, at: &Environment, part: &PartNode) -> Result<(), NoMemory>
    ensures { OnOk result (visitor.new ≡ fold V.step visitor.old (part_uses at.now (view_part part.now))) }
{
    match &part.index {
        None => Ok(()),
        Some(index) => show_expr(visitor, at, &index.expr),
    }
}

#[cycle(expression_uses)]
#[tactic(auto, using(crate::proofs::Folds::fold_append))]
fn show_next_parts<V: Visitor>(
    visitor: &mut V,
    at: &Environment,
    parts: &[NextPart],
) -> Result<(), NoMemory>
    ensures { OnOk result (visitor.new ≡ fold V.step visitor.old (flat_map (λ next. dotted_uses at.now (view_next_part next)) parts.now)) }
{
    for next in parts {
        show_part(visitor, at, &next.part)?;
    }
    Ok(())
}

#[cycle(expression_uses)]
#[tactic(auto, using(crate::proofs::Folds::fold_append))]
pub fn show_ranges<V: Visitor>(
    visitor: &mut V,
    at: &Environment,
    ranges: &RangesNode,
) -> Result<(), NoMemory>
    ensures { OnOk result (visitor.new ≡ fold V.step visitor.old (ranges_uses at.now (view_ranges ranges.now))) }
{
    show_range(visitor, at, &ranges.first)?;
    show_next_ranges(visitor, at, ranges.rest.as_slice())
}

#[cycle(expression_uses)]
#[tactic(auto, using(crate::proofs::Folds::fold_append))]
fn show_next_ranges<V: Visitor>(
    visitor: &mut V,
    at: &Environment,
    ranges: &[NextRange],
) -> Result<(), NoMemory>
    ensures { OnOk result (visitor.new ≡ fold V.step visitor.old (flat_map (λ next. comma_range_uses at.now (view_next_range next)) ranges.now)) }
{
    for next in ranges {
        show_range(visitor, at, &next.range)?;
    }
    Ok(())
}

#[cycle(expression_uses)]
#[tactic(auto, using(crate::proofs::Folds::fold_append))]
fn show_range<V: Visitor>(
    visitor: &mut V,
    at: &Environment,
    range: &RangeNode,
) -> Result<(), NoMemory>
    ensures { OnOk result (visitor.new ≡ fold V.step visitor.old (range_uses at.now (view_range range.now))) }
{
    match range {
        RangeNode::Single(expr) => show_expr(visitor, at, expr),
        RangeNode::Between { low, high, .. } => {
            show_expr(visitor, at, low)?;
            show_expr(visitor, at, high)
        }
    }
}
