//! The values of expressions.
ghost use Rattle.std.specs.Prelude.{◌≡◌, IfOk, map};
ghost use Rattle.pst_ast.specs.ExpressionView.{view_expr, view_unary, view_primary, view_path, view_ranges, view_range};
ghost use Rattle.pst_type_rules.specs.Values.{value_under, unary_under, primary_under, in_ranges, in_one};
ghost use Rattle.pst_evaluate.specs.Evaluated.{value_in};
ghost use Rattle.pst_evaluate.specs.Known.{path_known, or_in_each};
ghost use Rattle.pst_evaluate.specs.Listed.{as_range};

use crate::evaluated::{Evaluated, evaluated_binary, evaluated_unary};
use crate::knowledge::Knowledge;
use crate::operators::{binary_op, unary_op};
use pst_ast::{
    Environment, ExprNode, NextRange, PathNode, PrimaryNode, RangeNode, RangesNode, UnaryNode,
};
use pst_base::NoMemory;
use pst_expr::BinaryOp;
use pst_named_items::item_of_path;

// The value of a path: that of the item that it names.
fn value_of_path(
    known: &Knowledge,
    at: &Environment,
    path: &PathNode,
) -> Result<Evaluated, NoMemory>
    ensures { IfOk result (λ r. value_in r ≡ path_known known.now at.now (view_path path.now)) }
{
    match item_of_path(known.alloc, known.index, known.names, at, path)? {
        Some(item) => Ok(known.value_at(item.name.place)),
        None => Ok(Evaluated::Nothing),
    }
}

/// The value of an expression.
#[cycle(evaluation)]
pub fn value_of(known: &Knowledge, at: &Environment, expr: &ExprNode) -> Result<Evaluated, NoMemory>
    ensures { IfOk result (λ r. value_in r ≡ value_under (path_known known.now at.now) (view_expr expr.now)) }
{
    match expr {
        ExprNode::Unary(unary) => value_of_unary(known, at, unary),
        ExprNode::Binary {
            left,
            operator,
            right,
            ..
        } => {
            let left = value_of(known, at, left)?;
            let right = value_of(known, at, right)?;
            Ok(evaluated_binary(binary_op(*operator), left, right))
        }
        ExprNode::In { left, ranges, .. } => {
            let value = value_of(known, at, left)?;
            is_in_ranges(known, at, value, ranges)
        }
    }
}

#[cycle(evaluation)]
fn value_of_unary(
    known: &Knowledge,
    at: &Environment,
    unary: &UnaryNode,
) -> Result<Evaluated, NoMemory>
    ensures { IfOk result (λ r. value_in r ≡ unary_under (path_known known.now at.now) (view_unary unary.now)) }
{
    match unary {
        UnaryNode::Prefix {
            operator,
            operand,
            ..
        } => {
            let value = value_of_unary(known, at, operand)?;
            Ok(evaluated_unary(unary_op(*operator), value))
        }
        UnaryNode::Primary(primary) => value_of_primary(known, at, primary),
    }
}

#[cycle(evaluation)]
fn value_of_primary(
    known: &Knowledge,
    at: &Environment,
    primary: &PrimaryNode,
) -> Result<Evaluated, NoMemory>
    ensures { IfOk result (λ r. value_in r ≡ primary_under (path_known known.now at.now) (view_primary primary.now)) }
{
    match primary {
        PrimaryNode::Number(number) => Ok(Evaluated::Value(number.value)),
        PrimaryNode::True(_) => Ok(Evaluated::Value(1)),
        PrimaryNode::False(_) => Ok(Evaluated::Value(0)),
        PrimaryNode::Path(path) => value_of_path(known, at, path),
        PrimaryNode::Group { expr, .. } => value_of(known, at, expr),
    }
}

// Whether a value is in one of the ranges.
#[cycle(evaluation)]
fn is_in_ranges(
    known: &Knowledge,
    at: &Environment,
    value: Evaluated,
    ranges: &RangesNode,
) -> Result<Evaluated, NoMemory>
    ensures { IfOk result (λ r. value_in r ≡ in_ranges (path_known known.now at.now) (value_in value) (view_ranges ranges.now)) }
{
    let first = is_in_range(known, at, value, &ranges.first)?;
    is_in_rest(known, at, value, first, ranges.rest.as_slice())
}

// Whether a value is in one of the ranges before, or in one of these.
#[cycle(evaluation)]
fn is_in_rest(
    known: &Knowledge,
    at: &Environment,
    value: Evaluated,
    before: Evaluated,
    ranges: &[NextRange],
) -> Result<Evaluated, NoMemory>
    ensures { IfOk result (λ r. value_in r ≡ or_in_each (path_known known.now at.now) (value_in value) (value_in before) (map as_range ranges.now)) }
{
    let mut found = before;
    for next in ranges {
        let inside = is_in_range(known, at, value, &next.range)?;
        found = evaluated_binary(BinaryOp::Or, found, inside);
    }
    Ok(found)
}

// Whether a value is in a range.
#[cycle(evaluation)]
fn is_in_range(
    known: &Knowledge,
    at: &Environment,
    value: Evaluated,
    range: &RangeNode,
) -> Result<Evaluated, NoMemory>
    ensures { IfOk result (λ r. value_in r ≡ in_one (path_known known.now at.now) (value_in value) (view_range range.now)) }
{
    match range {
        RangeNode::Single(expr) => {
            let same = value_of(known, at, expr)?;
            Ok(evaluated_binary(BinaryOp::Equal, value, same))
        }
        RangeNode::Between { low, high, .. } => {
            let low = value_of(known, at, low)?;
            let high = value_of(known, at, high)?;
            let above = evaluated_binary(BinaryOp::GreaterOrEqual, value, low);
            let below = evaluated_binary(BinaryOp::LessOrEqual, value, high);
            Ok(evaluated_binary(BinaryOp::And, above, below))
        }
    }
}
