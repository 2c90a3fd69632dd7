//! The tokens of expressions.
ghost use Rattle.std.specs.Prelude.{◌≡◌, ◌++◌, OnOk, drop};
ghost use Rattle.std.specs.List.{flat_map};
ghost use Rattle.pst_ast.specs.ExpressionView.{view_expr, view_unary, view_primary, view_path, view_part, view_next_part, view_ranges, view_range, view_next_range};
ghost use Rattle.pst_ast.specs.ExpressionSpelling.{spell_expr, spell_unary, spell_primary, spell_path, spell_part, spell_next_part, spell_ranges, spell_range, spell_next_range};

use crate::marks::{kind_of_operator, kind_of_prefix_operator, push_mark, push_name, push_number};
use pst_ast::{
    ExprNode, NextPart, NextRange, PartNode, PathNode, PrimaryNode, RangeNode, RangesNode,
    UnaryNode,
};
use pst_base::NoMemory;
use pst_token::{Kind, Token};

// Adds the tokens of an expression.
#[cycle(spelling)]
pub fn add_expr(tokens: &mut Vec<Token>, expr: &ExprNode) -> Result<(), NoMemory>
    ensures { OnOk result (tokens.new.items ≡ tokens.old.items ++ spell_expr (view_expr expr.now)) }
{
    match expr {
        ExprNode::Unary(unary) => add_unary(tokens, unary),
        ExprNode::Binary {
            left,
            operator,
            place,
            right,
        } => {
            add_expr(tokens, left)?;
            push_mark(tokens, kind_of_operator(*operator), *place)?;
            add_expr(tokens, right)
        }
        ExprNode::In {
            left,
            in_,
            left_bracket,
            ranges,
            right_bracket,
        } => {
            add_expr(tokens, left)?;
            push_mark(tokens, Kind::In, *in_)?;
            push_mark(tokens, Kind::LeftBracket, *left_bracket)?;
            add_ranges(tokens, ranges)?;
            push_mark(tokens, Kind::RightBracket, *right_bracket)
        }
    }
}

// Adds the tokens of a part without an operator between parts.
#[cycle(spelling)]
fn add_unary(tokens: &mut Vec<Token>, unary: &UnaryNode) -> Result<(), NoMemory>
    ensures { OnOk result (tokens.new.items ≡ tokens.old.items ++ spell_unary (view_unary unary.now)) }
{
    match unary {
        UnaryNode::Prefix {
            operator,
            place,
            operand,
        } => {
            push_mark(tokens, kind_of_prefix_operator(*operator), *place)?;
            add_unary(tokens, operand)
        }
        UnaryNode::Primary(primary) => add_primary(tokens, primary),
    }
}

// Adds the tokens of a part without an operator.
#[cycle(spelling)]
fn add_primary(tokens: &mut Vec<Token>, primary: &PrimaryNode) -> Result<(), NoMemory>
    ensures { OnOk result (tokens.new.items ≡ tokens.old.items ++ spell_primary (view_primary primary.now)) }
{
    match primary {
        PrimaryNode::Number(number) => push_number(tokens, *number),
        PrimaryNode::True(place) => push_mark(tokens, Kind::True, *place),
        PrimaryNode::False(place) => push_mark(tokens, Kind::False, *place),
        PrimaryNode::Path(path) => add_path(tokens, path),
        PrimaryNode::Group {
            left_parenthesis,
            expr,
            right_parenthesis,
        } => {
            push_mark(tokens, Kind::LeftParenthesis, *left_parenthesis)?;
            add_expr(tokens, expr)?;
            push_mark(tokens, Kind::RightParenthesis, *right_parenthesis)
        }
    }
}

// Adds the tokens of a path.
#[cycle(spelling)]
fn add_path(tokens: &mut Vec<Token>, path: &PathNode) -> Result<(), NoMemory>
    ensures { OnOk result (tokens.new.items ≡ tokens.old.items ++ spell_path (view_path path.now)) }
{
    match path {
        PathNode::Dotted { first, rest } => {
            add_part(tokens, first)?;
            add_next_parts(tokens, rest.as_slice())
        }
        PathNode::Item {
            first,
            colons,
            second,
        } => {
            push_name(tokens, *first)?;
            push_mark(tokens, Kind::ColonColon, *colons)?;
            push_name(tokens, *second)
        }
        PathNode::LongItem {
            first,
            colons,
            second,
            more_colons,
            third,
        } => {
            push_name(tokens, *first)?;
            push_mark(tokens, Kind::ColonColon, *colons)?;
            push_name(tokens, *second)?;
            push_mark(tokens, Kind::ColonColon, *more_colons)?;
            push_name(tokens, *third)
        }
    }
}

// Adds the tokens of a name with its index.
#[cycle(spelling)]
pub fn add_part(tokens: &mut Vec<Token>, part: &PartNode) -> Result<(), NoMemory>
    ensures { OnOk result (tokens.new.items ≡ tokens.old.items ++ spell_part (view_part part.now)) }
{
    push_name(tokens, part.name)?;
    match &part.index {
        None => Ok(()),
        Some(index) => {
            push_mark(tokens, Kind::LeftBracket, index.left_bracket)?;
            add_expr(tokens, &index.expr)?;
            push_mark(tokens, Kind::RightBracket, index.right_bracket)
        }
    }
}

// Adds the tokens of the names behind the first.
#[cycle(spelling)]
fn add_next_parts(tokens: &mut Vec<Token>, parts: &[NextPart]) -> Result<(), NoMemory>
    ensures { OnOk result (tokens.new.items ≡ tokens.old.items ++ flat_map (λ next. spell_next_part (view_next_part next)) parts.now) }
{
    for next in parts {
        push_mark(tokens, Kind::Dot, next.dot)?;
        add_part(tokens, &next.part)?;
    }
    Ok(())
}

// Adds the tokens of ranges.
#[cycle(spelling)]
pub fn add_ranges(tokens: &mut Vec<Token>, ranges: &RangesNode) -> Result<(), NoMemory>
    ensures { OnOk result (tokens.new.items ≡ tokens.old.items ++ spell_ranges (view_ranges ranges.now)) }
{
    add_range(tokens, &ranges.first)?;
    add_next_ranges(tokens, ranges.rest.as_slice())
}

// Adds the tokens of the ranges behind the first.
#[cycle(spelling)]
fn add_next_ranges(tokens: &mut Vec<Token>, ranges: &[NextRange]) -> Result<(), NoMemory>
    ensures { OnOk result (tokens.new.items ≡ tokens.old.items ++ flat_map (λ next. spell_next_range (view_next_range next)) ranges.now) }
{
    for next in ranges {
        push_mark(tokens, Kind::Comma, next.comma)?;
        add_range(tokens, &next.range)?;
    }
    Ok(())
}

// Adds the tokens of a range.
#[cycle(spelling)]
fn add_range(tokens: &mut Vec<Token>, range: &RangeNode) -> Result<(), NoMemory>
    ensures { OnOk result (tokens.new.items ≡ tokens.old.items ++ spell_range (view_range range.now)) }
{
    match range {
        RangeNode::Single(expr) => add_expr(tokens, expr),
        RangeNode::Between { low, dots, high } => {
            add_expr(tokens, low)?;
            push_mark(tokens, Kind::DotDot, *dots)?;
            add_expr(tokens, high)
        }
    }
}
