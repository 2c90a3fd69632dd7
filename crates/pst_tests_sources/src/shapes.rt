//! How operators, branches and statements are grouped in trees.
ghost use Rattle.std.specs.Prelude.{◌<◌, length};
ghost use Rattle.pst_reading.specs.Ended.{IsEnded};
ghost use Rattle.pst_token.specs.Laws.{EndsOnce};

use crate::reading::text_tokens;
use pst_ast::{
    ActionPart, BodyNode, BodyStatement, ComponentPart, ConstraintContent, ConstraintItem,
    ConstraintNode, ExprNode, Item, Operator, SourceNode, Unit,
};
use pst_parse_body::parse_body;
use pst_parse_expr::{parse_constraint, parse_expr};
use pst_parser::parse_unit;
use pst_token::Token;
use std::alloc::{AllocError, Global};

// The operator at the root of an expression, where it has one.
fn root(tree: &ExprNode) -> Option<Operator> {
    match tree {
        ExprNode::Binary { operator, .. } => Some(*operator),
        _ => None,
    }
}

// Writes an operator, or `-`.
fn write_operator(answer: &mut String, operator: Option<Operator>) -> Result<(), AllocError> {
    match operator {
        Some(operator) => write!(answer, "{operator:?}"),
        None => answer.push('-'),
    }
}

// The operators of a tree's root and of the parts on its left and right.
fn grouped(alloc: Global, tree: &ExprNode) -> Result<String, AllocError> {
    let mut answer = String::new(alloc);
    if let ExprNode::Binary {
        left,
        operator,
        right,
        ..
    } = tree
    {
        write_operator(&mut answer, root(left))?;
        answer.push(' ')?;
        write_operator(&mut answer, Some(*operator))?;
        answer.push(' ')?;
        write_operator(&mut answer, root(right))?;
    }
    Ok(answer)
}

fn groups(alloc: Global, tokens: &[Token]) -> Result<String, AllocError>
    requires ended { IsEnded tokens.now }
    requires some { 0 < length tokens.now }
{
    match parse_expr(alloc, tokens, 0, 0) {
        Ok((expr, _after)) => grouped(alloc, &expr),
        Err(_) => String::from_str(alloc, "no expression"),
    }
}

// What a constraint is.
fn branch(item: &ConstraintItem) -> &'static str {
    match item {
        ConstraintItem::If { .. } => "if",
        ConstraintItem::IfElse { .. } => "if-else",
        _ => "-",
    }
}

// What the only constraint of a set is.
fn only(set: &ConstraintNode) -> &'static str {
    match set {
        ConstraintNode::One(item) => branch(item),
        _ => "-",
    }
}

// What holds where the condition of a constraint does.
fn inner(item: &ConstraintItem) -> &'static str {
    match item {
        ConstraintItem::If { then, .. } => only(then),
        ConstraintItem::IfElse { then, .. } => only(then),
        _ => "-",
    }
}

// What a set of one constraint is, and what holds where its condition does.
fn outer_and_inner(set: &ConstraintNode) -> (&'static str, &'static str) {
    match set {
        ConstraintNode::One(item) => (branch(item), inner(item)),
        _ => ("-", "-"),
    }
}

fn branches(alloc: Global, tokens: &[Token]) -> Result<String, AllocError>
    requires ended { IsEnded tokens.now }
    requires some { 0 < length tokens.now }
{
    match parse_constraint(alloc, tokens, 0, 0) {
        Ok((set, _after)) => {
            let (outer, inner) = outer_and_inner(&set);
            format!(in alloc; "{outer} {inner}")
        }
        Err(_) => String::from_str(alloc, "no constraint"),
    }
}

// What the first statement of a body is.
fn first_statement(body: &BodyNode) -> &'static str {
    let Some((statement, _)) = body.statements.split_first() else {
        return "none";
    };
    match statement {
        BodyStatement::Assign { source, .. } => match source.as_ref() {
            SourceNode::Call(_) => "call",
            SourceNode::Expr(_) => "expression",
        },
        BodyStatement::Repeat { index, .. } if index.is_some() => "index",
        BodyStatement::Repeat { .. } => "no index",
        _ => "other",
    }
}

fn first(alloc: Global, tokens: &[Token]) -> Result<String, AllocError>
    requires ended { IsEnded tokens.now }
    requires some { 0 < length tokens.now }
{
    match parse_body(alloc, tokens, 0, 0) {
        Ok((body, _after)) => String::from_str(alloc, first_statement(&body)),
        Err(_) => String::from_str(alloc, "no body"),
    }
}

// The first constraint of the first action of the first component.
fn first_constraint(unit: &Unit) -> Option<&ConstraintNode> {
    let (item, _) = unit.items.split_first()?;
    let Item::Component(component) = item else {
        return None;
    };
    let (part, _) = component.parts.split_first()?;
    let ComponentPart::Action(action) = part else {
        return None;
    };
    let (part, _) = action.parts.split_first()?;
    let ActionPart::Constraint(constraint) = part else {
        return None;
    };
    match &constraint.content {
        ConstraintContent::Set(set) => Some(set),
        ConstraintContent::Named { .. } => None,
    }
}

fn expr_of(item: &ConstraintItem) -> Option<&ExprNode> {
    match item {
        ConstraintItem::Expr { expr, .. } => Some(expr),
        _ => None,
    }
}

// The operator on the left of `in`, where the first constraint has `in` at its root.
fn left_of_in(unit: &Unit) -> Option<Operator> {
    let ConstraintNode::One(item) = first_constraint(unit)? else {
        return None;
    };
    let ExprNode::In { left, .. } = expr_of(item)? else {
        return None;
    };
    root(left)
}

fn left(alloc: Global, tokens: &[Token]) -> Result<String, AllocError>
    requires { EndsOnce tokens.now }
{
    let mut answer = String::new(alloc);
    match parse_unit(alloc, tokens) {
        Ok(unit) => write_operator(&mut answer, left_of_in(&unit))?,
        Err(_) => answer.push_str("no unit")?,
    }
    Ok(answer)
}

/// Answers these calls on a text:
///
/// - `groups`: the operators of the left part of an expression, of its root and of its right part.
/// - `branches`: what a constraint is, and what holds where its condition does.
/// - `first`: what the first statement of a body assigns, or whether it repeats with an index.
/// - `left`: the operator on the left of the `in` at the root of the first constraint of a unit.
pub fn answer(alloc: Global, text: &[u8], call: &str) -> Result<String, AllocError> {
    let Some(tokens) = text_tokens(alloc, text) else {
        return String::from_str(alloc, "no tokens");
    };
    let tokens = tokens.as_slice();
    match call {
        "groups" => groups(alloc, tokens),
        "branches" => branches(alloc, tokens),
        "first" => first(alloc, tokens),
        _ => left(alloc, tokens),
    }
}
