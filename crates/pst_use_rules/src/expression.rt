//! What outermost expressions break.
ghost use Rattle.std.specs.Prelude.{◌≡◌, IfOk, None, is_some};
ghost use Rattle.pst_ast.specs.ExpressionView.{view_expr, view_path, view_primary, view_unary};
ghost use Rattle.pst_ast.specs.Lookups.{type_named};
ghost use Rattle.pst_ast.specs.Sorts;
ghost use Rattle.pst_ast.specs.Uses.{JoinCount};
ghost use Rattle.pst_type_rules.specs.Limits;
ghost use Rattle.pst_type_rules.specs.Places;
ghost use Rattle.pst_type_rules.specs.TypeRules;
ghost use Rattle.pst_walk_parts.specs.Shown.{view_role};
ghost use Rattle.pst_use_rules.specs.Found;

use crate::condition::condition_least;
use crate::facts::Facts;
use crate::inner::inner_of_expr;
use pst_ast::{
    Environment, ExprNode, Finding, ObjectWord, PathNode, PrimaryNode, Sort, TypeName, UnaryNode,
};
use pst_base::{NoMemory, Place};
use pst_expr::Span;
use pst_index::Index;
use pst_name_rules::{earlier, unless};
use pst_walk_parts::Role;

// The place of the first token of an expression without operators between parts.
fn unary_place(unary: &UnaryNode) -> Place
    ensures { result ≡ Places.unary_place (view_unary unary.now) }
{
    match unary {
        UnaryNode::Prefix { place, .. } => *place,
        UnaryNode::Primary(primary) => primary_place(primary),
    }
}

// The place of the first token of a part between operators.
fn primary_place(primary: &PrimaryNode) -> Place
    ensures { result ≡ Places.primary_place (view_primary primary.now) }
{
    match primary {
        PrimaryNode::Number(number) => number.place,
        PrimaryNode::True(place) => *place,
        PrimaryNode::False(place) => *place,
        PrimaryNode::Path(path) => path_place(path),
        PrimaryNode::Group {
            left_parenthesis,
            ..
        } => *left_parenthesis,
    }
}

// The place of the first token of a path.
fn path_place(path: &PathNode) -> Place
    ensures { result ≡ Places.path_place (view_path path.now) }
{
    match path {
        PathNode::Dotted { first, .. } => first.name.place,
        PathNode::Item { first, .. } => first.place,
        PathNode::LongItem { first, .. } => first.place,
    }
}

/// The place of the first token of an expression.
pub fn expr_place(expr: &ExprNode) -> Place
    ensures { result ≡ Places.expr_place (view_expr expr.now) }
{
    match expr {
        ExprNode::Unary(unary) => unary_place(unary),
        ExprNode::Binary { left, .. } => expr_place(left),
        ExprNode::In { left, .. } => expr_place(left),
    }
}

// Whether an expression for that must be constant.
fn is_constant(role: Role) -> bool
    ensures { result ≡ TypeRules.is_constant (view_role role) }
{
    !matches!(role, Role::Condition | Role::Constrains | Role::InBody)
}

// What the value of a constant for that must be in.
fn limits_of(role: Role) -> Option<Span>
    ensures { result ≡ Limits.limits_of (view_role role) }
{
    match role {
        Role::EnumValue => Some(Span {
            low: 0,
            high: 2_147_483_647,
        }),
        Role::PoolSize { .. } => Some(Span { low: 1, high: 1024 }),
        Role::ArraySize => Some(Span { low: 1, high: 64 }),
        Role::Weight => Some(Span { low: 1, high: 1000 }),
        _ => None,
    }
}

// Whether a value, where there is one, keeps limits, where there are any.
fn keeps_limits(limits: Option<Span>, value: Option<i64>) -> bool
    ensures { result ≡ Found.keeps_limits limits value }
{
    match (limits, value) {
        (Some(limits), Some(value)) => limits.low <= value && value <= limits.high,
        _ => true,
    }
}

// Whether a size may stand where it stands.
fn may_have_size(index: &Index, at: &Environment, role: Role) -> bool
    ensures { result ≡ Found.may_have_size index.now at.now (view_role role) }
{
    match role {
        Role::PoolSize { object } => match index.type_named(at.component, &object) {
            Some(found) => matches!(
                found.sort,
                Sort::Object {
                    word: ObjectWord::Resource
                }
            ),
            None => true,
        },
        _ => true,
    }
}

// Rules 11 and 12 at an expression.
fn constant_finding(role: Role, place: Place, value: Option<i64>) -> Option<Finding>
    ensures { result ≡ Found.constant_found (view_role role) place value }
{
    let missing = unless(!is_constant(role) || value.is_some(), place, 11);
    let outside = unless(keeps_limits(limits_of(role), value), place, 12);
    earlier(missing, outside)
}

// Rule 19 at an expression.
fn condition_finding(
    facts: &Facts<'_>,
    at: &Environment,
    role: Role,
    expr: &ExprNode,
) -> Result<Option<Finding>, NoMemory>
    ensures { IfOk result (λ r. r ≡ Found.condition_found facts.now.index.now facts.now.names.now at.now (view_role role) (view_expr expr.now)) }
{
    match role {
        Role::Condition => condition_least(facts, at, expr),
        _ => Ok(None),
    }
}

/// What an outermost expression breaks, given its value as a constant.
pub fn expression_finding(
    facts: &Facts<'_>,
    at: &Environment,
    role: Role,
    expr: &ExprNode,
    value: Option<i64>,
) -> Result<Option<Finding>, NoMemory>
    ensures { IfOk result (λ r. r ≡ Found.judged_found facts.now.index.now facts.now.names.now at.now (view_role role) (view_expr expr.now) value) }
{
    let place = expr_place(expr);
    let inner = inner_of_expr(None, false, expr);
    let constant = constant_finding(role, place, value);
    let size = unless(may_have_size(facts.index, at, role), place, 14);
    let condition = condition_finding(facts, at, role, expr)?;
    Ok(earlier(earlier(inner, constant), earlier(size, condition)))
}

// Rules 11 and 12 at the count of branches that a block with so many joins.
fn joined_finding(branches: u64, place: Place, value: Option<i64>) -> Option<Finding>
    ensures { result ≡ Found.constant_found (JoinCount branches) place value }
{
    let missing = unless(value.is_some(), place, 11);
    let good = match value {
        Some(value) => 0 <= value && value as u64 <= branches,
        None => true,
    };
    earlier(missing, unless(good, place, 12))
}

/// What the count of branches breaks that a block with so many joins, given its value as a
/// constant.
pub fn count_finding(
    facts: &Facts<'_>,
    at: &Environment,
    branches: u64,
    expr: &ExprNode,
    value: Option<i64>,
) -> Option<Finding>
    ensures { result ≡ Found.judged_found facts.now.index.now facts.now.names.now at.now (JoinCount branches) (view_expr expr.now) value }
{
    let inner = inner_of_expr(None, false, expr);
    let constant = joined_finding(branches, expr_place(expr), value);
    earlier(inner, constant)
}
