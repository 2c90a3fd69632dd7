//! An `in` in the left part of another `in`.
ghost use Rattle.std.specs.Prelude.{◌≡◌, ◌∷◌, [], if◌then◌else◌};
ghost use Rattle.std.specs.List.{flat_map};
ghost use Rattle.pst_ast.specs.ExpressionView.{view_expr, view_unary, view_primary, view_path, view_part, view_next_part, view_ranges, view_range, view_next_range};
ghost use Rattle.pst_type_rules.specs.Places;
ghost use Rattle.pst_name_rules.specs.Leasts.{least_at};
ghost use Rattle.pst_use_rules.specs.Found.{inner_in};

use pst_ast::{
    ExprNode, Finding, NextPart, NextRange, PartNode, PathNode, PrimaryNode, RangeNode, RangesNode,
    UnaryNode,
};
use pst_base::Place;
use pst_name_rules::earlier;

// The finding of an `in`, and one before it.
fn with_inner(before: Option<Finding>, within: bool, place: Place) -> Option<Finding>
    ensures { result ≡ least_at inner_in (if within then place ∷ [] else []) before }
{
    if within {
        earlier(before, Some(Finding { place, rule: 10 }))
    } else {
        before
    }
}

/// The least finding of those before and of the `in`s in an expression that stand in the left part
/// of another, or of all, where the whole stands in one.
#[cycle(inner_ins)]
#[tactic(auto, using(crate::proofs::LeastOf::least_of_more))]
pub fn inner_of_expr(before: Option<Finding>, within: bool, expr: &ExprNode) -> Option<Finding>
    ensures { result ≡ least_at inner_in (Places.ins within (view_expr expr.now)) before }
{
    match expr {
        ExprNode::Unary(unary) => inner_of_unary(before, within, unary),
        ExprNode::Binary { left, right, .. } => {
            let found = inner_of_expr(before, within, left);
            inner_of_expr(found, within, right)
        }
        ExprNode::In {
            left,
            in_,
            ranges,
            ..
        } => {
            let own = with_inner(before, within, *in_);
            let found = inner_of_expr(own, true, left);
            inner_of_ranges(found, within, ranges)
        }
    }
}

#[cycle(inner_ins)]
#[tactic(auto, using(crate::proofs::LeastOf::least_of_more))]
fn inner_of_unary(before: Option<Finding>, within: bool, unary: &UnaryNode) -> Option<Finding>
    ensures { result ≡ least_at inner_in (Places.unary_ins within (view_unary unary.now)) before }
{
    match unary {
        UnaryNode::Prefix { operand, .. } => inner_of_unary(before, within, operand),
        UnaryNode::Primary(primary) => inner_of_primary(before, within, primary),
    }
}

#[cycle(inner_ins)]
#[tactic(auto, using(crate::proofs::LeastOf::least_of_more))]
fn inner_of_primary(before: Option<Finding>, within: bool, primary: &PrimaryNode) -> Option<Finding>
    ensures { result ≡ least_at inner_in (Places.primary_ins within (view_primary primary.now)) before }
{
    match primary {
        PrimaryNode::Number(_) => before,
        PrimaryNode::True(_) => before,
        PrimaryNode::False(_) => before,
        PrimaryNode::Path(path) => inner_of_path(before, within, path),
        PrimaryNode::Group { expr, .. } => inner_of_expr(before, within, expr),
    }
}

#[cycle(inner_ins)]
#[tactic(auto, using(crate::proofs::LeastOf::least_of_more))]
fn inner_of_path(before: Option<Finding>, within: bool, path: &PathNode) -> Option<Finding>
    ensures { result ≡ least_at inner_in (Places.path_ins within (view_path path.now)) before }
{
    match path {
        PathNode::Dotted { first, rest } => {
            let found = inner_of_part(before, within, first);
            inner_of_parts(found, within, rest.as_slice())
        }
        PathNode::Item { .. } => before,
        PathNode::LongItem { .. } => before,
    }
}

#[cycle(inner_ins)]
#[tactic(auto, using(crate::proofs::LeastOf::least_of_more))]
fn inner_of_part(before: Option<Finding>, within: bool, part: &PartNode) -> Option<Finding>
    ensures { result ≡ least_at inner_in (Places.part_ins within (view_part part.now)) before }
{
    match &part.index {
        Some(index) => inner_of_expr(before, within, &index.expr),
        None => before,
    }
}

#[cycle(inner_ins)]
#[tactic(auto, using(crate::proofs::LeastOf::least_of_more))]
fn inner_of_parts(before: Option<Finding>, within: bool, parts: &[NextPart]) -> Option<Finding>
    ensures { result ≡ least_at inner_in (flat_map (λ next. Places.dotted_ins within (view_next_part next)) parts.now) before }
{
    let mut found = before;
    for next in parts {
        found = inner_of_part(found, within, &next.part);
    }
    found
}

#[cycle(inner_ins)]
#[tactic(auto, using(crate::proofs::LeastOf::least_of_more))]
fn inner_of_ranges(before: Option<Finding>, within: bool, ranges: &RangesNode) -> Option<Finding>
    ensures { result ≡ least_at inner_in (Places.ranges_ins within (view_ranges ranges.now)) before }
{
    let found = inner_of_range(before, within, &ranges.first);
    inner_of_next_ranges(found, within, ranges.rest.as_slice())
}

#[cycle(inner_ins)]
#[tactic(auto, using(crate::proofs::LeastOf::least_of_more))]
fn inner_of_next_ranges(
    before: Option<Finding>,
    within: bool,
    ranges: &[NextRange],
) -> Option<Finding>
    ensures { result ≡ least_at inner_in (flat_map (λ next. Places.comma_range_ins within (view_next_range next)) ranges.now) before }
{
    let mut found = before;
    for next in ranges {
        found = inner_of_range(found, within, &next.range);
    }
    found
}

#[cycle(inner_ins)]
#[tactic(auto, using(crate::proofs::LeastOf::least_of_more))]
fn inner_of_range(before: Option<Finding>, within: bool, range: &RangeNode) -> Option<Finding>
    ensures { result ≡ least_at inner_in (Places.range_ins within (view_range range.now)) before }
{
    match range {
        RangeNode::Single(expr) => inner_of_expr(before, within, expr),
        RangeNode::Between { low, high, .. } => {
            let found = inner_of_expr(before, within, low);
            inner_of_expr(found, within, high)
        }
    }
}
