//! The uses in outermost expressions, in types and in fields.
ghost use Rattle.std.specs.Prelude.{◌≡◌, OnOk, map};
ghost use Rattle.std.specs.List.{flat_map, fold};
ghost use Rattle.std.specs.Option.{option_map};
ghost use Rattle.pst_ast.specs.DeclarationView.{view_field, view_next_field};
ghost use Rattle.pst_ast.specs.ExpressionView.{view_expr, view_part, view_range, view_ranges};
ghost use Rattle.pst_ast.specs.SharedView.{view_domain, view_low, view_next_expr, view_plain, view_type, view_width};
ghost use Rattle.pst_ast.specs.Declarations.{next_field_part};
ghost use Rattle.pst_ast.specs.Uses.{domain_uses, end_uses, ends_uses, field_uses, low_uses, next_expr_uses, option_uses, plain_uses, size_of_part, type_uses, whole_uses, width_uses};
ghost use Rattle.pst_walk_parts.specs.Shown.{view_role};

use crate::show_expression::show_expr;
use crate::{Role, Visitor, Wanted};
use pst_ast::{
    DomainNode, Environment, ExprNode, FieldNode, LowNode, NextExpr, NextField, NextRange,
    PartNode, PlainNode, RangeNode, RangesNode, TypeNode, WidthNode,
};
use pst_base::NoMemory;

// Shows an outermost expression, and the uses in it.
#[tactic(auto, using(crate::proofs::Folds::fold_append))]
pub fn show_whole<V: Visitor>(
    visitor: &mut V,
    at: &Environment,
    role: Role,
    expr: &ExprNode,
) -> Result<(), NoMemory>
    ensures { OnOk result (visitor.new ≡ fold V.step visitor.old (whole_uses at.now (view_role role) (view_expr expr.now))) }
{
    visitor.judges(at, role, expr)?;
    show_expr(visitor, at, expr)
}

// Shows the items of a `unique` behind the first.
#[tactic(auto, using(crate::proofs::Folds::fold_append))]
pub fn show_next_exprs<V: Visitor>(
    visitor: &mut V,
    at: &Environment,
    items: &[NextExpr],
) -> Result<(), NoMemory>
    ensures { OnOk result (visitor.new ≡ fold V.step visitor.old (flat_map (next_expr_uses at.now) (map view_next_expr items.now))) }
{
    for next in items {
        show_whole(visitor, at, Role::Constrains, &next.expr)?;
    }
    Ok(())
}

// Shows the ends of a range of a type or an arm.
#[tactic(auto, using(crate::proofs::Folds::fold_append))]
fn show_range_ends<V: Visitor>(
    visitor: &mut V,
    at: &Environment,
    range: &RangeNode,
) -> Result<(), NoMemory>
    ensures { OnOk result (visitor.new ≡ fold V.step visitor.old (end_uses at.now (view_range range.now))) }
{
    match range {
        RangeNode::Single(expr) => show_whole(visitor, at, Role::RangeEnd, expr),
        RangeNode::Between { low, high, .. } => {
            show_whole(visitor, at, Role::RangeEnd, low)?;
            show_whole(visitor, at, Role::RangeEnd, high)
        }
    }
}

// Shows the ends of the ranges behind the first.
#[tactic(auto, using(crate::proofs::Folds::fold_append))]
fn show_next_ends<V: Visitor>(
    visitor: &mut V,
    at: &Environment,
    ranges: &[NextRange],
) -> Result<(), NoMemory>
    ensures { OnOk result (visitor.new ≡ fold V.step visitor.old (flat_map (λ next. end_uses at.now (view_range next.range)) ranges.now)) }
{
    for next in ranges {
        show_range_ends(visitor, at, &next.range)?;
    }
    Ok(())
}

// Shows the ends of the ranges of a type or an arm.
#[tactic(auto, using(crate::proofs::Folds::fold_append))]
pub fn show_ends<V: Visitor>(
    visitor: &mut V,
    at: &Environment,
    ranges: &RangesNode,
) -> Result<(), NoMemory>
    ensures { OnOk result (visitor.new ≡ fold V.step visitor.old (ends_uses at.now (view_ranges ranges.now))) }
{
    show_range_ends(visitor, at, &ranges.first)?;
    show_next_ends(visitor, at, ranges.rest.as_slice())
}

// Shows the number of the lowest bit.
#[tactic(auto, using(crate::proofs::Folds::fold_append))]
fn show_optional_low<V: Visitor>(
    visitor: &mut V,
    at: &Environment,
    low: &Option<LowNode>,
) -> Result<(), NoMemory>
    ensures { OnOk result (visitor.new ≡ fold V.step visitor.old (option_uses (low_uses at.now) (option_map view_low low.now))) }
{
    match low {
        None => Ok(()),
        Some(low) => show_whole(visitor, at, Role::LowestBit, &low.expr),
    }
}

// Shows the width of a plain type.
#[tactic(auto, using(crate::proofs::Folds::fold_append))]
fn show_width<V: Visitor>(
    visitor: &mut V,
    at: &Environment,
    signed: bool,
    width: &WidthNode,
) -> Result<(), NoMemory>
    ensures { OnOk result (visitor.new ≡ fold V.step visitor.old (width_uses at.now signed (view_width width.now))) }
{
    show_whole(visitor, at, Role::Width { signed }, &width.expr)?;
    show_optional_low(visitor, at, &width.low)
}

// Shows the width of a plain type, where it has one.
#[tactic(auto, using(crate::proofs::Folds::fold_append))]
fn show_optional_width<V: Visitor>(
    visitor: &mut V,
    at: &Environment,
    signed: bool,
    width: &Option<WidthNode>,
) -> Result<(), NoMemory>
    ensures { OnOk result (visitor.new ≡ fold V.step visitor.old (option_uses (width_uses at.now signed) (option_map view_width width.now))) }
{
    match width {
        None => Ok(()),
        Some(width) => show_width(visitor, at, signed, width),
    }
}

// Shows a plain type.
#[tactic(auto, using(crate::proofs::Folds::fold_append))]
pub fn show_plain<V: Visitor>(
    visitor: &mut V,
    at: &Environment,
    plain: &PlainNode,
) -> Result<(), NoMemory>
    ensures { OnOk result (visitor.new ≡ fold V.step visitor.old (plain_uses at.now (view_plain plain.now))) }
{
    match plain {
        PlainNode::Int { width, .. } => {
            visitor.has_plain(at, plain)?;
            show_optional_width(visitor, at, true, width)
        }
        PlainNode::Bit { width, .. } => {
            visitor.has_plain(at, plain)?;
            show_optional_width(visitor, at, false, width)
        }
        PlainNode::Bool(_) => Ok(()),
    }
}

// Shows the values that a type keeps, where they are said.
#[tactic(auto, using(crate::proofs::Folds::fold_append))]
fn show_optional_domain<V: Visitor>(
    visitor: &mut V,
    at: &Environment,
    domain: &Option<DomainNode>,
) -> Result<(), NoMemory>
    ensures { OnOk result (visitor.new ≡ fold V.step visitor.old (option_uses (domain_uses at.now) (option_map view_domain domain.now))) }
{
    match domain {
        None => Ok(()),
        Some(domain) => show_ends(visitor, at, &domain.ranges),
    }
}

// Shows the type of a field.
#[tactic(auto, using(crate::proofs::Folds::fold_append))]
fn show_type<V: Visitor>(
    visitor: &mut V,
    at: &Environment,
    field_type: &TypeNode,
) -> Result<(), NoMemory>
    ensures { OnOk result (visitor.new ≡ fold V.step visitor.old (type_uses at.now (view_type field_type.now))) }
{
    visitor.has_type(at, field_type)?;
    match field_type {
        TypeNode::Plain { plain, domain } => {
            show_plain(visitor, at, plain)?;
            show_optional_domain(visitor, at, domain)
        }
        TypeNode::Named { name, domain } => {
            visitor.names_type(at.component, Wanted::Enumeration, *name)?;
            show_optional_domain(visitor, at, domain)
        }
    }
}

// Shows the size of a field, where it has one.
#[tactic(auto, using(crate::proofs::Folds::fold_append))]
fn show_size<V: Visitor>(visitor: &mut V, at: &Environment, part: &PartNode) -> Result<(), NoMemory>
    ensures { OnOk result (visitor.new ≡ fold V.step visitor.old (size_of_part at.now (view_part part.now))) }
{
    match &part.index {
        None => Ok(()),
        Some(index) => show_whole(visitor, at, Role::ArraySize, &index.expr),
    }
}

// Shows the sizes of the fields behind the first.
#[tactic(auto, using(crate::proofs::Folds::fold_append))]
fn show_next_sizes<V: Visitor>(
    visitor: &mut V,
    at: &Environment,
    fields: &[NextField],
) -> Result<(), NoMemory>
    ensures { OnOk result (visitor.new ≡ fold V.step visitor.old (flat_map (size_of_part at.now) (map next_field_part (map view_next_field fields.now)))) }
{
    for next in fields {
        show_size(visitor, at, &next.part)?;
    }
    Ok(())
}

// Shows the uses in a declaration of fields.
#[tactic(auto, using(crate::proofs::Folds::fold_append))]
pub fn show_field<V: Visitor>(
    visitor: &mut V,
    at: &Environment,
    field: &FieldNode,
) -> Result<(), NoMemory>
    ensures { OnOk result (visitor.new ≡ fold V.step visitor.old (field_uses at.now (view_field field.now))) }
{
    show_type(visitor, at, &field.field_type)?;
    show_size(visitor, at, &field.first)?;
    show_next_sizes(visitor, at, field.rest.as_slice())
}
