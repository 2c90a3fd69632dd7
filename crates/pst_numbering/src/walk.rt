//! Making expressions.
ghost use Rattle.std.specs.Prelude.{◌≡◌, OnOk, IfOk, map};
ghost use Rattle.std.specs.Option.{option_map};
ghost use Rattle.std.specs.Global.{Box};
ghost use Rattle.pst_ast.specs.ExpressionView.{view_expr, view_unary, view_primary, view_path, view_part, view_next_part, view_ranges, view_range};
ghost use Rattle.pst_expr.specs.Tree.{view};
ghost use Rattle.pst_terms.specs.Terms.{term_of, unary_term, primary_term, term_at, path_index, part_index, ranges_term, range_term};
ghost use Rattle.pst_terms.specs.Slots.{with_term, numbered};
ghost use Rattle.pst_numbering.specs.Kept.{elements_of, view_all};
ghost use Rattle.pst_numbering.specs.Made.{as_range, indexed, list_index, or_each, numbered_maybe, with_maybe};

use crate::operators::{binary_op, unary_op};
use crate::reading::{KeptSlot, PathReader, PathReading};
use crate::slots::{add_elements, add_slot};
use crate::table::SlotTable;
use pst_ast::{
    ExprNode, NextPart, NextRange, PartNode, PathNode, PrimaryNode, RangeNode, RangesNode,
    UnaryNode,
};
use pst_base::NoMemory;
use pst_expr::{BinaryOp, Expr};
use std::alloc::Global;

// An operator between two expressions.
fn binary(alloc: Global, op: BinaryOp, left: Expr, right: Expr) -> Result<Expr, NoMemory>
    ensures { IfOk result (λ e. view e ≡ Rattle.pst_expr.specs.Tree.Binary op (view left) (view right)) }
{
    let left = Box::new(alloc, left)?;
    let right = Box::new(alloc, right)?;
    Ok(Expr::Binary(op, left, right))
}

/// An expression over the numbers of its slots, which go behind those that are there.
#[cycle(making)]
#[tactic(auto, using(crate::proofs::Grown::numbered_stays))]
pub fn add_operators<R: PathReader>(
    alloc: Global,
    reader: &R,
    slots: &mut SlotTable,
    expr: &ExprNode,
) -> Result<Expr, NoMemory>
    ensures slots { OnOk result (view_all slots.new ≡ with_term (view_all slots.old) (term_of (R.reads reader.now) (view_expr expr.now))) }
    ensures expr { IfOk result (λ e. view e ≡ numbered (view_all slots.new) (term_of (R.reads reader.now) (view_expr expr.now))) }
{
    match expr {
        ExprNode::Unary(unary) => add_unary(alloc, reader, slots, unary),
        ExprNode::Binary {
            left,
            operator,
            right,
            ..
        } => {
            let left = add_operators(alloc, reader, slots, left)?;
            let right = add_operators(alloc, reader, slots, right)?;
            binary(alloc, binary_op(*operator), left, right)
        }
        ExprNode::In { left, ranges, .. } => add_ranges(alloc, reader, slots, left, ranges),
    }
}

#[cycle(making)]
fn add_unary<R: PathReader>(
    alloc: Global,
    reader: &R,
    slots: &mut SlotTable,
    unary: &UnaryNode,
) -> Result<Expr, NoMemory>
    ensures slots { OnOk result (view_all slots.new ≡ with_term (view_all slots.old) (unary_term (R.reads reader.now) (view_unary unary.now))) }
    ensures expr { IfOk result (λ e. view e ≡ numbered (view_all slots.new) (unary_term (R.reads reader.now) (view_unary unary.now))) }
{
    match unary {
        UnaryNode::Prefix {
            operator,
            operand,
            ..
        } => {
            let operand = add_unary(alloc, reader, slots, operand)?;
            Ok(Expr::Unary(unary_op(*operator), Box::new(alloc, operand)?))
        }
        UnaryNode::Primary(primary) => add_primary(alloc, reader, slots, primary),
    }
}

#[cycle(making)]
fn add_primary<R: PathReader>(
    alloc: Global,
    reader: &R,
    slots: &mut SlotTable,
    primary: &PrimaryNode,
) -> Result<Expr, NoMemory>
    ensures slots { OnOk result (view_all slots.new ≡ with_term (view_all slots.old) (primary_term (R.reads reader.now) (view_primary primary.now))) }
    ensures expr { IfOk result (λ e. view e ≡ numbered (view_all slots.new) (primary_term (R.reads reader.now) (view_primary primary.now))) }
{
    match primary {
        PrimaryNode::Number(number) => Ok(Expr::Constant(number.value)),
        PrimaryNode::True(_) => Ok(Expr::Constant(1)),
        PrimaryNode::False(_) => Ok(Expr::Constant(0)),
        PrimaryNode::Path(path) => add_path(alloc, reader, slots, path),
        PrimaryNode::Group { expr, .. } => add_operators(alloc, reader, slots, expr),
    }
}

// A path.
#[cycle(making)]
fn add_path<R: PathReader>(
    alloc: Global,
    reader: &R,
    slots: &mut SlotTable,
    path: &PathNode,
) -> Result<Expr, NoMemory>
    ensures slots { OnOk result (view_all slots.new ≡ with_term (view_all slots.old) (term_at (R.reads reader.now (view_path path.now)) (path_index (R.reads reader.now) (view_path path.now)))) }
    ensures expr { IfOk result (λ e. view e ≡ numbered (view_all slots.new) (term_at (R.reads reader.now (view_path path.now)) (path_index (R.reads reader.now) (view_path path.now)))) }
{
    match reader.read(path)? {
        PathReading::Number(number) => Ok(Expr::Constant(number)),
        PathReading::Slot(slot) => Ok(Expr::Variable(add_slot(slots, slot)?)),
        PathReading::Elements { first, count } => {
            match add_element(alloc, reader, slots, path, first, count)? {
                Some(element) => Ok(element),
                None => Ok(Expr::Constant(0)),
            }
        }
    }
}

// An element of an array, by the index of a path.
#[cycle(making)]
fn add_element<R: PathReader>(
    alloc: Global,
    reader: &R,
    slots: &mut SlotTable,
    path: &PathNode,
    first: KeptSlot,
    count: u32,
) -> Result<Option<Expr>, NoMemory>
    ensures slots { OnOk result (view_all slots.new ≡ with_maybe (view_all slots.old) (indexed (elements_of first count) (path_index (R.reads reader.now) (view_path path.now)))) }
    ensures expr { IfOk result (λ e. option_map view e ≡ numbered_maybe (view_all slots.new) (indexed (elements_of first count) (path_index (R.reads reader.now) (view_path path.now)))) }
{
    match path {
        PathNode::Dotted { first: part, rest } => {
            if let Some(element) = add_part_element(alloc, reader, slots, part, first, count)? {
                return Ok(Some(element));
            }
            add_next_element(alloc, reader, slots, rest.as_slice(), first, count)
        }
        PathNode::Item { .. } => Ok(None),
        PathNode::LongItem { .. } => Ok(None),
    }
}

#[cycle(making)]
#[tactic(auto, using(crate::proofs::Grown::first_stays, crate::proofs::Found::length_elements))]
fn add_part_element<R: PathReader>(
    alloc: Global,
    reader: &R,
    slots: &mut SlotTable,
    part: &PartNode,
    first: KeptSlot,
    count: u32,
) -> Result<Option<Expr>, NoMemory>
    ensures slots { OnOk result (view_all slots.new ≡ with_maybe (view_all slots.old) (indexed (elements_of first count) (part_index (R.reads reader.now) (view_part part.now)))) }
    ensures expr { IfOk result (λ e. option_map view e ≡ numbered_maybe (view_all slots.new) (indexed (elements_of first count) (part_index (R.reads reader.now) (view_part part.now)))) }
{
    match &part.index {
        None => Ok(None),
        Some(index) => {
            let number = add_elements(slots, first, count)?;
            let index = add_operators(alloc, reader, slots, &index.expr)?;
            Ok(Some(Expr::Element(number, count, Box::new(alloc, index)?)))
        }
    }
}

#[cycle(making)]
fn add_next_element<R: PathReader>(
    alloc: Global,
    reader: &R,
    slots: &mut SlotTable,
    parts: &[NextPart],
    first: KeptSlot,
    count: u32,
) -> Result<Option<Expr>, NoMemory>
    ensures slots { OnOk result (view_all slots.new ≡ with_maybe (view_all slots.old) (indexed (elements_of first count) (list_index (R.reads reader.now) (map view_next_part parts.now)))) }
    ensures expr { IfOk result (λ e. option_map view e ≡ numbered_maybe (view_all slots.new) (indexed (elements_of first count) (list_index (R.reads reader.now) (map view_next_part parts.now)))) }
{
    for next in parts {
        if let Some(element) = add_part_element(alloc, reader, slots, &next.part, first, count)? {
            return Ok(Some(element));
        }
    }
    Ok(None)
}

// Whether what stands before an `in` is in one of the ranges.
#[cycle(making)]
fn add_ranges<R: PathReader>(
    alloc: Global,
    reader: &R,
    slots: &mut SlotTable,
    left: &ExprNode,
    ranges: &RangesNode,
) -> Result<Expr, NoMemory>
    ensures slots { OnOk result (view_all slots.new ≡ with_term (view_all slots.old) (ranges_term (R.reads reader.now) (term_of (R.reads reader.now) (view_expr left.now)) (view_ranges ranges.now))) }
    ensures expr { IfOk result (λ e. view e ≡ numbered (view_all slots.new) (ranges_term (R.reads reader.now) (term_of (R.reads reader.now) (view_expr left.now)) (view_ranges ranges.now))) }
{
    let mut found = add_range(alloc, reader, slots, left, &ranges.first)?;
    let rest = ranges.rest.as_slice();
    for next in rest {
        let more = add_range(alloc, reader, slots, left, &next.range)?;
        found = binary(alloc, BinaryOp::Or, found, more)?;
    }
    Ok(found)
}

// Whether what stands before an `in` is in a range.
#[cycle(making)]
#[tactic(auto, using(crate::proofs::Grown::numbered_stays))]
fn add_range<R: PathReader>(
    alloc: Global,
    reader: &R,
    slots: &mut SlotTable,
    left: &ExprNode,
    range: &RangeNode,
) -> Result<Expr, NoMemory>
    ensures slots { OnOk result (view_all slots.new ≡ with_term (view_all slots.old) (range_term (R.reads reader.now) (term_of (R.reads reader.now) (view_expr left.now)) (view_range range.now))) }
    ensures expr { IfOk result (λ e. view e ≡ numbered (view_all slots.new) (range_term (R.reads reader.now) (term_of (R.reads reader.now) (view_expr left.now)) (view_range range.now))) }
{
    match range {
        RangeNode::Single(expr) => add_comparison(
            alloc,
            reader,
            slots,
            left,
            BinaryOp::Equal,
            expr,
        ),
        RangeNode::Between { low, high, .. } => {
            let above = add_comparison(alloc, reader, slots, left, BinaryOp::GreaterOrEqual, low)?;
            let below = add_comparison(alloc, reader, slots, left, BinaryOp::LessOrEqual, high)?;
            binary(alloc, BinaryOp::And, above, below)
        }
    }
}

// An operator between two expressions of the sources.
#[cycle(making)]
#[tactic(auto, using(crate::proofs::Grown::numbered_stays))]
fn add_comparison<R: PathReader>(
    alloc: Global,
    reader: &R,
    slots: &mut SlotTable,
    left: &ExprNode,
    op: BinaryOp,
    right: &ExprNode,
) -> Result<Expr, NoMemory>
    ensures slots { OnOk result (view_all slots.new ≡ with_term (view_all slots.old) (Rattle.pst_terms.specs.Terms.Infix op (term_of (R.reads reader.now) (view_expr left.now)) (term_of (R.reads reader.now) (view_expr right.now)))) }
    ensures expr { IfOk result (λ e. view e ≡ numbered (view_all slots.new) (Rattle.pst_terms.specs.Terms.Infix op (term_of (R.reads reader.now) (view_expr left.now)) (term_of (R.reads reader.now) (view_expr right.now)))) }
{
    let left = add_operators(alloc, reader, slots, left)?;
    let right = add_operators(alloc, reader, slots, right)?;
    binary(alloc, op, left, right)
}
