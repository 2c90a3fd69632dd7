//! The values of constant expressions.
ghost use Rattle.std.specs.Prelude.{◌≡◌, IfOk};
ghost use Rattle.pst_ast.specs.ExpressionView.{view_expr};
ghost use Rattle.pst_type_rules.specs.Constants.{value_by};
ghost use Rattle.pst_evaluate.specs.Evaluated.{value_in};
ghost use Rattle.pst_evaluate.specs.Kept.{constant_by, known_in};

use crate::evaluated::Evaluated;
use crate::expression::value_of;
use crate::items::ItemValues;
use crate::knowledge::Knowledge;
use pst_ast::{Environment, ExprNode};
use pst_base::{Names, NoMemory};
use pst_index::Index;
use pst_named_items::items_in;
use std::alloc::Global;

// A value or none.
fn as_option(evaluated: Evaluated) -> Option<i64>
    ensures { result ≡ value_in evaluated }
{
    match evaluated {
        Evaluated::Value(value) => Some(value),
        _ => None,
    }
}

// The value of an expression by those of items.
fn value_by_items(
    alloc: Global,
    index: &Index,
    names: &Names,
    values: &ItemValues,
    at: &Environment,
    expr: &ExprNode,
) -> Result<Option<i64>, NoMemory>
    ensures { IfOk result (λ r. r ≡ value_by index.now names.now (known_in values.now) at.now (view_expr expr.now)) }
{
    let known = Knowledge {
        alloc,
        index,
        names,
        places: values.places(),
        values: values.values(),
    };
    let evaluated = value_of(&known, at, expr)?;
    Ok(as_option(evaluated))
}

/// The value of an expression that names enum items alone; none where it names something else, or
/// has no value. That it is the value of a constant is a law.
pub fn constant_value(
    alloc: Global,
    index: &Index,
    names: &Names,
    values: &ItemValues,
    at: &Environment,
    expr: &ExprNode,
) -> Result<Option<i64>, NoMemory>
    ensures { IfOk result (λ r. r ≡ constant_by index.now names.now (known_in values.now) at.now (view_expr expr.now)) }
{
    let (only, _found) = items_in(alloc, index, names, values.places(), at, expr)?;
    if !only {
        return Ok(None);
    }
    value_by_items(alloc, index, names, values, at, expr)
}
