//! The values of the fields of a compound action.
ghost use Rattle.std.specs.Prelude.{◌≡◌, ◌++◌, IfOk, map, true, length};
ghost use Rattle.pst_expr.specs.Tree.{view};
ghost use Rattle.pst_domain.specs.Bounds.{AreUpright};
ghost use Rattle.pst_narrow.specs.Narrowing.{HaveVariablesBelow};
ghost use Rattle.pst_model.specs.ModelView.{view_model};
ghost use Rattle.pst_model.specs.Sound.{IsSound};
ghost use Rattle.pst_known.specs.Known.{seen};
ghost use Rattle.pst_value_search.specs.Values.{Begins};
ghost use Rattle.pst_field_values.specs.Fields.{values_at, values_in};
ghost use Rattle.pst_field_values.specs.Kept.{AreOfFields, with_values};

use crate::written::{Written, write_fields};
use pst_base::NoMemory;
use pst_domain::Bounds;
use pst_expr::Span;
use pst_known::Scene;
use pst_scen::{Fill, Node};
use pst_value_search::Valued;
use std::alloc::Global;

// Whether no span is reversed.
fn are_upright(bounds: &[Option<Span>]) -> bool
    ensures { result ≡ true → AreUpright bounds.now }
{
    for bound in bounds {
        if let Some(span) = bound {
            if span.low > span.high {
                return false;
            }
        }
    }
    true
}

// The values of a compound action's fields that are read.
fn values_in(fill: &Fill) -> &[i64]
    ensures { result.now ≡ values_in fill.now }
{
    match fill {
        Fill::Compound { fields, .. } => fields.as_slice(),
        _ => &[],
    }
}

// The same of a node.
fn values_at(nodes: &[Node], n: usize) -> &[i64]
    ensures { result.now ≡ values_at nodes.now n }
{
    match nodes.get(n) {
        None => &[],
        Some(node) => values_in(&node.fill),
    }
}

// Gives the next variables these values.
fn give_all(valued: Valued, values: &[i64]) -> Result<Valued, NoMemory>
    ensures { IfOk result (λ given. given ≡ with_values valued values.now) }
{
    let mut given = valued;
    for value in values {
        given.give(*value)?;
    }
    Ok(given)
}

// No value is given yet, under these constraints.
fn begin(alloc: Global, written: Written) -> Result<Option<Valued>, NoMemory>
    requires { HaveVariablesBelow (length written.bounds.items) (map view written.constraints.items) }
    ensures { IfOk result (λ begun. Begins written.constraints.items written.bounds.items begun) }
{
    if !are_upright(written.bounds.as_slice()) {
        return Err(NoMemory);
    }
    let Written {
        constraints,
        bounds,
    } = written;
    let bounds = Bounds::new(bounds);
    let begun = Valued::new(alloc, constraints, bounds)?;
    Ok(begun)
}

/// The values of the fields of the compound action of a node that are read, under the constraints that rest on its
/// fields: the variable of each field has the field's number. Nothing where they can't all hold.
///
/// `skip` tells which values of the next field needn't be tried. The bounds have the values that are read as points,
/// so what is excluded rests on all choices so far.
pub fn values_of_fields(
    alloc: Global,
    scene: &Scene<'_>,
    node: usize,
) -> Result<Option<Valued>, NoMemory>
    requires { IsSound (view_model scene.now.model.now) }
    ensures { IfOk result (λ found. AreOfFields (view_model scene.now.model.now) (seen scene.now) node found) }
{
    let written = write_fields(alloc, scene, node)?;
    let begun = begin(alloc, written)?;
    match begun {
        None => Ok(None),
        Some(valued) => {
            let given = give_all(valued, values_at(scene.nodes, node))?;
            Ok(Some(given))
        }
    }
}
