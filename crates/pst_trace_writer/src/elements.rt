//! Whether a header would print an element of an array.
ghost use Rattle.std.specs.Prelude.{◌≡◌, slice_get};
ghost use Rattle.pst_model.specs.ModelView.{view_model};
ghost use Rattle.pst_trace_texts.specs.Lines.{any_from};
ghost use Rattle.pst_trace_texts.specs.Named.{pool_fields as pool_fields_of};
ghost use Rattle.pst_trace_texts.specs.Elements.{is_some, is_element as is_element_of, has_element as has_element_of, fill_has_element, reference_has_element, claim_has_element, act_has_element, prints_element as prints_element_of};

use crate::lookups::{
    claim_fields, claim_in, fields_of, pool_at, pool_fields, reference_fields, reference_in,
};
use pst_model::{Field, Model};
use pst_scen::{Act, Claimed, Fill, Filled, First, Node, Scenario};

/// Whether the field of that number is an element.
fn is_element(fields: &[Field], at: usize) -> bool
    ensures { result ≡ is_element_of (slice_get fields.now at) }
{
    match fields.get(at) {
        Some(field) => field.element.is_some(),
        None => false,
    }
}

/// Whether one of the values is that of an element.
fn has_element(fields: &[Field], values: &[i64]) -> bool
    ensures { result ≡ has_element_of fields.now values.now }
{
    for (at, _value) in values.iter().enumerate() {
        if is_element(fields, at) {
            return true;
        }
    }
    false
}

/// Whether a first object has one.
fn first_has_element(model: &Model, first: &First) -> bool
    ensures { result ≡ has_element_of (pool_fields_of (view_model model.now) (slice_get (view_model model.now).pools first.now.pool)) first.now.values }
{
    let pool = pool_at(model, first.pool);
    has_element(pool_fields(model, pool), first.values.as_slice())
}

/// Whether one of the first objects has one.
fn firsts_have_element(model: &Model, firsts: &[First]) -> bool
    ensures { result ≡ any_from (λ number first. has_element_of (pool_fields_of (view_model model.now) (slice_get (view_model model.now).pools first.pool)) first.values) 0 firsts.now }
{
    for first in firsts {
        if first_has_element(model, first) {
            return true;
        }
    }
    false
}

/// Whether a node has one.
fn node_has_element(model: &Model, fill: &Fill) -> bool
    ensures { result ≡ fill_has_element (view_model model.now) fill.now }
{
    match fill {
        Fill::Compound { action, fields, .. } => has_element(
            fields_of(model, *action),
            fields.as_slice(),
        ),
        _ => false,
    }
}

/// Whether one of the nodes has one.
fn nodes_have_element(model: &Model, nodes: &[Node]) -> bool
    ensures { result ≡ any_from (λ number node. fill_has_element (view_model model.now) node.fill) 0 nodes.now }
{
    for node in nodes {
        if node_has_element(model, &node.fill) {
            return true;
        }
    }
    false
}

/// Whether the object of a reference of an action of that type has one.
fn reference_has(model: &Model, action: u32, number: usize, filled: &Filled) -> bool
    ensures { result ≡ reference_has_element (view_model model.now) (slice_get (view_model model.now).actions action) number filled.now }
{
    let reference = reference_in(model, action, number);
    has_element(reference_fields(model, reference), filled.values.as_slice())
}

/// Whether the object of one of the references has one.
fn references_have(model: &Model, action: u32, references: &[Filled]) -> bool
    ensures { result ≡ any_from (reference_has_element (view_model model.now) (slice_get (view_model model.now).actions action)) 0 references.now }
{
    for (number, filled) in references.iter().enumerate() {
        if reference_has(model, action, number, filled) {
            return true;
        }
    }
    false
}

/// Whether the object of a claim of an action of that type has one.
fn claim_has(model: &Model, action: u32, number: usize, claimed: &Claimed) -> bool
    ensures { result ≡ claim_has_element (view_model model.now) (slice_get (view_model model.now).actions action) number claimed.now }
{
    let claim = claim_in(model, action, number);
    has_element(claim_fields(model, claim), claimed.values.as_slice())
}

/// Whether the object of one of the claims has one.
fn claims_have(model: &Model, action: u32, claims: &[Claimed]) -> bool
    ensures { result ≡ any_from (claim_has_element (view_model model.now) (slice_get (view_model model.now).actions action)) 0 claims.now }
{
    for (number, claimed) in claims.iter().enumerate() {
        if claim_has(model, action, number, claimed) {
            return true;
        }
    }
    false
}

/// Whether an action has one.
fn act_has(model: &Model, act: &Act) -> bool
    ensures { result ≡ act_has_element (view_model model.now) act.now }
{
    has_element(fields_of(model, act.action), act.fields.as_slice())
        || references_have(model, act.action, act.references.as_slice())
        || claims_have(model, act.action, act.claims.as_slice())
}

/// Whether one of the actions has one.
fn acts_have(model: &Model, acts: &[Act]) -> bool
    ensures { result ≡ any_from (λ number act. act_has_element (view_model model.now) act) 0 acts.now }
{
    for act in acts {
        if act_has(model, act) {
            return true;
        }
    }
    false
}

/// Whether a header of the scenario would print an element.
pub(crate) fn prints_element(model: &Model, scenario: &Scenario) -> bool
    ensures { result ≡ prints_element_of (view_model model.now) scenario.now }
{
    firsts_have_element(model, scenario.firsts.as_slice())
        || nodes_have_element(model, scenario.nodes.as_slice())
        || acts_have(model, scenario.actions.as_slice())
}
