//! From the least to the greatest value that a field, or the number of a claim, may have.
ghost use Rattle.std.specs.Prelude.{◌≡◌, ◌-◌, ◌<◌, length, pos, map, slice_get, Some};
ghost use Rattle.std.specs.Option.{option_and_then};
ghost use Rattle.pst_model.specs.ModelView.{view_model};
ghost use Rattle.pst_model.specs.Sound.{IsSound};
ghost use Rattle.pst_legal.specs.Types.{type_of, action_field, object_field, action_claim, action_reference, served_claim};
ghost use Rattle.pst_legal.specs.Blanks.{pool_field, claim_field, claim_instances, instances_in};
ghost use Rattle.pst_legal.specs.Standing.{hull, field_span, last_high};
ghost use Rattle.pst_legal.specs.Slots.{pool_span};
ghost use Rattle.pst_known.specs.Known.{numbers};

use pst_expr::{Domain, Span};
use pst_model::{Claim, Field, Model, Reference};
use pst_scen::Act;
use pst_sound_parts::pool_in;

// The high of the last span, or this one.
fn last_high(high: i64, spans: &[Span]) -> i64
    ensures { result ≡ last_high high spans.now }
{
    let mut high = high;
    for span in spans {
        high = span.high;
    }
    high
}

// From the least to the greatest value of a domain.
fn hull(domain: &Domain) -> Option<Span>
    ensures { result ≡ hull domain.now }
{
    let spans = domain.spans();
    let first = spans.first()?;
    Some(Span {
        low: first.low,
        high: last_high(first.high, spans),
    })
}

// The same of the field of that number.
fn field_in(fields: &[Field], field: u32) -> Option<Span>
    ensures { result ≡ field_span (slice_get fields.now field) }
{
    hull(&fields.get(field as usize)?.domain)
}

/// Of a field of an action type.
pub(crate) fn action_span(model: &Model, action: u32, field: u32) -> Option<Span>
    ensures { result ≡ field_span (action_field (view_model model.now) action field) }
{
    field_in(model.actions.get(action as usize)?.fields.as_slice(), field)
}

/// Of a field of an object type.
pub(crate) fn object_span(model: &Model, object: u32, field: u32) -> Option<Span>
    ensures { result ≡ field_span (object_field (view_model model.now) object field) }
{
    field_in(model.objects.get(object as usize)?.fields.as_slice(), field)
}

/// Of a field of the objects of a pool.
pub(crate) fn pool_span(model: &Model, pool: u32, field: u32) -> Option<Span>
    ensures { result ≡ pool_span (view_model model.now) pool field }
{
    object_span(model, model.pools.get(pool as usize)?.object, field)
}

/// The claim of that number of an action type.
pub(crate) fn claim_of(model: &Model, action: u32, claim: u32) -> Option<Claim>
    ensures { result ≡ action_claim (view_model model.now) action claim }
{
    model
        .actions
        .get(action as usize)?
        .claims
        .get(claim as usize)
        .copied()
}

/// The reference of that number of an action type.
pub(crate) fn reference_of(model: &Model, action: u32, reference: u32) -> Option<Reference>
    ensures { result ≡ action_reference (view_model model.now) action reference }
{
    model
        .actions
        .get(action as usize)?
        .references
        .get(reference as usize)
        .copied()
}

/// Of a field of the resource of a claim.
pub(crate) fn claim_span(model: &Model, action: u32, claim: u32, field: u32) -> Option<Span>
    ensures { result ≡ field_span (claim_field (view_model model.now) action claim field) }
{
    object_span(model, claim_of(model, action, claim)?.object, field)
}

/// Of a field of the object of a reference.
pub(crate) fn reference_span(model: &Model, action: u32, reference: u32, field: u32) -> Option<Span>
    ensures { result ≡ field_span (option_and_then (λ r. object_field (view_model model.now) r.object field) (action_reference (view_model model.now) action reference)) }
{
    object_span(model, reference_of(model, action, reference)?.object, field)
}

// The numbers of the instances of a pool of that size.
fn numbers_of(size: u32) -> Option<Span>
    ensures { result ≡ hull (numbers size) }
{
    if size == 0 {
        return None;
    }
    Some(Span {
        low: 0,
        high: i64::from(size) - 1,
    })
}

/// The numbers of the instances that a claim of an action may claim.
pub(crate) fn claim_numbers(model: &Model, act: &Act, claim: u32) -> Option<Span>
    requires { IsSound (view_model model.now) }
    ensures { result ≡ hull (claim_instances (view_model model.now) act.now claim) }
{
    let kind = model.actions.get(act.action as usize)?;
    let pool = pool_in(
        model.served.as_slice(),
        act.action as usize,
        act.instance as usize,
        kind.references.len() + claim as usize,
    )?;
    numbers_of(model.pools.get(pool as usize)?.size)
}
