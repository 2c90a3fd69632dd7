//! How many options a blank has, and which value each is.
ghost use Rattle.std.specs.Prelude.{◌≡◌, ◌<◌, pos, get_or, slice_get, IfSome};
ghost use Rattle.std.specs.Option.{option_and_then};
ghost use Rattle.pst_expr.specs.Spans.{values, size_of};
ghost use Rattle.pst_model.specs.ModelView.{view_model};
ghost use Rattle.pst_legal.specs.Blanks.{domain_in, domain_of, instances_in, options, option_value};
ghost use Rattle.pst_blanks.specs.Blanks.{read_blank, blank_of, blank_value, IsDomainOf};
ghost use Rattle.pst_blanks.specs.Placed.{IsPlaced, IsValue};

use crate::blank::{Blank, Place};
use crate::lookup::{fields, number};
use pst_expr::Domain;
use pst_model::{Field, Model};
use pst_scen::{Act, Scenario};

// How many values the field of that number may have.
fn size_at(fields: &[Field], number: u32) -> u64
    ensures { result ≡ size_of (domain_in (slice_get fields.now number)) }
{
    match fields.get(number as usize) {
        None => 0,
        Some(field) => field.domain.size(),
    }
}

// The value of that number, in ascending order, that the field of that number may have.
fn value_at(fields: &[Field], number: u32, option: u64) -> i64
    requires { option < size_of (domain_in (slice_get fields.now number)) }
    ensures { result ≡ get_or (values (domain_in (slice_get fields.now number))) option (pos 0) }
{
    match fields.get(number as usize) {
        None => unreachable!(),
        Some(field) => field.domain.at(option),
    }
}

// How many instances a pool has, and none where there is no pool.
fn instance_count(model: &Model, pool: Option<u32>) -> u64
    ensures { result ≡ size_of (instances_in (option_and_then (λ p. slice_get (view_model model.now).pools p) pool)) }
{
    let Some(pool) = pool else {
        return 0;
    };
    match model.pools.get(pool as usize) {
        None => 0,
        Some(pool) => u64::from(pool.size),
    }
}

// How many values a blank for one may have.
fn value_count(model: &Model, acts: &[Act], blank: Blank) -> u64
    requires { IsValue (read_blank blank) }
    ensures { result ≡ options (view_model model.now) acts.now (read_blank blank) }
{
    size_at(fields(model, acts, blank), number(blank))
}

/// How many options a blank of a scenario has.
pub fn options(model: &Model, scenario: &Scenario, place: &Place) -> u64
    requires { IsPlaced (view_model model.now) scenario.now place.now }
    ensures { result ≡ options (view_model model.now) scenario.now.actions (blank_of place.now) }
{
    let acts = scenario.actions.as_slice();
    let blank = place.blank;
    match blank {
        Blank::Instance { .. } => instance_count(model, place.at),
        Blank::OfFirst { .. } => value_count(model, acts, blank),
        Blank::OfAct { .. } => value_count(model, acts, blank),
        Blank::OfOutput { .. } => value_count(model, acts, blank),
        Blank::OfClaim { .. } => value_count(model, acts, blank),
    }
}

/// The value that is the option of that number of a blank for one.
pub(crate) fn value(model: &Model, acts: &[Act], blank: Blank, option: u64) -> i64
    requires value { IsValue (read_blank blank) }
    requires option { option < options (view_model model.now) acts.now (read_blank blank) }
    ensures { result ≡ option_value (view_model model.now) acts.now (read_blank blank) option }
{
    value_at(fields(model, acts, blank), number(blank), option)
}

// The number of an instance, as a value.
fn instance_value(option: u64) -> Option<i64>
    ensures { IfSome result (λ v. v ≡ pos option) }
{
    match i64::try_from(option) {
        Ok(value) => Some(value),
        Err(_) => None,
    }
}

/// The value that is the option of that number of a blank, and nothing where the number of an instance is no
/// value.
pub fn value_of(model: &Model, scenario: &Scenario, place: &Place, option: u64) -> Option<i64>
    requires { option < options (view_model model.now) scenario.now.actions (blank_of place.now) }
    ensures { IfSome result (λ v. v ≡ blank_value (view_model model.now) scenario.now.actions (blank_of place.now) option) }
{
    let acts = scenario.actions.as_slice();
    let blank = place.blank;
    match blank {
        Blank::Instance { .. } => instance_value(option),
        Blank::OfFirst { .. } => Some(value(model, acts, blank, option)),
        Blank::OfAct { .. } => Some(value(model, acts, blank, option)),
        Blank::OfOutput { .. } => Some(value(model, acts, blank, option)),
        Blank::OfClaim { .. } => Some(value(model, acts, blank, option)),
    }
}

// The values that the field of that number may have.
fn domain_at(fields: &[Field], number: u32) -> Option<&Domain>
    ensures { IfSome result (λ domain. domain.now ≡ domain_in (slice_get fields.now number)) }
{
    match fields.get(number as usize) {
        None => None,
        Some(field) => Some(&field.domain),
    }
}

// The values that a blank for one may have.
fn value_domain<'a>(model: &'a Model, acts: &[Act], blank: Blank) -> Option<&'a Domain>
    requires { IsValue (read_blank blank) }
    ensures { IfSome result (λ domain. IsDomainOf (view_model model.now) acts.now (read_blank blank) domain.now) }
{
    domain_at(fields(model, acts, blank), number(blank))
}

/// The values that a blank for one may have, in ascending order, and nothing for the instance of a claim.
pub fn domain<'a>(model: &'a Model, scenario: &Scenario, place: &Place) -> Option<&'a Domain>
    ensures { IfSome result (λ domain. IsDomainOf (view_model model.now) scenario.now.actions (blank_of place.now) domain.now) }
{
    let acts = scenario.actions.as_slice();
    let blank = place.blank;
    match blank {
        Blank::Instance { .. } => None,
        Blank::OfFirst { .. } => value_domain(model, acts, blank),
        Blank::OfAct { .. } => value_domain(model, acts, blank),
        Blank::OfOutput { .. } => value_domain(model, acts, blank),
        Blank::OfClaim { .. } => value_domain(model, acts, blank),
    }
}
