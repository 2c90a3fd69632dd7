//! The fields that blanks are of.
ghost use Rattle.std.specs.Prelude.{◌≡◌, slice_get};
ghost use Rattle.pst_model.specs.ModelView.{view_model};
ghost use Rattle.pst_blanks.specs.Blanks.{read_blank};
ghost use Rattle.pst_blanks.specs.Fields.{own_fields, output_fields, claim_fields, fields_in, number_of};

use crate::blank::Blank;
use crate::parts::{act_fields, claims_of, object_fields, pool_fields};
use pst_model::{Field, Model};
use pst_scen::Act;

// The fields of an action.
fn own_fields<'a>(model: &'a Model, acts: &[Act], act: u32) -> &'a [Field]
    ensures { result.now ≡ own_fields (view_model model.now) acts.now act }
{
    match acts.get(act as usize) {
        None => &[],
        Some(act) => act_fields(model, act.action as usize),
    }
}

// The fields of what a reference writes.
fn output_fields<'a>(model: &'a Model, acts: &[Act], act: u32, reference: u32) -> &'a [Field]
    ensures { result.now ≡ output_fields (view_model model.now) acts.now act reference }
{
    match acts.get(act as usize) {
        None => &[],
        Some(act) => match act.references.as_slice().get(reference as usize) {
            None => &[],
            Some(filled) => pool_fields(model, filled.pool as usize),
        },
    }
}

// The fields of what a claim claims.
fn claim_fields<'a>(model: &'a Model, acts: &[Act], act: u32, claim: u32) -> &'a [Field]
    ensures { result.now ≡ claim_fields (view_model model.now) acts.now act claim }
{
    match acts.get(act as usize) {
        None => &[],
        Some(act) => match claims_of(model, act.action as usize).get(claim as usize) {
            None => &[],
            Some(claim) => object_fields(model, claim.object as usize),
        },
    }
}

/// The fields that a blank is of.
pub(crate) fn fields<'a>(model: &'a Model, acts: &[Act], blank: Blank) -> &'a [Field]
    ensures { result.now ≡ fields_in (view_model model.now) acts.now (read_blank blank) }
{
    match blank {
        Blank::Instance { .. } => &[],
        Blank::OfFirst { pool, .. } => pool_fields(model, pool as usize),
        Blank::OfAct { act, .. } => own_fields(model, acts, act),
        Blank::OfOutput { act, reference, .. } => output_fields(model, acts, act, reference),
        Blank::OfClaim { act, claim, .. } => claim_fields(model, acts, act, claim),
    }
}

/// The number of the field that a blank is of.
pub(crate) fn number(blank: Blank) -> u32
    ensures { result ≡ number_of (read_blank blank) }
{
    match blank {
        Blank::Instance { .. } => 0,
        Blank::OfFirst { field, .. } => field,
        Blank::OfAct { field, .. } => field,
        Blank::OfOutput { field, .. } => field,
        Blank::OfClaim { field, .. } => field,
    }
}
