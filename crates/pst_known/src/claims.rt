//! What is known of claimed resources.
ghost use Rattle.std.specs.Prelude.{◌≡◌, ℕ, Some, slice_get};
ghost use Rattle.pst_model.specs.ModelView.{view_model};
ghost use Rattle.pst_model.specs.Sound.{IsSound};
ghost use Rattle.pst_legal.specs.Slots.{claim_slot, claim_values, claim_field_slot};
ghost use Rattle.pst_known.specs.Known.{known_of};

use crate::known::{Known, open, read_or};
use crate::spans::{claim_numbers, claim_span};
use pst_model::Model;
use pst_scen::{Act, Claimed};

/// The number of a claimed instance.
pub(crate) fn claim_number(model: &Model, act: &Act, claim: u32) -> Known
    requires { IsSound (view_model model.now) }
    ensures { (a : ℕ) → result ≡ known_of (claim_slot (view_model model.now) a act.now claim) }
{
    match act.claims.as_slice().get(claim as usize) {
        Some(claimed) => Known::Value(i64::from(claimed.instance)),
        None => open(claim_numbers(model, act, claim)),
    }
}

// The values of a claim that are read.
fn claim_values(claims: &[Claimed], claim: u32) -> &[i64]
    ensures { result.now ≡ claim_values (slice_get claims.now claim) }
{
    match claims.get(claim as usize) {
        None => &[],
        Some(claimed) => claimed.values.as_slice(),
    }
}

/// A field of a claimed resource.
pub(crate) fn claim_field(model: &Model, act: &Act, claim: u32, field: u32) -> Known
    ensures { (a : ℕ) → result ≡ known_of (claim_field_slot (view_model model.now) a act.now claim field) }
{
    read_or(
        claim_values(act.claims.as_slice(), claim),
        field,
        claim_span(model, act.action, claim, field),
    )
}
