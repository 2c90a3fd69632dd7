//! Values of one action.
ghost use Rattle.std.specs.Prelude.{◌≡◌, ◌++◌, [], ◌∷◌, OnOk, OnErr};
ghost use Rattle.pst_scen.specs.declared.act.Claimed.{Claimed};
ghost use Rattle.pst_legal.specs.SupplyReading.{alter};
ghost use Rattle.pst_legal.specs.ValueReading.{filled_with_value, claimed_with_value};
ghost use Rattle.pst_blanks.specs.Blanks.{read_blank};
ghost use Rattle.pst_blanks.specs.Filling.{but_last, filled_without_value, claimed_without_value, act_filled, act_cleared};

use crate::blank::Blank;
use pst_base::{Items, NoMemory};
use pst_scen::{Act, Claimed, Filled};
use std::alloc::Global;
use std::mem;

// Adds a value.
pub(crate) fn push_value(alloc: Global, values: &mut Items<i64>, value: i64) -> Result<(), NoMemory>
    ensures ok { OnOk result (values.new ≡ values.old ++ value ∷ []) }
    ensures err { OnErr result (values.new ≡ values.old) }
{
    let mut items = mem::replace(values, Items::empty(alloc)).into_vec();
    let pushed = items.push(value);
    *values = Items::from_vec(items);
    pushed?;
    Ok(())
}

// Takes the last value away.
pub(crate) fn pop_value(alloc: Global, values: &mut Items<i64>)
    ensures { values.new ≡ but_last values.old }
{
    let mut items = mem::replace(values, Items::empty(alloc)).into_vec();
    items.pop();
    *values = Items::from_vec(items);
}

// Adds a value of the object of a reference.
fn push_at(
    alloc: Global,
    references: &mut Vec<Filled>,
    reference: usize,
    value: i64,
) -> Result<(), NoMemory>
    ensures ok { OnOk result (references.new.items ≡ alter (filled_with_value value) reference references.old.items) }
    ensures err { OnErr result (references.new.items ≡ references.old.items) }
{
    if reference >= references.len() {
        return Ok(());
    }
    push_value(alloc, &mut references[reference].values, value)
}

// Takes the last value of the object of a reference away.
fn pop_at(alloc: Global, references: &mut Vec<Filled>, reference: usize)
    ensures { references.new.items ≡ alter filled_without_value reference references.old.items }
{
    if reference >= references.len() {
        return;
    }
    pop_value(alloc, &mut references[reference].values);
}

// Adds a value of the resource of a claim.
fn push_claimed(
    alloc: Global,
    claims: &mut Vec<Claimed>,
    claim: usize,
    value: i64,
) -> Result<(), NoMemory>
    ensures ok { OnOk result (claims.new.items ≡ alter (claimed_with_value value) claim claims.old.items) }
    ensures err { OnErr result (claims.new.items ≡ claims.old.items) }
{
    if claim >= claims.len() {
        return Ok(());
    }
    push_value(alloc, &mut claims[claim].values, value)
}

// Takes the last value of the resource of a claim away.
fn pop_claimed(alloc: Global, claims: &mut Vec<Claimed>, claim: usize)
    ensures { claims.new.items ≡ alter claimed_without_value claim claims.old.items }
{
    if claim >= claims.len() {
        return;
    }
    pop_value(alloc, &mut claims[claim].values);
}

fn push_output(
    alloc: Global,
    references: &mut Items<Filled>,
    reference: u32,
    value: i64,
) -> Result<(), NoMemory>
    ensures ok { OnOk result (references.new ≡ alter (filled_with_value value) reference references.old) }
    ensures err { OnErr result (references.new ≡ references.old) }
{
    let mut items = mem::replace(references, Items::empty(alloc)).into_vec();
    let pushed = push_at(alloc, &mut items, reference as usize, value);
    *references = Items::from_vec(items);
    pushed
}

fn pop_output(alloc: Global, references: &mut Items<Filled>, reference: u32)
    ensures { references.new ≡ alter filled_without_value reference references.old }
{
    let mut items = mem::replace(references, Items::empty(alloc)).into_vec();
    pop_at(alloc, &mut items, reference as usize);
    *references = Items::from_vec(items);
}

fn push_resource(
    alloc: Global,
    claims: &mut Items<Claimed>,
    claim: u32,
    value: i64,
) -> Result<(), NoMemory>
    ensures ok { OnOk result (claims.new ≡ alter (claimed_with_value value) claim claims.old) }
    ensures err { OnErr result (claims.new ≡ claims.old) }
{
    let mut items = mem::replace(claims, Items::empty(alloc)).into_vec();
    let pushed = push_claimed(alloc, &mut items, claim as usize, value);
    *claims = Items::from_vec(items);
    pushed
}

fn pop_resource(alloc: Global, claims: &mut Items<Claimed>, claim: u32)
    ensures { claims.new ≡ alter claimed_without_value claim claims.old }
{
    let mut items = mem::replace(claims, Items::empty(alloc)).into_vec();
    pop_claimed(alloc, &mut items, claim as usize);
    *claims = Items::from_vec(items);
}

/// Adds a claim.
pub(crate) fn push_claim(
    alloc: Global,
    claims: &mut Items<Claimed>,
    claimed: Claimed,
) -> Result<(), NoMemory>
    ensures ok { OnOk result (claims.new ≡ claims.old ++ claimed ∷ []) }
    ensures err { OnErr result (claims.new ≡ claims.old) }
{
    let mut items = mem::replace(claims, Items::empty(alloc)).into_vec();
    let pushed = items.push(claimed);
    *claims = Items::from_vec(items);
    pushed?;
    Ok(())
}

// Takes the last claim away.
fn pop_claim(alloc: Global, claims: &mut Items<Claimed>)
    ensures { claims.new ≡ but_last claims.old }
{
    let mut items = mem::replace(claims, Items::empty(alloc)).into_vec();
    items.pop();
    *claims = Items::from_vec(items);
}

/// Adds the value of a blank of an action.
pub(crate) fn fill_act(
    alloc: Global,
    act: &mut Act,
    blank: Blank,
    value: i64,
) -> Result<(), NoMemory>
    ensures ok { OnOk result (act.new ≡ act_filled (read_blank blank) value act.old) }
    ensures err { OnErr result (act.new ≡ act.old) }
{
    match blank {
        Blank::OfAct { .. } => push_value(alloc, &mut act.fields, value),
        Blank::OfOutput { reference, .. } => {
            push_output(alloc, &mut act.references, reference, value)
        }
        Blank::OfClaim { claim, .. } => push_resource(alloc, &mut act.claims, claim, value),
        _ => Ok(()),
    }
}

/// Takes away what a blank of an action has.
pub(crate) fn clear_act(alloc: Global, act: &mut Act, blank: Blank)
    ensures { act.new ≡ act_cleared (read_blank blank) act.old }
{
    match blank {
        Blank::Instance { .. } => pop_claim(alloc, &mut act.claims),
        Blank::OfFirst { .. } => {}
        Blank::OfAct { .. } => pop_value(alloc, &mut act.fields),
        Blank::OfOutput { reference, .. } => pop_output(alloc, &mut act.references, reference),
        Blank::OfClaim { claim, .. } => pop_resource(alloc, &mut act.claims, claim),
    }
}
