//! Filling a blank, and clearing it.
ghost use Rattle.std.specs.Prelude.{◌≡◌, ◌<◌, IfOk, OnOk, OnErr, [], slice_get};
ghost use Rattle.pst_model.specs.ModelView.{view_model};
ghost use Rattle.pst_scen.specs.declared.scenario.Scenario.{Scenario};
ghost use Rattle.pst_legal.specs.Types.{action_claim};
ghost use Rattle.pst_legal.specs.Blanks.{options, option_value};
ghost use Rattle.pst_legal.specs.SupplyReading.{alter};
ghost use Rattle.pst_legal.specs.ValueReading.{is_lock, with_claim, with_option};
ghost use Rattle.pst_blanks.specs.Blanks.{read_blank, blank_of, served_at};
ghost use Rattle.pst_blanks.specs.Placed.{IsPlaced, AreRising, IsValue, Keeps};
ghost use Rattle.pst_blanks.specs.Filling.{act_filled, act_cleared, first_more, first_less, altered_at, cleared, lock_of, claimed_in};

use crate::acts::{clear_act, fill_act, pop_value, push_claim, push_value};
use crate::blank::{Blank, Place};
use crate::counting::value;
use crate::parts::claims_of;
use pst_base::{Items, NoMemory};
use pst_model::Model;
use pst_scen::{Act, Claimed, First, Scenario};
use std::alloc::Global;
use std::mem;

// The number of an instance, where it fits 32 bits.
fn instance_of(option: u64) -> Result<u32, NoMemory>
    ensures { IfOk result (λ n. n ≡ option) }
{
    match u32::try_from(option) {
        Ok(option) => Ok(option),
        Err(_) => Err(NoMemory),
    }
}

// Whether a claim of an action type is a lock.
fn is_lock(model: &Model, action: u32, claim: u32) -> bool
    ensures { result ≡ lock_of (view_model model.now) action claim }
{
    match claims_of(model, action as usize).get(claim as usize) {
        None => false,
        Some(claim) => claim.lock,
    }
}

// The claim of an instance of a pool, 0 where there is none.
fn claimed(
    alloc: Global,
    model: &Model,
    action: u32,
    claim: u32,
    pool: Option<u32>,
    instance: u32,
) -> Claimed
    ensures { result ≡ claimed_in (view_model model.now) action claim pool instance }
{
    Claimed {
        pool: pool.unwrap_or(0),
        lock: is_lock(model, action, claim),
        instance,
        values: Items::empty(alloc),
    }
}

// Adds the claim of an action.
fn add_claim(
    alloc: Global,
    model: &Model,
    acts: &mut Vec<Act>,
    act: usize,
    claim: u32,
    pool: Option<u32>,
    option: u64,
) -> Result<(), NoMemory>
    requires { pool ≡ served_at (view_model model.now) acts.old.items act claim }
    ensures ok { OnOk result (acts.new.items ≡ alter (with_claim (view_model model.now) claim option) act acts.old.items) }
    ensures err { OnErr result (acts.new.items ≡ acts.old.items) }
{
    if act >= acts.len() {
        return Ok(());
    }
    let instance = instance_of(option)?;
    let claimed = claimed(alloc, model, acts[act].action, claim, pool, instance);
    push_claim(alloc, &mut acts[act].claims, claimed)
}

// Adds the value of a blank of an action.
fn add_value(
    alloc: Global,
    acts: &mut Vec<Act>,
    act: usize,
    blank: Blank,
    value: i64,
) -> Result<(), NoMemory>
    ensures ok { OnOk result (acts.new.items ≡ alter (act_filled (read_blank blank) value) act acts.old.items) }
    ensures err { OnErr result (acts.new.items ≡ acts.old.items) }
{
    if act >= acts.len() {
        return Ok(());
    }
    fill_act(alloc, &mut acts[act], blank, value)
}

// Takes away what a blank of an action has.
fn take_away(alloc: Global, acts: &mut Vec<Act>, act: usize, blank: Blank)
    ensures { acts.new.items ≡ alter (act_cleared (read_blank blank)) act acts.old.items }
{
    if act >= acts.len() {
        return;
    }
    clear_act(alloc, &mut acts[act], blank);
}

fn fill_claim(
    alloc: Global,
    model: &Model,
    actions: &mut Items<Act>,
    act: u32,
    claim: u32,
    pool: Option<u32>,
    option: u64,
) -> Result<(), NoMemory>
    requires { pool ≡ served_at (view_model model.now) actions.old act claim }
    ensures ok { OnOk result (actions.new ≡ alter (with_claim (view_model model.now) claim option) act actions.old) }
    ensures err { OnErr result (actions.new ≡ actions.old) }
{
    let mut acts = mem::replace(actions, Items::empty(alloc)).into_vec();
    let added = add_claim(alloc, model, &mut acts, act as usize, claim, pool, option);
    *actions = Items::from_vec(acts);
    added
}

fn fill_value(
    alloc: Global,
    model: &Model,
    actions: &mut Items<Act>,
    act: u32,
    blank: Blank,
    option: u64,
) -> Result<(), NoMemory>
    requires value { IsValue (read_blank blank) }
    requires option { option < options (view_model model.now) actions.old (read_blank blank) }
    ensures ok { OnOk result (actions.new ≡ alter (act_filled (read_blank blank) (option_value (view_model model.now) actions.old (read_blank blank) option)) act actions.old) }
    ensures err { OnErr result (actions.new ≡ actions.old) }
{
    let value = value(model, actions.as_slice(), blank, option);
    let mut acts = mem::replace(actions, Items::empty(alloc)).into_vec();
    let added = add_value(alloc, &mut acts, act as usize, blank, value);
    *actions = Items::from_vec(acts);
    added
}

fn clear_value(alloc: Global, actions: &mut Items<Act>, act: u32, blank: Blank)
    ensures { actions.new ≡ alter (act_cleared (read_blank blank)) act actions.old }
{
    let mut acts = mem::replace(actions, Items::empty(alloc)).into_vec();
    take_away(alloc, &mut acts, act as usize, blank);
    *actions = Items::from_vec(acts);
}

// Adds a value of a first object.
fn add_first(
    alloc: Global,
    firsts: &mut Vec<First>,
    first: usize,
    value: i64,
) -> Result<(), NoMemory>
    ensures ok { OnOk result (firsts.new.items ≡ alter (first_more value) first firsts.old.items) }
    ensures err { OnErr result (firsts.new.items ≡ firsts.old.items) }
{
    if first >= firsts.len() {
        return Ok(());
    }
    push_value(alloc, &mut firsts[first].values, value)
}

// Takes the last value of a first object away.
fn take_first(alloc: Global, firsts: &mut Vec<First>, first: usize)
    ensures { firsts.new.items ≡ alter first_less first firsts.old.items }
{
    if first >= firsts.len() {
        return;
    }
    pop_value(alloc, &mut firsts[first].values);
}

fn fill_first(
    alloc: Global,
    firsts: &mut Items<First>,
    first: Option<u32>,
    value: i64,
) -> Result<(), NoMemory>
    ensures ok { OnOk result (firsts.new ≡ altered_at (first_more value) first firsts.old) }
    ensures err { OnErr result (firsts.new ≡ firsts.old) }
{
    let Some(first) = first else {
        return Ok(());
    };
    let mut items = mem::replace(firsts, Items::empty(alloc)).into_vec();
    let added = add_first(alloc, &mut items, first as usize, value);
    *firsts = Items::from_vec(items);
    added
}

fn clear_first(alloc: Global, firsts: &mut Items<First>, first: Option<u32>)
    ensures { firsts.new ≡ altered_at first_less first firsts.old }
{
    let Some(first) = first else {
        return;
    };
    let mut items = mem::replace(firsts, Items::empty(alloc)).into_vec();
    take_first(alloc, &mut items, first as usize);
    *firsts = Items::from_vec(items);
}

// Puts the option of that number into a blank.
fn put(
    alloc: Global,
    model: &Model,
    scenario: &mut Scenario,
    place: &Place,
    option: u64,
) -> Result<(), NoMemory>
    requires placed { IsPlaced (view_model model.now) scenario.old place.now }
    requires rising { AreRising scenario.old }
    requires option { option < options (view_model model.now) scenario.old.actions (blank_of place.now) }
    ensures ok { OnOk result (scenario.new ≡ with_option (view_model model.now) option (blank_of place.now) scenario.old) }
    ensures err { OnErr result (scenario.new ≡ scenario.old) }
{
    let actions = &mut scenario.actions;
    let blank = place.blank;
    match blank {
        Blank::Instance { act, claim } => {
            fill_claim(alloc, model, actions, act, claim, place.at, option)
        }
        Blank::OfFirst { .. } => {
            let value = value(model, actions.as_slice(), blank, option);
            fill_first(alloc, &mut scenario.firsts, place.at, value)
        }
        Blank::OfAct { act, .. } => fill_value(alloc, model, actions, act, blank, option),
        Blank::OfOutput { act, .. } => fill_value(alloc, model, actions, act, blank, option),
        Blank::OfClaim { act, .. } => fill_value(alloc, model, actions, act, blank, option),
    }
}

// Takes what stands in a blank away, the last of its list.
fn take(alloc: Global, _model: &Model, scenario: &mut Scenario, place: &Place)
    requires placed { IsPlaced (view_model _model.now) scenario.old place.now }
    requires rising { AreRising scenario.old }
    ensures { scenario.new ≡ cleared (blank_of place.now) scenario.old }
{
    let actions = &mut scenario.actions;
    let blank = place.blank;
    match blank {
        Blank::Instance { act, .. } => clear_value(alloc, actions, act, blank),
        Blank::OfFirst { .. } => clear_first(alloc, &mut scenario.firsts, place.at),
        Blank::OfAct { act, .. } => clear_value(alloc, actions, act, blank),
        Blank::OfOutput { act, .. } => clear_value(alloc, actions, act, blank),
        Blank::OfClaim { act, .. } => clear_value(alloc, actions, act, blank),
    }
}

/// Puts the option of that number into a blank. Memory is taken where a list grows.
pub fn fill(
    alloc: Global,
    model: &Model,
    scenario: &mut Scenario,
    place: &Place,
    option: u64,
) -> Result<(), NoMemory>
    requires placed { IsPlaced (view_model model.now) scenario.old place.now }
    requires rising { AreRising scenario.old }
    requires option { option < options (view_model model.now) scenario.old.actions (blank_of place.now) }
    ensures ok { OnOk result (scenario.new ≡ with_option (view_model model.now) option (blank_of place.now) scenario.old) }
    ensures back { OnOk result (scenario.old ≡ cleared (blank_of place.now) scenario.new) }
    ensures keeps { Keeps (view_model model.now) scenario.old scenario.new }
    ensures err { OnErr result (scenario.new ≡ scenario.old) }
{
    put(alloc, model, scenario, place, option)
}

/// Takes what stands in a blank away, the last of its list.
pub fn clear(alloc: Global, model: &Model, scenario: &mut Scenario, place: &Place)
    requires placed { IsPlaced (view_model model.now) scenario.old place.now }
    requires rising { AreRising scenario.old }
    ensures cleared { scenario.new ≡ cleared (blank_of place.now) scenario.old }
    ensures keeps { Keeps (view_model model.now) scenario.old scenario.new }
{
    take(alloc, model, scenario, place);
}
