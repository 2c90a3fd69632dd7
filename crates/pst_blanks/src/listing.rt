//! Which blanks there are.
ghost use Rattle.std.specs.Prelude.{◌≡◌, ◌++◌, IfOk, OnOk, flat_map, length, map};
ghost use Rattle.std.specs.List.{enumerate_from};
ghost use Rattle.pst_model.specs.ModelView.{view_model};
ghost use Rattle.pst_legal.specs.Blanks.{used_state_pools};
ghost use Rattle.pst_blanks.specs.Blanks.{field_places, claim_place, claims_from, act_claims, first_places, output_places, resource_places, act_places, listed};

use crate::blank::{Blank, Place};
use crate::parts::{
    act_fields, claims_of, is_output, narrow, object_fields, pool_fields, pool_of, reference_count,
    sum,
};
use pst_base::NoMemory;
use pst_model::{Claim, Field, Model, Serve};
use pst_scen::{Act, Filled};
use std::alloc::Global;

// Adds the blank for each of the fields.
fn add_fields(
    places: &mut Vec<Place>,
    blank: Blank,
    at: Option<u32>,
    fields: &[Field],
) -> Result<(), NoMemory>
    ensures { OnOk result (places.new.items ≡ places.old.items ++ field_places blank at fields.now) }
{
    let mut number = 0;
    for _field in fields {
        let blank = blank.with_field(narrow(number)?);
        places.push(Place { blank, at })?;
        number += 1;
    }
    Ok(())
}

// The instance of a claim, which is numbered behind so many references.
fn claim_place(
    served: &[Serve],
    act: u32,
    action: u32,
    instance: u32,
    references: usize,
    claim: usize,
) -> Result<Place, NoMemory>
    ensures { IfOk result (λ place. place ≡ claim_place served.now act action instance references claim) }
{
    let reference = sum(references, claim)?;
    let at = pool_of(served, action as usize, instance as usize, reference);
    let claim = narrow(claim)?;
    Ok(Place {
        blank: Blank::Instance { act, claim },
        at,
    })
}

// Adds the instances of claims, which are numbered behind so many references.
fn add_claims(
    places: &mut Vec<Place>,
    served: &[Serve],
    act: u32,
    action: u32,
    instance: u32,
    references: usize,
    claims: &[Claim],
) -> Result<(), NoMemory>
    ensures { OnOk result (places.new.items ≡ places.old.items ++ claims_from served.now act action instance references 0 claims.now) }
{
    let mut claim = 0;
    for _claim in claims {
        places.push(claim_place(served, act, action, instance, references, claim)?)?;
        claim += 1;
    }
    Ok(())
}

// Adds the instances of the claims of an action.
fn add_act_claims(
    places: &mut Vec<Place>,
    model: &Model,
    number: u32,
    act: &Act,
) -> Result<(), NoMemory>
    ensures { OnOk result (places.new.items ≡ places.old.items ++ act_claims (view_model model.now) (number, act.now)) }
{
    let action = act.action as usize;
    add_claims(
        places,
        model.served.as_slice(),
        number,
        act.action,
        act.instance,
        reference_count(model, action),
        claims_of(model, action),
    )
}

// Adds the instances of all claims.
fn add_all_claims(places: &mut Vec<Place>, model: &Model, acts: &[Act]) -> Result<(), NoMemory>
    ensures { OnOk result (places.new.items ≡ places.old.items ++ flat_map (act_claims (view_model model.now)) (enumerate_from 0 acts.now)) }
{
    let mut number = 0;
    for act in acts {
        add_act_claims(places, model, narrow(number)?, act)?;
        number += 1;
    }
    Ok(())
}

// Adds the fields of the first objects of pools.
fn add_firsts(places: &mut Vec<Place>, model: &Model, pools: &[u32]) -> Result<(), NoMemory>
    ensures { OnOk result (places.new.items ≡ places.old.items ++ flat_map (first_places (view_model model.now)) (enumerate_from 0 pools.now)) }
{
    let mut number = 0;
    for pool in pools {
        let blank = Blank::OfFirst {
            pool: *pool,
            field: 0,
        };
        let fields = pool_fields(model, *pool as usize);
        add_fields(places, blank, Some(narrow(number)?), fields)?;
        number += 1;
    }
    Ok(())
}

// Adds the fields of the object that a reference writes.
fn add_output(
    places: &mut Vec<Place>,
    model: &Model,
    act: u32,
    reference: u32,
    filled: &Filled,
) -> Result<(), NoMemory>
    ensures { OnOk result (places.new.items ≡ places.old.items ++ output_places (view_model model.now) act (reference, filled.now)) }
{
    if !is_output(filled.flow) {
        return Ok(());
    }
    let blank = Blank::OfOutput {
        act,
        reference,
        field: 0,
    };
    add_fields(
        places,
        blank,
        None,
        pool_fields(model, filled.pool as usize),
    )
}

// Adds the fields of the objects that references write.
fn add_outputs(
    places: &mut Vec<Place>,
    model: &Model,
    act: u32,
    references: &[Filled],
) -> Result<(), NoMemory>
    ensures { OnOk result (places.new.items ≡ places.old.items ++ flat_map (output_places (view_model model.now) act) (enumerate_from 0 references.now)) }
{
    let mut number = 0;
    for filled in references {
        add_output(places, model, act, narrow(number)?, filled)?;
        number += 1;
    }
    Ok(())
}

// Adds the fields of the resources of claims.
fn add_resources(
    places: &mut Vec<Place>,
    model: &Model,
    act: u32,
    claims: &[Claim],
) -> Result<(), NoMemory>
    ensures { OnOk result (places.new.items ≡ places.old.items ++ flat_map (resource_places (view_model model.now) act) (enumerate_from 0 claims.now)) }
{
    let mut number = 0;
    for claim in claims {
        let blank = Blank::OfClaim {
            act,
            claim: narrow(number)?,
            field: 0,
        };
        let fields = object_fields(model, claim.object as usize);
        add_fields(places, blank, None, fields)?;
        number += 1;
    }
    Ok(())
}

// Adds the fields of an action, of what it writes and of what it claims.
fn add_act(places: &mut Vec<Place>, model: &Model, number: u32, act: &Act) -> Result<(), NoMemory>
    ensures { OnOk result (places.new.items ≡ places.old.items ++ act_places (view_model model.now) (number, act.now)) }
{
    let action = act.action as usize;
    let blank = Blank::OfAct {
        act: number,
        field: 0,
    };
    add_fields(places, blank, None, act_fields(model, action))?;
    add_outputs(places, model, number, act.references.as_slice())?;
    add_resources(places, model, number, claims_of(model, action))
}

// Adds the fields of actions, of what they write and of what they claim.
fn add_acts(places: &mut Vec<Place>, model: &Model, acts: &[Act]) -> Result<(), NoMemory>
    ensures { OnOk result (places.new.items ≡ places.old.items ++ flat_map (act_places (view_model model.now)) (enumerate_from 0 acts.now)) }
{
    let mut number = 0;
    for act in acts {
        add_act(places, model, narrow(number)?, act)?;
        number += 1;
    }
    Ok(())
}

/// All blanks of actions, in order: the instances of claims, then the values of first objects, by
/// pool, and then those of actions. `pools` are the state pools that the actions use.
pub(crate) fn places(
    alloc: Global,
    model: &Model,
    acts: &[Act],
    pools: &[u32],
) -> Result<Vec<Place>, NoMemory>
    requires { pools.now ≡ used_state_pools (view_model model.now) acts.now }
    ensures { IfOk result (λ places. places.items ≡ listed (view_model model.now) acts.now) }
{
    let mut places = Vec::new(alloc);
    add_all_claims(&mut places, model, acts)?;
    add_firsts(&mut places, model, pools)?;
    add_acts(&mut places, model, acts)?;
    Ok(places)
}
