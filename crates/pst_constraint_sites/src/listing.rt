//! The constraints of atomic actions, of what they write and claim, and of first objects.
ghost use Rattle.std.specs.Prelude.{◌≡◌, ◌++◌, OnOk, flat_map, map};
ghost use Rattle.std.specs.List.{enumerate_from};
ghost use Rattle.pst_model.specs.ConstraintTree.{view_constraint};
ghost use Rattle.pst_model.specs.ModelView.{view_model};
ghost use Rattle.pst_legal.specs.Types.{type_of};
ghost use Rattle.pst_slots.specs.Listed.{action_constraints};
ghost use Rattle.pst_constraint_sites.specs.Sites.{AtAct};
ghost use Rattle.pst_constraint_sites.specs.Groups.{one_group, output_groups, claim_groups, act_groups, first_object_groups};
ghost use Rattle.pst_constraint_sites.specs.Views.{view_site, view_group};

use crate::parts::{
    action_constraints, claims_of, is_output, narrow, object_constraints, pool_constraints,
};
use crate::site::{Group, Site};
use pst_base::NoMemory;
use pst_model::{Claim, Constraint, Model};
use pst_scen::{Act, Filled, First};

/// Adds those that stand at a site, where there are any.
pub(crate) fn add_group<'a>(
    groups: &mut Vec<Group<'a>>,
    site: Site,
    constraints: &'a [Constraint],
) -> Result<(), NoMemory>
    ensures { OnOk result (map view_group groups.new.items ≡ map view_group groups.old.items ++ one_group (view_site site) (map view_constraint constraints.now)) }
{
    if constraints.is_empty() {
        return Ok(());
    }
    groups.push(Group { site, constraints })?;
    Ok(())
}

// Adds those of the object that a reference writes.
fn add_output<'a>(
    groups: &mut Vec<Group<'a>>,
    model: &'a Model,
    act: u32,
    reference: u32,
    filled: &Filled,
) -> Result<(), NoMemory>
    ensures { OnOk result (map view_group groups.new.items ≡ map view_group groups.old.items ++ output_groups (view_model model.now) act (reference, filled.now)) }
{
    if !is_output(filled.flow) {
        return Ok(());
    }
    let constraints = pool_constraints(model, filled.pool);
    add_group(groups, Site::Output { act, reference }, constraints)
}

// Adds those of the objects that references write.
fn add_outputs<'a>(
    groups: &mut Vec<Group<'a>>,
    model: &'a Model,
    act: u32,
    references: &[Filled],
) -> Result<(), NoMemory>
    ensures { OnOk result (map view_group groups.new.items ≡ map view_group groups.old.items ++ flat_map (output_groups (view_model model.now) act) (enumerate_from 0 references.now)) }
{
    let mut number = 0;
    for filled in references {
        add_output(groups, model, act, narrow(number)?, filled)?;
        number += 1;
    }
    Ok(())
}

// Adds those of the resource that a claim claims.
fn add_claim<'a>(
    groups: &mut Vec<Group<'a>>,
    model: &'a Model,
    act: u32,
    number: u32,
    claim: &Claim,
) -> Result<(), NoMemory>
    ensures { OnOk result (map view_group groups.new.items ≡ map view_group groups.old.items ++ claim_groups (view_model model.now) act (number, claim.now)) }
{
    let constraints = object_constraints(model, claim.object);
    add_group(groups, Site::Claim { act, claim: number }, constraints)
}

// Adds those of the resources that claims claim.
fn add_claims<'a>(
    groups: &mut Vec<Group<'a>>,
    model: &'a Model,
    act: u32,
    claims: &[Claim],
) -> Result<(), NoMemory>
    ensures { OnOk result (map view_group groups.new.items ≡ map view_group groups.old.items ++ flat_map (claim_groups (view_model model.now) act) (enumerate_from 0 claims.now)) }
{
    let mut number = 0;
    for claim in claims {
        add_claim(groups, model, act, narrow(number)?, claim)?;
        number += 1;
    }
    Ok(())
}

// Adds those of an action.
fn add_own<'a>(
    groups: &mut Vec<Group<'a>>,
    model: &'a Model,
    number: u32,
    act: &Act,
) -> Result<(), NoMemory>
    ensures { OnOk result (map view_group groups.new.items ≡ map view_group groups.old.items ++ one_group (AtAct number) (action_constraints (type_of (view_model model.now) act.now.action))) }
{
    let constraints = action_constraints(model, act.action);
    add_group(groups, Site::Act { act: number }, constraints)
}

// Adds those of an action, of what it writes and of what it claims.
fn add_act<'a>(
    groups: &mut Vec<Group<'a>>,
    model: &'a Model,
    number: u32,
    act: &Act,
) -> Result<(), NoMemory>
    ensures { OnOk result (map view_group groups.new.items ≡ map view_group groups.old.items ++ act_groups (view_model model.now) (number, act.now)) }
{
    add_own(groups, model, number, act)?;
    add_outputs(groups, model, number, act.references.as_slice())?;
    add_claims(groups, model, number, claims_of(model, act.action))
}

/// Adds those of actions, of what they write and of what they claim.
pub(crate) fn add_acts<'a>(
    groups: &mut Vec<Group<'a>>,
    model: &'a Model,
    acts: &[Act],
) -> Result<(), NoMemory>
    ensures { OnOk result (map view_group groups.new.items ≡ map view_group groups.old.items ++ flat_map (act_groups (view_model model.now)) (enumerate_from 0 acts.now)) }
{
    let mut number = 0;
    for act in acts {
        add_act(groups, model, narrow(number)?, act)?;
        number += 1;
    }
    Ok(())
}

// Adds those of the first object of a pool.
fn add_first<'a>(
    groups: &mut Vec<Group<'a>>,
    model: &'a Model,
    first: &First,
) -> Result<(), NoMemory>
    ensures { OnOk result (map view_group groups.new.items ≡ map view_group groups.old.items ++ first_object_groups (view_model model.now) first.now) }
{
    let constraints = pool_constraints(model, first.pool);
    add_group(groups, Site::First { pool: first.pool }, constraints)
}

/// Adds those of first objects.
pub(crate) fn add_firsts<'a>(
    groups: &mut Vec<Group<'a>>,
    model: &'a Model,
    firsts: &[First],
) -> Result<(), NoMemory>
    ensures { OnOk result (map view_group groups.new.items ≡ map view_group groups.old.items ++ flat_map (first_object_groups (view_model model.now)) firsts.now) }
{
    for first in firsts {
        add_first(groups, model, first)?;
    }
    Ok(())
}
