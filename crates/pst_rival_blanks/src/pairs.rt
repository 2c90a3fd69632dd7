//! Pairs of blanks that must have different numbers.
ghost use Rattle.std.specs.Prelude.{◌≡◌, ◌≤◌, IfOk, IfSome, OnOk, All, true, [], length};
ghost use Rattle.pst_model.specs.ModelView.{view_model};
ghost use Rattle.pst_order.specs.Built.{IsBuilt};
ghost use Rattle.pst_blank_values.specs.Values.{AreBare};
ghost use Rattle.pst_claim_rivals.specs.Claims.{open_claims};
ghost use Rattle.pst_claim_rivals.specs.Rivals.{IsKnown};
ghost use Rattle.pst_rival_blanks.specs.Pairs.{IsPairOf, MustDiffer};

use crate::bare::are_bare;
use crate::earlier::Finder;
use pst_base::NoMemory;
use pst_blank_values::filled_blanks_stand;
use pst_claim_rivals::{OpenClaim, are_rivals, open_claims};
use pst_graph::groups_of;
use pst_model::Model;
use pst_scen::Scenario;
use std::alloc::Global;

// When so many pairs are found, no more are looked for.
const MOST_PAIRS: usize = 1 << 20;

/// Two blanks for the instances of claims, by their numbers among all blanks.
#[derive(Clone, Copy, Debug, PartialEq, Eq)]
pub struct Rival {
    /// The earlier one.
    pub earlier: u32,
    /// The later one.
    pub later: u32,
}

// The claims of a scenario, and what they are compared by.
#[derive(Clone, Copy)]
struct Listing<'a> {
    scenario: &'a Scenario,
    groups: &'a [u32],
    claims: &'a [OpenClaim],
}

// The pair of the two claims, where they are rivals.
fn compare(listing: &Listing<'_>, earlier: u32, later: u32) -> Option<Rival>
    requires { IsKnown listing.now.scenario.now listing.now.groups.now }
    ensures { IfSome result (IsPairOf listing.now.scenario.now listing.now.claims.now) }
{
    if earlier >= later {
        return None;
    }
    let Some(one) = listing.claims.get(earlier as usize) else {
        return None;
    };
    let Some(other) = listing.claims.get(later as usize) else {
        return None;
    };
    if !are_rivals(listing.scenario, listing.groups, one, other, true) {
        return None;
    }
    Some(Rival { earlier, later })
}

// Adds the pair of the two claims, where they are rivals.
fn add_pair(
    pairs: &mut Vec<Rival>,
    listing: &Listing<'_>,
    earlier: u32,
    later: u32,
) -> Result<(), NoMemory>
    requires { IsKnown listing.now.scenario.now listing.now.groups.now }
    ensures { OnOk result (All (IsPairOf listing.now.scenario.now listing.now.claims.now) pairs.old.items → All (IsPairOf listing.now.scenario.now listing.now.claims.now) pairs.new.items) }
{
    let Some(rival) = compare(listing, earlier, later) else {
        return Ok(());
    };
    pairs.push(rival)?;
    Ok(())
}

// Adds the pair of the two claims, where they are rivals and the earlier one isn't the last that was compared.
fn add_once(
    pairs: &mut Vec<Rival>,
    listing: &Listing<'_>,
    last: u32,
    earlier: u32,
    later: u32,
) -> Result<(), NoMemory>
    requires { IsKnown listing.now.scenario.now listing.now.groups.now }
    ensures { OnOk result (All (IsPairOf listing.now.scenario.now listing.now.claims.now) pairs.old.items → All (IsPairOf listing.now.scenario.now listing.now.claims.now) pairs.new.items) }
{
    if earlier == last {
        return Ok(());
    }
    add_pair(pairs, listing, earlier, later)
}

// Adds the pairs of a claim with some others, each once where they stand in ascending order.
fn pair(
    pairs: &mut Vec<Rival>,
    listing: &Listing<'_>,
    others: &[u32],
    later: u32,
) -> Result<(), NoMemory>
    requires { IsKnown listing.now.scenario.now listing.now.groups.now }
    ensures { OnOk result (All (IsPairOf listing.now.scenario.now listing.now.claims.now) pairs.old.items → All (IsPairOf listing.now.scenario.now listing.now.claims.now) pairs.new.items) }
{
    let mut last = later;
    for earlier in others {
        add_once(pairs, listing, last, *earlier, later)?;
        last = *earlier;
    }
    Ok(())
}

// The numbers of the claims that a claim is compared with.
fn find(
    finder: &Finder<'_>,
    found: &mut Vec<u32>,
    claims: &[OpenClaim],
    later: u32,
) -> Result<(), NoMemory> {
    match claims.get(later as usize) {
        Some(claim) => finder.find(found, claim),
        None => Ok(()),
    }
}

// The pairs of all claims.
fn pairs_of(
    alloc: Global,
    listing: &Listing<'_>,
    finder: &Finder<'_>,
) -> Result<Vec<Rival>, NoMemory>
    requires { IsKnown listing.now.scenario.now listing.now.groups.now }
    ensures { IfOk result (λ pairs. All (IsPairOf listing.now.scenario.now listing.now.claims.now) pairs.items) }
{
    let mut pairs = Vec::new(alloc);
    let mut found = Vec::new(alloc);
    for later in 0..listing.claims.len() {
        if pairs.len() >= MOST_PAIRS {
            return Ok(pairs);
        }
        let Ok(later) = u32::try_from(later) else {
            return Ok(pairs);
        };
        find(finder, &mut found, listing.claims, later)?;
        pair(&mut pairs, listing, &found, later)?;
    }
    Ok(pairs)
}

// The pairs of all claims, of actions with these groups.
fn pairs_by(
    alloc: Global,
    model: &Model,
    scenario: &Scenario,
    groups: &[u32],
) -> Result<Vec<Rival>, NoMemory>
    requires { IsKnown scenario.now groups.now }
    ensures { IfOk result (λ pairs. All (IsPairOf scenario.now (open_claims (view_model model.now) scenario.now.actions)) pairs.items) }
{
    let claims = open_claims(alloc, model, scenario.actions.as_slice())?;
    let finder = Finder::new(alloc, scenario, &claims, groups, model.pools.len())?;
    let listing = Listing {
        scenario,
        groups,
        claims: &claims,
    };
    pairs_of(alloc, &listing, &finder)
}

/// The pairs of blanks for instances that must have different numbers in every scenario that fills this one
/// and that a plan doesn't refuse, of a scenario whose activity and sources are read, and of which no claim and
/// no value is read. Of a scenario of which more is read there is none.
///
/// They stand in the order of their later claims, and those of one later claim in the order of the earlier ones: so the
/// first constraint that refuses a number of a claim names the earliest claim that has it. No more pairs are looked
/// for behind 1,048,576. So not every pair has to be here: the others are left to the plan of the whole scenario.
pub fn rivals(alloc: Global, model: &Model, scenario: &Scenario) -> Result<Vec<Rival>, NoMemory>
    requires { IsBuilt scenario.now }
    ensures { IfOk result (λ pairs. All (MustDiffer (view_model model.now) scenario.now) pairs.items) }
{
    filled_blanks_stand();
    if !are_bare(scenario.actions.as_slice()) {
        return Ok(Vec::new(alloc));
    }
    let count = scenario.actions.as_slice().len() as u32;
    let groups = groups_of(alloc, scenario, count)?;
    pairs_by(alloc, model, scenario, &groups)
}
