//! Drafts of the lanes' programs, without signals.
//!
//! Along the serial order each action's lane gets what the action awaits, and its run.
ghost use Rattle.std.specs.Prelude.{◌≡◌, ◌+◌, ◌<◌, ◌++◌, ◌∷◌, [], ℕ, List, length, replicate, false, IfOk, OnOk, Some, slice_get};
ghost use Rattle.std.specs.Global.{Vec};
ghost use Rattle.pst_scen.specs.declared.scenario.Scenario.{Scenario};
ghost use Rattle.pst_scen.specs.Plans.{IsPlanOf};
ghost use Rattle.pst_programs.specs.declared.program.Instruction.{Instruction};
ghost use Rattle.pst_programs.specs.declared.program.Instruction.TheVariants.{Run};
ghost use Rattle.pst_programs.specs.Serial.{IsSerial};
ghost use Rattle.pst_programs.specs.Lanes.{Deals};
ghost use Rattle.pst_static.specs.Drafts.{AreTables, AreEmpty, IsDrafting, IsDrafted};
ghost use Rattle.pst_static.specs.Stamps.{IsChangedAt};

use crate::awaits::write_awaits;
use crate::latest::stamp_lane;
use crate::tables::numbers;
use pst_base::NoMemory;
use pst_order::{groups_are_whole, members_are_those, whole_is_sound};
use pst_programs::Instruction;
use pst_scen::Plan;
use std::alloc::Global;

/// For each lane a table of so many zeros.
fn tables_of(alloc: Global, lanes: usize, count: usize) -> Result<Vec<Vec<u32>>, NoMemory>
    ensures { IfOk result (λ tables. AreTables lanes count tables.items) }
{
    let mut tables = Vec::with_capacity(alloc, lanes)?;
    for _lane in 0..lanes {
        tables.push(numbers(alloc, 0, count)?)?;
    }
    Ok(tables)
}

/// For each lane a draft without instructions.
fn no_drafts(alloc: Global, lanes: usize) -> Result<Vec<Vec<Instruction>>, NoMemory>
    ensures { IfOk result (λ drafts. AreEmpty lanes drafts.items) }
{
    let mut drafts = Vec::with_capacity(alloc, lanes)?;
    for _lane in 0..lanes {
        drafts.push(Vec::new(alloc))?;
    }
    Ok(drafts)
}

/// Writes the run of an action behind a lane's draft.
fn add_run(drafts: &mut [Vec<Instruction>], lane: usize, action: u32) -> Result<(), NoMemory>
    requires { lane < length drafts.old }
    ensures { OnOk result (IsChangedAt (Vec Instruction) (λ x y. y.items ≡ x.items ++ Run action ∷ []) lane drafts.old drafts.new) }
{
    drafts[lane].push(Instruction::Run { action })?;
    Ok(())
}

/// Writes the instructions of the action that was dealt at that place, and the place into the tables.
fn draft_one(
    plan: &Plan,
    dealt: &[(u32, u32)],
    at: usize,
    latest: &mut [Vec<u32>],
    heard: &mut [Vec<u32>],
    told: &mut [bool],
    drafts: &mut [Vec<Instruction>],
) -> Result<(), NoMemory>
    requires planned { (s : Scenario) × IsPlanOf s plan.now }
    requires at_in { at < length dealt.now }
    requires drafting { IsDrafting plan.now (length drafts.old) dealt.now at latest.old heard.old drafts.old told.old }
    ensures many { length drafts.new ≡ length drafts.old }
    ensures drafting { OnOk result (IsDrafting plan.now (length drafts.old) dealt.now (at + 1) latest.new heard.new drafts.new told.new) }
{
    groups_are_whole();
    members_are_those();
    whole_is_sound();
    let _count = plan.len();
    let action = dealt[at].0;
    let lane = dealt[at].1 as usize;
    write_awaits(
        dealt,
        latest,
        &mut heard[lane],
        action,
        lane,
        told,
        &mut drafts[lane],
    )?;
    add_run(drafts, lane, action)?;
    stamp_lane(latest, plan, lane, action, at as u32 + 1);
    Ok(())
}

/// The drafts of all lanes, and marks of what they await.
pub(crate) fn drafts_of(
    alloc: Global,
    plan: &Plan,
    dealt: &[(u32, u32)],
    lanes: usize,
    told: &mut [bool],
) -> Result<Vec<Vec<Instruction>>, NoMemory>
    requires planned { (s : Scenario) × IsPlanOf s plan.now }
    requires dealt { (order : List ℕ) × IsSerial plan.now order × Deals plan.now lanes [] order dealt.now }
    requires none { told.old ≡ replicate (length plan.now.groups) false }
    ensures { IfOk result (λ drafts. IsDrafted plan.now lanes dealt.now drafts.items told.new) }
{
    let mut latest = tables_of(alloc, lanes, plan.len() as usize)?;
    let mut heard = tables_of(alloc, lanes, lanes)?;
    let mut drafts = no_drafts(alloc, lanes)?;
    for at in 0..dealt.len() {
        draft_one(plan, dealt, at, &mut latest, &mut heard, told, &mut drafts)?;
    }
    Ok(drafts)
}
