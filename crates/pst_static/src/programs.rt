//! The programs of the lanes: their drafts with signals.
//!
//! What is awaited is known once all drafts are written.
ghost use Rattle.std.specs.Prelude.{◌≡◌, ◌≤◌, ◌<◌, ◌++◌, ◌∷◌, [], ℕ, length, IfOk, OnOk, Contains};
ghost use Rattle.pst_scen.specs.declared.scenario.Scenario.{Scenario};
ghost use Rattle.pst_scen.specs.Plan.{widest};
ghost use Rattle.pst_scen.specs.Plans.{IsPlanOf};
ghost use Rattle.pst_programs.specs.declared.program.Instruction.TheVariants.{Run};
ghost use Rattle.pst_programs.specs.Programs.{ArePrograms};
ghost use Rattle.pst_static.specs.Drafts.{IsDrafted, signalled};

use crate::deal::deal;
use crate::drafts::drafts_of;
use crate::order::serial_order;
use crate::tables::{marks, next_members};
use pst_base::{Items, NoMemory};
use pst_order::{groups_are_whole, members_are_those, whole_is_sound};
use pst_programs::{Instruction, Program};
use pst_scen::Plan;
use std::alloc::Global;

/// Adds an instruction, and a signal behind the run of an action that is marked.
fn add_step(steps: &mut Vec<Instruction>, step: Instruction, told: &[bool]) -> Result<(), NoMemory>
    requires { (a : ℕ) → step ≡ Run a → a < length told.now }
    ensures { OnOk result (steps.new.items ≡ steps.old.items ++ signalled told.now (step ∷ [])) }
{
    steps.push(step)?;
    match step {
        Instruction::Run { action } => {
            if told[action as usize] {
                steps.push(Instruction::Signal { action })?;
            }
        }
        Instruction::Signal { .. } => {}
        Instruction::Await { .. } => {}
    }
    Ok(())
}

/// A draft with signals.
fn program_of(alloc: Global, draft: &[Instruction], told: &[bool]) -> Result<Program, NoMemory>
    requires { (a : ℕ) → Contains draft.now (Run a) → a < length told.now }
    ensures { IfOk result (λ program. program.steps ≡ signalled told.now draft.now) }
{
    let mut steps = Vec::with_capacity(alloc, draft.len())?;
    for step in draft {
        add_step(&mut steps, *step, told)?;
    }
    Ok(Program {
        steps: Items::from_vec(steps),
    })
}

/// The programs of all drafts.
fn programs_of(
    alloc: Global,
    plan: &Plan,
    lanes: u32,
    dealt: &[(u32, u32)],
    drafts: &[Vec<Instruction>],
    told: &[bool],
) -> Result<Vec<Program>, NoMemory>
    requires planned { (s : Scenario) × IsPlanOf s plan.now }
    requires drafted { IsDrafted plan.now lanes dealt.now drafts.now told.now }
    ensures { IfOk result (λ programs. ArePrograms plan.now lanes programs.items) }
{
    groups_are_whole();
    members_are_those();
    whole_is_sound();
    let mut programs = Vec::with_capacity(alloc, drafts.len())?;
    for lane in 0..drafts.len() {
        let program = program_of(alloc, &drafts[lane], told)?;
        programs.push(program)?;
    }
    Ok(programs)
}

/// The programs of a scenario's plan for so many lanes, which are enough for its widest group: those
/// of the definition, and no others.
///
/// Each row of the plan's square of `must` is read four times, and each of the square of conflicts
/// once: a word without pairs costs one step, each other one at most 64. For each action all lanes
/// are looked at, once for the action and once for each that it awaits. Nothing else grows faster
/// than the programs.
pub fn lane_programs(alloc: Global, plan: &Plan, lanes: u32) -> Result<Vec<Program>, NoMemory>
    requires planned { (s : Scenario) × IsPlanOf s plan.now }
    requires some { 1 ≤ lanes }
    requires few { lanes ≤ 16 }
    requires wide { widest plan.now.groups ≤ lanes }
    ensures { IfOk result (λ programs. ArePrograms plan.now lanes programs.items) }
{
    let next = next_members(alloc, plan)?;
    let order = serial_order(alloc, plan, &next)?;
    let dealt = deal(alloc, plan, &next, &order, lanes)?;
    let mut told = marks(alloc, plan.len() as usize)?;
    let drafts = drafts_of(alloc, plan, &dealt, lanes as usize, &mut told)?;
    programs_of(alloc, plan, lanes, &dealt, &drafts, &told)
}
