//! A machine that runs the programs of lanes.
ghost use Rattle.std.specs.Prelude.{◌≡◌, ◌↔◌, ◌<◌, ◌≤◌, ℕ, length, IfOk, IsTrue, replicate};
ghost use Rattle.std.specs.Bool.{OnTrue, OnFalse};
ghost use Rattle.pst_scen.specs.declared.scenario.Scenario.{Scenario};
ghost use Rattle.pst_scen.specs.Trace.{Prefix};
ghost use Rattle.pst_scen.specs.Plan.{widest};
ghost use Rattle.pst_scen.specs.Plans.{IsPlanOf};
ghost use Rattle.pst_order.specs.Facts.{LinksStates};
ghost use Rattle.pst_programs.specs.Programs.{ArePrograms};
ghost use Rattle.pst_programs.specs.Machine.{State, Steps, HasEnded, at_first};

use crate::run::{Progress, all_ended, begin, end, pass};
use crate::tables::{marks, next_members};
use pst_base::NoMemory;
use pst_programs::{Move, Program, machine_is_safe, programs_are_safe};
use pst_scen::{Event, Plan};
use std::alloc::Global;
use std::marker::Model;

/// A machine: for each lane a place in its program, the signals that were given, and the trace.
///
/// Contracts see it as its plan, its programs and its state.
#[derive(Drop)]
pub struct Machine<'a> {
    plan: &'a Plan,
    programs: &'a [Program],
    run: Progress,
}

impl<'a> Model for Machine<'a> {
    ghost use Rattle.pst_static.specs.Views.{View};

    ghost Value = { View };

    ghost use Rattle.pst_static.specs.Kept.{view_of, IsKept};

    ghost view = { view_of };

    ghost invariant = { IsKept };
}

/// Each lane's first place.
fn first_places(alloc: Global, count: usize) -> Result<Vec<usize>, NoMemory>
    ensures { IfOk result (λ v. v.items ≡ replicate count 0) }
{
    Ok(Vec::from_elem(alloc, 0usize, count)?)
}

impl<'a> Machine<'a> {
    /// The machine whose lanes all stand at the beginning. The programs are those of a scenario's
    /// plan for as many lanes as there are programs, from 1 to 16 and enough for the widest group.
    /// Links of the scenario's state references lead to outputs of the same pool, and no two outputs to
    /// one pool have the same link.
    /// It reserves the whole trace, so no later call takes memory.
    pub fn new(
        alloc: Global,
        programs: &'a [Program],
        plan: &'a Plan,
    ) -> Result<Machine<'a>, NoMemory>
        requires planned { (s : Scenario) × LinksStates s × IsPlanOf s plan.now }
        requires programs { ArePrograms plan.now (length programs.now) programs.now }
        requires few { length programs.now ≤ 16 }
        requires wide { widest plan.now.groups ≤ length programs.now }
        ensures { IfOk result (λ m. m ≡ record { plan = plan.now; programs = programs.now; state = at_first programs.now }) }
    {
        let count = plan.len() as usize;
        let next = next_members(alloc, plan)?;
        let places = first_places(alloc, programs.len())?;
        let signals = Vec::with_capacity(alloc, count)?;
        let trace = Vec::with_capacity(alloc, 2 * count)?;
        let told = marks(alloc, count)?;
        let started = marks(alloc, count)?;
        let run = Progress {
            next,
            places,
            signals,
            trace,
            told,
            started,
        };
        Ok(Machine {
            plan,
            programs,
            run,
        })
    }

    /// The trace. It begins a whole legal trace of each scenario that has the plan, on as many lanes
    /// as there are programs.
    pub fn trace(&self) -> &[Event]
        ensures value { result.now ≡ self.now.state.trace }
        ensures prefix { (s : Scenario) → LinksStates s → IsPlanOf s self.now.plan → Prefix s (length self.now.programs) result.now }
    {
        machine_is_safe();
        programs_are_safe();
        &self.run.trace
    }

    /// Whether every lane is at its program's end.
    pub fn ended(&self) -> bool
        ensures { IsTrue result ↔ HasEnded self.now.programs self.now.state }
    {
        all_ended(self.programs, &self.run.places)
    }

    /// Makes a move. It answers false exactly where the move isn't possible, and then nothing changes.
    pub fn step(&mut self, chosen: Move) -> bool
        ensures plan { self.new.plan ≡ self.old.plan }
        ensures programs { self.new.programs ≡ self.old.programs }
        ensures yes { OnTrue result (Steps self.old.plan self.old.programs self.old.state chosen self.new.state) }
        ensures no { OnFalse result (self.new ≡ self.old) }
        ensures impossible { OnFalse result ((state : State) → Steps self.old.plan self.old.programs self.old.state chosen state → ⊥) }
    {
        match chosen {
            Move::Pass { lane } => pass(self.plan, self.programs, &mut self.run, lane),
            Move::Begin { lane } => begin(self.plan, self.programs, &mut self.run, lane),
            Move::End { lane } => end(self.plan, self.programs, &mut self.run, lane),
        }
    }
}
