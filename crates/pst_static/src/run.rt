//! A run of the lanes' programs: where the lanes stand, what they told, and the trace.
//!
//! A pass and an end take the same few steps each time. A start looks for the lane of each member of
//! the group among the lanes, of which there are 16 at most.
ghost use Rattle.std.specs.Prelude.{◌≡◌, ◌↔◌, ◌+◌, ◌^◌, ◌<◌, ◌≤◌, ◌++◌, ◌∷◌, [], ℕ, length, get_or, slice_set, IsTrue, vec_capacity, true, false, Contains};
ghost use Rattle.std.specs.Bool.{OnTrue, OnFalse};
ghost use Rattle.pst_scen.specs.Trace.{Runs};
ghost use Rattle.pst_programs.specs.declared.program.Instruction.TheVariants.{Run, Signal, Await};
ghost use Rattle.pst_programs.specs.declared.program.Move.TheVariants.{Pass, Begin, End};
ghost use Rattle.pst_programs.specs.Machine.{State, Steps, HasEnded, IsAt, moved_on};
ghost use Rattle.pst_static.specs.Standing.{AllCanJoin, AreAtEnd};
ghost use Rattle.pst_static.specs.Runs.{state_of, IsRun};

use crate::standing::{await_at, can_begin, note, run_at, signal_at, start_members};
use pst_order::{
    groups_are_whole, members_are_those, prefix_is_by_rule, rule_fits, whole_is_sound,
};
use pst_programs::{Program, machine_is_safe, programs_are_safe};
use pst_scen::{Event, Plan};

/// What a run keeps.
#[derive(Drop)]
pub(crate) struct Progress {
    /// The next action of the same group, or the number of actions, for each action.
    pub(crate) next: Vec<u32>,
    /// The instruction at which each lane stands.
    pub(crate) places: Vec<usize>,
    /// The actions of which lanes told that they have ended, in this order.
    pub(crate) signals: Vec<u32>,
    pub(crate) trace: Vec<Event>,
    /// Whether the action is among the signals.
    pub(crate) told: Vec<bool>,
    /// Whether the action has started.
    pub(crate) started: Vec<bool>,
}

/// Lets a lane go on by one instruction.
fn advance(places: &mut Vec<usize>, lane: u32)
    requires lane_in { lane < length places.old.items }
    requires room { get_or places.old.items lane 0 + 1 < 2 ^ 64 }
    ensures { places.new.items ≡ moved_on places.old.items lane }
{
    places[lane as usize] += 1;
}

/// Writes a signal, for which there is room.
fn tell(signals: &mut Vec<u32>, act: u32)
    requires { length signals.old.items < vec_capacity signals.old }
    ensures items { signals.new.items ≡ signals.old.items ++ act ∷ [] }
    ensures capacity { vec_capacity signals.old ≤ vec_capacity signals.new }
{
    let _pushed = signals.push(act);
}

/// Marks an action.
fn mark(marks: &mut Vec<bool>, act: u32)
    requires { act < length marks.old.items }
    ensures { marks.new.items ≡ slice_set marks.old.items act true }
{
    marks[act as usize] = true;
}

/// A lane at a `Signal` goes on.
fn give(plan: &Plan, programs: &[Program], run: &mut Progress, lane: u32, action: u32)
    requires run { IsRun plan.now programs.now run.old }
    requires at { IsAt programs.now run.old.places.items lane (Signal action) }
    requires room { get_or run.old.places.items lane 0 + 1 < 2 ^ 64 }
    ensures run { IsRun plan.now programs.now run.new }
    ensures step { Steps plan.now programs.now (state_of run.old) (Pass lane) (state_of run.new) }
{
    groups_are_whole();
    members_are_those();
    whole_is_sound();
    machine_is_safe();
    programs_are_safe();
    mark(&mut run.told, action);
    tell(&mut run.signals, action);
    advance(&mut run.places, lane);
}

/// A lane at an `Await` of an action that was told of goes on.
fn hear(plan: &Plan, programs: &[Program], run: &mut Progress, lane: u32, action: u32)
    requires run { IsRun plan.now programs.now run.old }
    requires at { IsAt programs.now run.old.places.items lane (Await action) }
    requires told { Contains run.old.signals.items action }
    requires room { get_or run.old.places.items lane 0 + 1 < 2 ^ 64 }
    ensures run { IsRun plan.now programs.now run.new }
    ensures step { Steps plan.now programs.now (state_of run.old) (Pass lane) (state_of run.new) }
{
    advance(&mut run.places, lane);
}

/// The group of an action starts, whose members' lanes stand at their runs.
fn start(plan: &Plan, programs: &[Program], run: &mut Progress, lane: u32, action: u32)
    requires run { IsRun plan.now programs.now run.old }
    requires at { IsAt programs.now run.old.places.items lane (Run action) }
    requires ready { AllCanJoin plan.now programs.now run.old.places.items run.old.started.items (get_or plan.now.groups action 0) }
    ensures run { IsRun plan.now programs.now run.new }
    ensures step { Steps plan.now programs.now (state_of run.old) (Begin lane) (state_of run.new) }
{
    groups_are_whole();
    members_are_those();
    whole_is_sound();
    machine_is_safe();
    programs_are_safe();
    prefix_is_by_rule();
    rule_fits();
    let group = plan.group(action);
    start_members(
        plan,
        &run.next,
        programs,
        &run.places,
        &mut run.started,
        &mut run.trace,
        group,
    );
}

/// The action that runs on a lane ends, and the lane goes on.
fn finish(plan: &Plan, programs: &[Program], run: &mut Progress, lane: u32, action: u32)
    requires run { IsRun plan.now programs.now run.old }
    requires at { IsAt programs.now run.old.places.items lane (Run action) }
    requires runs { Runs run.old.trace.items action }
    requires room { get_or run.old.places.items lane 0 + 1 < 2 ^ 64 }
    ensures run { IsRun plan.now programs.now run.new }
    ensures step { Steps plan.now programs.now (state_of run.old) (End lane) (state_of run.new) }
{
    groups_are_whole();
    members_are_those();
    whole_is_sound();
    machine_is_safe();
    programs_are_safe();
    prefix_is_by_rule();
    rule_fits();
    note(&mut run.trace, Event::End { act: action });
    advance(&mut run.places, lane);
}

/// Whether an action is marked.
fn is_set(marks: &[bool], act: u32) -> bool
    requires { act < length marks.now }
    ensures { IsTrue result ↔ (get_or marks.now act false ≡ true) }
{
    marks[act as usize]
}

/// A lane at an `Await` of an action that was told of goes on, where it stands at no `Signal`.
fn pass_await(plan: &Plan, programs: &[Program], run: &mut Progress, lane: u32) -> bool
    requires run { IsRun plan.now programs.now run.old }
    requires none { (a : ℕ) → IsAt programs.now run.old.places.items lane (Signal a) → ⊥ }
    ensures run { IsRun plan.now programs.now run.new }
    ensures yes { OnTrue result (Steps plan.now programs.now (state_of run.old) (Pass lane) (state_of run.new)) }
    ensures no { OnFalse result (run.new ≡ run.old) }
    ensures impossible { OnFalse result ((state : State) → Steps plan.now programs.now (state_of run.old) (Pass lane) state → ⊥) }
{
    programs_are_safe();
    match await_at(programs, &run.places, lane) {
        None => false,
        Some(action) => {
            if is_set(&run.told, action) {
                hear(plan, programs, run, lane, action);
                return true;
            }
            false
        }
    }
}

/// A lane at a `Signal`, or at an `Await` of an action that was told of, goes on.
pub(crate) fn pass(plan: &Plan, programs: &[Program], run: &mut Progress, lane: u32) -> bool
    requires { IsRun plan.now programs.now run.old }
    ensures run { IsRun plan.now programs.now run.new }
    ensures yes { OnTrue result (Steps plan.now programs.now (state_of run.old) (Pass lane) (state_of run.new)) }
    ensures no { OnFalse result (run.new ≡ run.old) }
    ensures impossible { OnFalse result ((state : State) → Steps plan.now programs.now (state_of run.old) (Pass lane) state → ⊥) }
{
    match signal_at(programs, &run.places, lane) {
        None => pass_await(plan, programs, run, lane),
        Some(action) => {
            give(plan, programs, run, lane, action);
            true
        }
    }
}

/// The group starts at whose `Run` the lane stands, where each member's lane stands at its `Run`.
pub(crate) fn begin(plan: &Plan, programs: &[Program], run: &mut Progress, lane: u32) -> bool
    requires { IsRun plan.now programs.now run.old }
    ensures run { IsRun plan.now programs.now run.new }
    ensures yes { OnTrue result (Steps plan.now programs.now (state_of run.old) (Begin lane) (state_of run.new)) }
    ensures no { OnFalse result (run.new ≡ run.old) }
    ensures impossible { OnFalse result ((state : State) → Steps plan.now programs.now (state_of run.old) (Begin lane) state → ⊥) }
{
    members_are_those();
    programs_are_safe();
    match run_at(programs, &run.places, lane) {
        None => false,
        Some(action) => {
            let group = plan.group(action);
            if can_begin(plan, &run.next, programs, &run.places, &run.started, group) {
                start(plan, programs, run, lane, action);
                return true;
            }
            false
        }
    }
}

/// The action at whose `Run` the lane stands ends, where it has started.
pub(crate) fn end(plan: &Plan, programs: &[Program], run: &mut Progress, lane: u32) -> bool
    requires { IsRun plan.now programs.now run.old }
    ensures run { IsRun plan.now programs.now run.new }
    ensures yes { OnTrue result (Steps plan.now programs.now (state_of run.old) (End lane) (state_of run.new)) }
    ensures no { OnFalse result (run.new ≡ run.old) }
    ensures impossible { OnFalse result ((state : State) → Steps plan.now programs.now (state_of run.old) (End lane) state → ⊥) }
{
    groups_are_whole();
    members_are_those();
    whole_is_sound();
    programs_are_safe();
    match run_at(programs, &run.places, lane) {
        None => false,
        Some(action) => {
            if is_set(&run.started, action) {
                finish(plan, programs, run, lane, action);
                return true;
            }
            false
        }
    }
}

/// Whether every lane is at its program's end.
pub(crate) fn all_ended(programs: &[Program], places: &[usize]) -> bool
    requires { length places.now ≡ length programs.now }
    ensures { IsTrue result ↔ AreAtEnd programs.now places.now }
{
    for lane in 0..programs.len() {
        if places[lane] < programs[lane].steps.as_slice().len() {
            return false;
        }
    }
    true
}
