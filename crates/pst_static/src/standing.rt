//! Where the lanes of a machine stand, and the start of a group there.
ghost use Rattle.std.specs.Prelude.{◌≡◌, ◌↔◌, ◌+◌, ◌^◌, ◌<◌, ◌≤◌, ◌++◌, ◌∷◌, [], ℕ, length, get_or, IsTrue, IsSome, MatchOption, vec_capacity};
ghost use Rattle.pst_scen.specs.Plan.{members};
ghost use Rattle.pst_book.specs.Tables.{AreNext};
ghost use Rattle.pst_programs.specs.declared.program.Instruction.TheVariants.{Run, Signal, Await};
ghost use Rattle.pst_programs.specs.declared.program.Instruction.{Instruction};
ghost use Rattle.pst_programs.specs.Machine.{IsAt};
ghost use Rattle.pst_static.specs.Taking.{IsTaken};
ghost use Rattle.pst_static.specs.Standing.{AllCanJoin, CanJoin, HasBegun};

use pst_programs::{Instruction, Program};
use pst_scen::{Event, Plan};

/// The instruction at which the lane stands, if it is a lane and not at its end.
fn instruction_at(programs: &[Program], places: &[usize], lane: u32) -> Option<Instruction>
    requires { length places.now ≡ length programs.now }
    ensures at { MatchOption result ((i : Instruction) → IsAt programs.now places.now lane i → ⊥) (λ i. IsAt programs.now places.now lane i) }
    ensures room { IsSome result → get_or places.now lane 0 + 1 < 2 ^ 64 }
{
    let at = lane as usize;
    if at >= programs.len() {
        return None;
    }
    let steps = programs[at].steps.as_slice();
    let place = places[at];
    if place < steps.len() {
        Some(steps[place])
    } else {
        None
    }
}

/// The action at whose `Run` the lane stands, if it does.
pub(crate) fn run_at(programs: &[Program], places: &[usize], lane: u32) -> Option<u32>
    requires { length places.now ≡ length programs.now }
    ensures at { MatchOption result ((a : ℕ) → IsAt programs.now places.now lane (Run a) → ⊥) (λ a. IsAt programs.now places.now lane (Run a)) }
    ensures room { IsSome result → get_or places.now lane 0 + 1 < 2 ^ 64 }
{
    match instruction_at(programs, places, lane) {
        Some(Instruction::Run { action }) => Some(action),
        Some(Instruction::Signal { .. }) => None,
        Some(Instruction::Await { .. }) => None,
        None => None,
    }
}

/// The action at whose `Signal` the lane stands, if it does.
pub(crate) fn signal_at(programs: &[Program], places: &[usize], lane: u32) -> Option<u32>
    requires { length places.now ≡ length programs.now }
    ensures at { MatchOption result ((a : ℕ) → IsAt programs.now places.now lane (Signal a) → ⊥) (λ a. IsAt programs.now places.now lane (Signal a)) }
    ensures room { IsSome result → get_or places.now lane 0 + 1 < 2 ^ 64 }
{
    match instruction_at(programs, places, lane) {
        Some(Instruction::Signal { action }) => Some(action),
        Some(Instruction::Run { .. }) => None,
        Some(Instruction::Await { .. }) => None,
        None => None,
    }
}

/// The action at whose `Await` the lane stands, if it does.
pub(crate) fn await_at(programs: &[Program], places: &[usize], lane: u32) -> Option<u32>
    requires { length places.now ≡ length programs.now }
    ensures at { MatchOption result ((a : ℕ) → IsAt programs.now places.now lane (Await a) → ⊥) (λ a. IsAt programs.now places.now lane (Await a)) }
    ensures room { IsSome result → get_or places.now lane 0 + 1 < 2 ^ 64 }
{
    match instruction_at(programs, places, lane) {
        Some(Instruction::Await { action }) => Some(action),
        Some(Instruction::Run { .. }) => None,
        Some(Instruction::Signal { .. }) => None,
        None => None,
    }
}

/// Whether the lane stands at the action's `Run`.
fn is_at_run(programs: &[Program], places: &[usize], lane: u32, act: u32) -> bool
    requires { length places.now ≡ length programs.now }
    ensures { IsTrue result ↔ IsAt programs.now places.now lane (Run act) }
{
    match instruction_at(programs, places, lane) {
        Some(Instruction::Run { action }) => action == act,
        Some(Instruction::Signal { .. }) => false,
        Some(Instruction::Await { .. }) => false,
        None => false,
    }
}

/// The lane that stands at the action's `Run`, if there is one.
fn lane_at(programs: &[Program], places: &[usize], act: u32) -> Option<u32>
    requires many { length places.now ≡ length programs.now }
    requires few { length programs.now ≤ 16 }
    ensures { MatchOption result ((l : ℕ) → IsAt programs.now places.now l (Run act) → ⊥) (λ l. IsAt programs.now places.now l (Run act)) }
{
    for lane in 0..programs.len() as u32 {
        if is_at_run(programs, places, lane, act) {
            return Some(lane);
        }
    }
    None
}

/// The lane that stands at the action's `Run`, which there is.
fn lane_of(programs: &[Program], places: &[usize], act: u32) -> u32
    requires many { length places.now ≡ length programs.now }
    requires few { length programs.now ≤ 16 }
    requires there { (l : ℕ) × IsAt programs.now places.now l (Run act) }
    ensures { IsAt programs.now places.now result (Run act) }
{
    match lane_at(programs, places, act) {
        Some(lane) => lane,
        None => 0,
    }
}

/// Whether a lane stands at the action's `Run`, and the action hasn't started.
fn can_join(programs: &[Program], places: &[usize], started: &[bool], act: u32) -> bool
    requires many { length places.now ≡ length programs.now }
    requires few { length programs.now ≤ 16 }
    requires act_in { act < length started.now }
    ensures { IsTrue result ↔ CanJoin programs.now places.now started.now act }
{
    if started[act as usize] {
        return false;
    }
    lane_at(programs, places, act).is_some()
}

/// Whether the lane of each member of the group stands at its `Run`, and none has started.
pub(crate) fn can_begin(
    plan: &Plan,
    next: &[u32],
    programs: &[Program],
    places: &[usize],
    started: &[bool],
    group: u32,
) -> bool
    requires group_in { group < length plan.now.groups }
    requires number { get_or plan.now.groups group 0 ≡ group }
    requires next { AreNext plan.now.groups next.now }
    requires many { length places.now ≡ length programs.now }
    requires few { length programs.now ≤ 16 }
    requires many_started { length started.now ≡ length plan.now.groups }
    ensures { IsTrue result ↔ AllCanJoin plan.now programs.now places.now started.now group }
{
    let count = plan.len();
    let mut act = group;
    'members: while act < count {
        if !can_join(programs, places, started, act) {
            return false;
        }
        act = next[act as usize];
    }
    true
}

/// Writes an event, for which there is room.
pub(crate) fn note(trace: &mut Vec<Event>, event: Event)
    requires { length trace.old.items < vec_capacity trace.old }
    ensures items { trace.new.items ≡ trace.old.items ++ event ∷ [] }
    ensures capacity { vec_capacity trace.old ≤ vec_capacity trace.new }
{
    let _pushed = trace.push(event);
}

/// Starts the members of the group of that number, which can all begin, each on the lane that stands
/// at its `Run`.
pub(crate) fn start_members(
    plan: &Plan,
    next: &[u32],
    programs: &[Program],
    places: &[usize],
    started: &mut Vec<bool>,
    trace: &mut Vec<Event>,
    group: u32,
)
    requires group_in { group < length plan.now.groups }
    requires number { get_or plan.now.groups group 0 ≡ group }
    requires next { AreNext plan.now.groups next.now }
    requires many { length places.now ≡ length programs.now }
    requires few { length programs.now ≤ 16 }
    requires many_started { length started.old.items ≡ length plan.now.groups }
    requires ready { AllCanJoin plan.now programs.now places.now started.old.items group }
    requires room { length trace.old.items + length (members plan.now.groups group) ≤ vec_capacity trace.old }
    ensures many { length started.new.items ≡ length started.old.items }
    ensures started { IsTaken plan.now group started.old.items started.new.items }
    ensures begun { HasBegun programs.now places.now (members plan.now.groups group) trace.old.items trace.new.items }
    ensures capacity { vec_capacity trace.old ≤ vec_capacity trace.new }
{
    let count = plan.len();
    let mut act = group;
    'members: while act < count {
        let following = next[act as usize];
        let lane = lane_of(programs, places, act);
        let more = following < count;
        note(trace, Event::Start { act, lane, more });
        started[act as usize] = true;
        act = following;
    }
}
