//! A run: its trace, with tables that spare the reading of it.
ghost use Rattle.std.specs.Prelude.{◌≡◌, ◌↔◌, ◌+◌, ◌*◌, ◌<◌, ◌≤◌, ◌++◌, ◌∷◌, [], ℕ, length, get_or, IsTrue, IfOk, MatchOption, vec_capacity, replicate, true, false};
ghost use Rattle.pst_scen.specs.Trace.{StartsOn, Started, Ended, Runs, IsHeld};
ghost use Rattle.pst_book.specs.Books.{MayJoin};
ghost use Rattle.pst_book.specs.Tables.{IsNext, AreNext, AreAllAwaited};

use crate::rows::{lower, raise};
use crate::tables::{count_awaited, fill_next, free};
use pst_base::NoMemory;
use pst_scen::{Event, Plan};
use std::alloc::Global;
use std::marker::Model;

/// The trace of a run on some lanes, with what it says of each action and each lane. Contracts see
/// it as its plan, number of lanes and trace, and the number of events that have room.
#[derive(Drop)]
pub(crate) struct Run {
    plan: Plan,
    lanes: u32,
    trace: Vec<Event>,
    /// Whether the action has started.
    started: Vec<bool>,
    /// Whether it has ended.
    ended: Vec<bool>,
    /// How many actions that must come before it haven't ended.
    awaited: Vec<u32>,
    /// How many running actions conflict with it.
    in_the_way: Vec<u32>,
    /// The next action of its group, or the number of actions.
    next: Vec<u32>,
    /// The action that runs on the lane.
    holders: Vec<Option<u32>>,
    /// A number below which all actions have started.
    first: u32,
    /// How many actions haven't ended.
    left: u32,
}

impl Model for Run {
    ghost use Rattle.pst_book.specs.Tables.{RunView};

    ghost Value = { RunView };

    ghost use Rattle.pst_book.specs.Tied.{run_of, IsTied};

    ghost view = { run_of };

    ghost invariant = { IsTied };
}

/// So many numbers, each the given one.
fn numbers(alloc: Global, value: u32, count: usize) -> Result<Vec<u32>, NoMemory>
    ensures { IfOk result (λ v. v.items ≡ replicate count value) }
{
    Ok(Vec::from_elem(alloc, value, count)?)
}

/// So many marks, none of them set.
fn marks(alloc: Global, count: usize) -> Result<Vec<bool>, NoMemory>
    ensures { IfOk result (λ v. v.items ≡ replicate count false) }
{
    Ok(Vec::from_elem(alloc, false, count)?)
}

/// So many lanes, each without an action.
fn free_lanes(alloc: Global, count: usize) -> Result<Vec<Option<u32>>, NoMemory>
    ensures { IfOk result (λ v. v.items ≡ replicate count None) }
{
    Ok(Vec::from_elem(alloc, None, count)?)
}

/// The next action of the same group, for each action.
fn next_members(alloc: Global, plan: &Plan) -> Result<Vec<u32>, NoMemory>
    ensures { IfOk result (λ v. AreNext plan.now.groups v.items) }
{
    let count = plan.len();
    let mut next = numbers(alloc, count, count as usize)?;
    let mut seen = numbers(alloc, count, count as usize)?;
    fill_next(plan, &mut next, &mut seen);
    Ok(next)
}

/// How many actions must come before each action.
fn all_awaited(alloc: Global, plan: &Plan) -> Result<Vec<u32>, NoMemory>
    ensures { IfOk result (λ v. AreAllAwaited plan.now v.items) }
{
    let count = plan.len();
    let mut awaited = numbers(alloc, 0, count as usize)?;
    count_awaited(plan, &mut awaited);
    Ok(awaited)
}

/// The least number from the given one on that isn't marked, or the number of marks.
fn first_unmarked(marks: &[bool], from: u32, count: u32) -> u32
    requires from { from ≤ count }
    requires many { count ≡ length marks.now }
    ensures inside { (from ≤ result) × (result ≤ count) }
    ensures marked { (a : ℕ) → from ≤ a → a < result → get_or marks.now a false ≡ true }
{
    for act in from..count {
        if !marks[act as usize] {
            return act;
        }
    }
    count
}

/// Writes an event, for which there is room.
fn note(trace: &mut Vec<Event>, event: Event)
    requires { length trace.old.items < vec_capacity trace.old }
    ensures items { trace.new.items ≡ trace.old.items ++ event ∷ [] }
    ensures capacity { vec_capacity trace.old ≤ vec_capacity trace.new }
{
    let _pushed = trace.push(event);
}

impl Run {
    /// The run in which nothing has started, with room for the whole trace.
    pub(crate) fn new(alloc: Global, plan: Plan, lanes: u32) -> Result<Run, NoMemory>
        ensures { IfOk result (λ r. (r.plan ≡ plan) × (r.lanes ≡ lanes) × (r.trace ≡ []) × (2 * length plan.groups ≤ r.room)) }
    {
        let count = plan.len() as usize;
        let trace = Vec::with_capacity(alloc, 2 * count)?;
        let started = marks(alloc, count)?;
        let ended = marks(alloc, count)?;
        let awaited = all_awaited(alloc, &plan)?;
        let in_the_way = numbers(alloc, 0, count)?;
        let next = next_members(alloc, &plan)?;
        let holders = free_lanes(alloc, lanes as usize)?;
        let left = plan.len();
        Ok(Run {
            plan,
            lanes,
            trace,
            started,
            ended,
            awaited,
            in_the_way,
            next,
            holders,
            first: 0,
            left,
        })
    }

    /// Looks on for the first action that hasn't started.
    pub(crate) fn skip_started(&mut self)
        ensures { self.new ≡ self.old }
    {
        self.first = first_unmarked(&self.started, self.first, self.plan.len());
    }

    /// The plan of the run.
    pub(crate) fn plan(&self) -> &Plan
        ensures { result.now ≡ self.now.plan }
    {
        &self.plan
    }

    /// The number of lanes.
    pub(crate) fn lanes(&self) -> u32
        ensures { result ≡ self.now.lanes }
    {
        self.lanes
    }

    /// The trace.
    pub(crate) fn trace(&self) -> &[Event]
        ensures value { result.now ≡ self.now.trace }
        ensures lanes { (a lane : ℕ) → StartsOn result.now a lane → lane < self.now.lanes }
    {
        &self.trace
    }

    /// A number below which every action has started.
    pub(crate) fn first(&self) -> u32
        ensures inside { result ≤ length self.now.plan.groups }
        ensures started { (a : ℕ) → a < result → Started self.now.trace a }
    {
        self.first
    }

    /// Whether every action has ended.
    pub(crate) fn all_ended(&self) -> bool
        ensures { IsTrue result ↔ ((a : ℕ) → a < length self.now.plan.groups → Ended self.now.trace a) }
    {
        self.left == 0
    }

    /// Whether the action runs.
    pub(crate) fn runs(&self, act: u32) -> bool
        ensures is { IsTrue result ↔ Runs self.now.trace act }
        ensures inside { IsTrue result → act < length self.now.plan.groups }
    {
        if act >= self.plan.len() {
            return false;
        }
        self.started[act as usize] && !self.ended[act as usize]
    }

    /// Whether the action may start, as to what started, ended and runs.
    pub(crate) fn may_join(&self, act: u32) -> bool
        requires { act < length self.now.plan.groups }
        ensures { IsTrue result ↔ MayJoin self.now.plan self.now.trace act }
    {
        if self.started[act as usize] {
            return false;
        }
        if self.awaited[act as usize] > 0 {
            return false;
        }
        self.in_the_way[act as usize] == 0
    }

    /// The next action of the same group, or the number of actions.
    pub(crate) fn next(&self, act: u32) -> u32
        requires { act < length self.now.plan.groups }
        ensures { IsNext self.now.plan.groups act result }
    {
        self.next[act as usize]
    }

    /// The running action that holds the lane.
    pub(crate) fn holder(&self, lane: u32) -> Option<u32>
        ensures { MatchOption result (IsHeld self.now.trace lane → ⊥) (λ a. StartsOn self.now.trace a lane × (Ended self.now.trace a → ⊥)) }
    {
        if lane >= self.lanes {
            return None;
        }
        self.holders[lane as usize]
    }

    /// Whether a running action holds the lane.
    pub(crate) fn is_held(&self, lane: u32) -> bool
        ensures { IsTrue result ↔ IsHeld self.now.trace lane }
    {
        self.holder(lane).is_some()
    }

    /// Starts an action that hasn't started on an idle lane.
    pub(crate) fn start(&mut self, act: u32, lane: u32, more: bool)
        requires act_in { act < length self.old.plan.groups }
        requires fresh { Started self.old.trace act → ⊥ }
        requires lane_in { lane < self.old.lanes }
        requires idle { IsHeld self.old.trace lane → ⊥ }
        requires room { length self.old.trace < self.old.room }
        ensures plan { self.new.plan ≡ self.old.plan }
        ensures lanes { self.new.lanes ≡ self.old.lanes }
        ensures trace { self.new.trace ≡ self.old.trace ++ Event.Start act lane more ∷ [] }
        ensures room { self.old.room ≤ self.new.room }
    {
        let inside = act < self.plan.len();
        prove!(inside);
        let rows = self.plan.conflict_rows();
        raise(&mut self.in_the_way, rows, act);
        self.started[act as usize] = true;
        self.holders[lane as usize] = Some(act);
        note(&mut self.trace, Event::Start { act, lane, more });
    }

    /// Ends an action that runs.
    pub(crate) fn end(&mut self, act: u32)
        requires runs { Runs self.old.trace act }
        requires room { length self.old.trace < self.old.room }
        ensures plan { self.new.plan ≡ self.old.plan }
        ensures lanes { self.new.lanes ≡ self.old.lanes }
        ensures trace { self.new.trace ≡ self.old.trace ++ Event.End act ∷ [] }
        ensures room { self.old.room ≤ self.new.room }
    {
        let must = self.plan.must_rows();
        lower(&mut self.awaited, must, act);
        let conflict = self.plan.conflict_rows();
        lower(&mut self.in_the_way, conflict, act);
        free(&mut self.holders, act);
        self.ended[act as usize] = true;
        self.left -= 1;
        note(&mut self.trace, Event::End { act });
    }
}
