//! What the events before a block say.
ghost use Rattle.std.specs.Prelude.{◌≡◌, ◌↔◌, ◌&&◌, IsTrue, nat_eq, slice_get};
ghost use Rattle.std.specs.List.{list_any};
ghost use Rattle.pst_scen.specs.Trace.{Started, Ended, Runs, IsHeld, last_after, last_writer, writes_pool, is_state_output};
ghost use Rattle.pst_check.specs.Tests.{AtSome, StartsAct, EndsAct, HoldsLane};
ghost use Rattle.pst_check.specs.Marks.{AreMarks};

use pst_scen::{Event, Filled, Flow, Scenario};
use std::marker::Model;

/// The events before a block, with marks of the actions that have started and of those that have
/// ended. Of an action whose number has no mark the events are read.
#[derive(Drop)]
pub(crate) struct Past<'a> {
    events: &'a [Event],
    started: &'a [bool],
    ended: &'a [bool],
}

impl<'a> Model for Past<'a> {
    ghost use Rattle.std.specs.Prelude.{List};
    ghost use Rattle.pst_scen.specs.declared.event.Event.{Event};
    ghost use Rattle.pst_check.specs.Marks.{AreMarks};

    ghost Value = { List Event };

    ghost view = { λ p. p.events.now };

    ghost invariant = { λ p. AreMarks p.events.now p.started.now p.ended.now };
}

fn starts(event: Event, a: u32) -> bool
    ensures { IsTrue result ↔ StartsAct a event }
{
    match event {
        Event::Start { act, .. } => act == a,
        Event::End { .. } => false,
    }
}

fn ends(event: Event, a: u32) -> bool
    ensures { IsTrue result ↔ EndsAct a event }
{
    match event {
        Event::Start { .. } => false,
        Event::End { act } => act == a,
    }
}

fn finds_start(past: &[Event], a: u32) -> bool
    ensures { IsTrue result ↔ AtSome past.now (StartsAct a) }
{
    for i in 0..past.len() {
        if starts(past[i], a) {
            return true;
        }
    }
    false
}

fn finds_end(past: &[Event], a: u32) -> bool
    ensures { IsTrue result ↔ AtSome past.now (EndsAct a) }
{
    for i in 0..past.len() {
        if ends(past[i], a) {
            return true;
        }
    }
    false
}

fn reads_start(past: &[Event], a: u32) -> bool
    ensures { IsTrue result ↔ Started past.now a }
{
    finds_start(past, a)
}

fn reads_end(past: &[Event], a: u32) -> bool
    ensures { IsTrue result ↔ Ended past.now a }
{
    finds_end(past, a)
}

impl<'a> Past<'a> {
    /// These events, with their marks.
    pub(crate) fn new(events: &'a [Event], started: &'a [bool], ended: &'a [bool]) -> Past<'a>
        requires { AreMarks events.now started.now ended.now }
        ensures { result ≡ events.now }
    {
        Past {
            events,
            started,
            ended,
        }
    }

    fn events(&self) -> &[Event]
        ensures { result.now ≡ self.now }
    {
        self.events
    }

    fn has_started(&self, a: u32) -> bool
        ensures { IsTrue result ↔ Started self.now a }
    {
        if a as usize >= self.started.len() {
            return reads_start(self.events, a);
        }
        self.started[a as usize]
    }

    fn has_ended(&self, a: u32) -> bool
        ensures { IsTrue result ↔ Ended self.now a }
    {
        if a as usize >= self.ended.len() {
            return reads_end(self.events, a);
        }
        self.ended[a as usize]
    }
}

/// Whether the action has started.
pub(crate) fn has_started(past: &Past<'_>, a: u32) -> bool
    ensures { IsTrue result ↔ Started past.now a }
{
    past.has_started(a)
}

/// Whether the action has ended.
pub(crate) fn has_ended(past: &Past<'_>, a: u32) -> bool
    ensures { IsTrue result ↔ Ended past.now a }
{
    past.has_ended(a)
}

/// Whether the action has started and hasn't ended.
pub(crate) fn runs(past: &Past<'_>, a: u32) -> bool
    ensures { IsTrue result ↔ Runs past.now a }
{
    if !has_started(past, a) {
        return false;
    }
    !has_ended(past, a)
}

fn holds(past: &Past<'_>, lane: u32, event: Event) -> bool
    ensures { IsTrue result ↔ HoldsLane past.now lane event }
{
    match event {
        Event::Start {
            act,
            lane: used,
            ..
        } => used == lane && !has_ended(past, act),
        Event::End { .. } => false,
    }
}

fn finds_holder(past: &Past<'_>, events: &[Event], lane: u32) -> bool
    ensures { IsTrue result ↔ AtSome events.now (HoldsLane past.now lane) }
{
    for i in 0..events.len() {
        if holds(past, lane, events[i]) {
            return true;
        }
    }
    false
}

/// Whether a running action holds the lane.
pub(crate) fn is_held(past: &Past<'_>, lane: u32) -> bool
    ensures { IsTrue result ↔ IsHeld past.now lane }
{
    finds_holder(past, past.events(), lane)
}

fn is_output(filled: &Filled) -> bool
    ensures { result ≡ is_state_output filled.now.flow }
{
    match filled.flow {
        Flow::StateOut => true,
        _ => false,
    }
}

/// Whether a reference writes the state pool.
fn has_output(references: &[Filled], pool: u32) -> bool
    ensures { result ≡ list_any (λ filled. is_state_output filled.flow && nat_eq filled.pool pool) references.now }
{
    references
        .iter()
        .any(|filled| is_output(filled) && filled.pool == pool)
}

/// Whether the action, if it is there, writes the state pool.
fn writes(scenario: &Scenario, a: u32, pool: u32) -> bool
    ensures { result ≡ writes_pool (slice_get scenario.now.actions a) pool }
{
    match scenario.actions.as_slice().get(a as usize) {
        Some(act) => has_output(act.references.as_slice(), pool),
        None => false,
    }
}

/// The last writer of the pool that ended, behind one more event.
fn last_after(scenario: &Scenario, pool: u32, last: Option<u32>, event: Event) -> Option<u32>
    ensures { result ≡ last_after scenario.now pool last event }
{
    match event {
        Event::Start { .. } => last,
        Event::End { act } => {
            if writes(scenario, act, pool) {
                Some(act)
            } else {
                last
            }
        }
    }
}

fn reads_last_writer(scenario: &Scenario, pool: u32, past: &[Event]) -> Option<u32>
    ensures { result ≡ last_writer scenario.now pool past.now }
{
    let mut last = None;
    for i in 0..past.len() {
        last = last_after(scenario, pool, last, past[i]);
    }
    last
}

/// The last writer of the pool that ended.
pub(crate) fn last_writer(scenario: &Scenario, pool: u32, past: &Past<'_>) -> Option<u32>
    ensures { result ≡ last_writer scenario.now pool past.now }
{
    reads_last_writer(scenario, pool, past.events())
}
