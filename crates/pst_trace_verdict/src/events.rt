//! The last line of a trace, compared with its events.
ghost use Rattle.std.specs.Prelude.{◌≡◌, ◌↔◌, IsTrue};
ghost use Rattle.std.specs.List.{list_any};
ghost use Rattle.pst_scen.specs.Trace.{StartsOn, Ended, IsWhole};
ghost use Rattle.pst_trace_texts.specs.Texts.{goes_on as goes_on_behind};
ghost use Rattle.pst_trace_verdict.specs.Events as spec;

use pst_scen::{Event, Scenario};
use pst_trace_lines::LastLine;

/// Whether the event starts the action on the lane.
fn starts_it(event: Event, action: u32, lane: u32) -> bool
    ensures { result ≡ spec.starts_it action lane event }
{
    match event {
        Event::Start {
            act: other,
            lane: used,
            ..
        } => other == action && used == lane,
        Event::End { act: _ } => false,
    }
}

/// Whether the event ends the action.
fn ends_it(event: Event, action: u32) -> bool
    ensures { result ≡ spec.ends_it action event }
{
    match event {
        Event::Start { .. } => false,
        Event::End { act: other } => other == action,
    }
}

/// Whether the event is the last of its block.
fn ends_block(event: Event) -> bool
    ensures { result ≡ spec.ends_block event }
{
    match event {
        Event::Start { more, .. } => !more,
        Event::End { .. } => true,
    }
}

/// How many blocks the events are.
pub(crate) fn count_blocks(events: &[Event]) -> usize
    ensures { result ≡ spec.count_blocks events.now }
{
    events.iter().filter(|event| ends_block(**event)).count()
}

/// Whether an event starts the action on the lane.
fn some_starts(events: &[Event], action: u32, lane: u32) -> bool
    ensures { result ≡ list_any (spec.starts_it action lane) events.now }
{
    events.iter().any(|event| starts_it(*event, action, lane))
}

/// Whether an event ends the action.
fn some_ends(events: &[Event], action: u32) -> bool
    ensures { result ≡ list_any (spec.ends_it action) events.now }
{
    events.iter().any(|event| ends_it(*event, action))
}

/// Whether the action runs on the lane behind the events.
fn runs_on(events: &[Event], action: u32, lane: u32) -> bool
    ensures { IsTrue result ↔ spec.RunsOn events.now action lane }
{
    let starts = some_starts(events, action, lane);
    let ends = some_ends(events, action);
    starts && !ends
}

/// Whether the last line fits events behind which all actions have ended, or not all.
pub(crate) fn fits(scenario: &Scenario, events: &[Event], last: LastLine, whole: bool) -> bool
    requires { IsTrue whole ↔ IsWhole scenario.now events.now }
    ensures { IsTrue result ↔ spec.Fits scenario.now events.now last }
{
    match last {
        LastLine::Done { actions } => whole
            && actions as usize == scenario.actions.as_slice().len(),
        LastLine::Fault { lane, action, .. } => runs_on(events, action, lane),
        LastLine::Trap { lane, action, .. } => runs_on(events, action, lane),
    }
}
