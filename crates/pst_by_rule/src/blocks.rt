//! The blocks of a trace.
ghost use Rattle.std.specs.Prelude.{◌≡◌, ◌<◌, ◌≤◌, length, take, drop};
ghost use Rattle.pst_by_rule.specs.Blocks.{act_of, lane_of, goes_on, block_length, AreOnward, IsFirstBlock};

use pst_scen::Event;

/// The action of an event.
pub fn act_of(event: Event) -> u32
    ensures { result ≡ act_of event }
{
    match event {
        Event::Start { act, .. } => act,
        Event::End { act } => act,
    }
}

/// The lane of a start.
pub fn lane_of(event: Event) -> u32
    ensures { result ≡ lane_of event }
{
    match event {
        Event::Start { lane, .. } => lane,
        Event::End { .. } => 0,
    }
}

/// Whether the next event belongs to the same block.
fn goes_on(event: Event) -> bool
    ensures { result ≡ goes_on event }
{
    match event {
        Event::Start { more, .. } => more,
        Event::End { .. } => false,
    }
}

/// How many events come up to the first with which a block ends.
fn count_first(events: &[Event]) -> usize
    ensures { result ≡ block_length events.now }
{
    for i in 0..events.len() {
        if !goes_on(events[i]) {
            return i + 1;
        }
    }
    events.len()
}

/// The number of events of the first block.
pub fn first_block(events: &[Event]) -> usize
    requires blocks { AreOnward events.now }
    requires some { 0 < length events.now }
    ensures { IsFirstBlock events.now result }
{
    count_first(events)
}

/// The first so many events.
pub fn front(events: &[Event], count: usize) -> &[Event]
    requires { count ≤ length events.now }
    ensures { result.now ≡ take count events.now }
{
    &events[..count]
}

/// The events behind the first so many.
pub fn behind(events: &[Event], count: usize) -> &[Event]
    requires { count ≤ length events.now }
    ensures { result.now ≡ drop count events.now }
{
    &events[count..]
}
