//! Lines of blocks, and the last line.
ghost use Rattle.std.specs.Prelude.{◌≡◌, ◌++◌, false, string_bytes, IfOk, OnOk};
ghost use Rattle.pst_trace_texts.specs.Texts.{event_text, goes_on, events_text, last_line};

use pst_base::NoMemory;
use pst_scen::Event;
use pst_trace_texts::Last;

/// Adds an event, behind others of its block where one has begun. Says whether the block goes on.
fn write_event(text: &mut String, begun: bool, event: &Event) -> Result<bool, NoMemory>
    ensures text { OnOk result (string_bytes text.new ≡ string_bytes text.old ++ event_text begun event.now) }
    ensures goes_on { IfOk result (λ more. more ≡ goes_on event.now) }
{
    match event {
        Event::Start { act, lane, more } => {
            text.push_str(if begun { "" } else { "start" })?;
            write!(text, " {act}:{lane}")?;
            text.push_str(if *more { "" } else { "\n" })?;
            Ok(*more)
        }
        Event::End { act } => {
            write!(text, "end {act}\n")?;
            Ok(false)
        }
    }
}

/// Adds a line for each block.
pub(crate) fn write_events(text: &mut String, events: &[Event]) -> Result<(), NoMemory>
    ensures { OnOk result (string_bytes text.new ≡ string_bytes text.old ++ events_text false events.now) }
{
    let mut begun = false;
    for event in events {
        begun = write_event(text, begun, event)?;
    }
    Ok(())
}

/// Adds the last line of a text of so many actions.
pub(crate) fn write_last(text: &mut String, count: usize, last: Last) -> Result<(), NoMemory>
    ensures { OnOk result (string_bytes text.new ≡ string_bytes text.old ++ last_line count last) }
{
    match last {
        Last::Done => Ok(write!(text, "done {count}\n")?),
        Last::Solved => Ok(write!(text, "solved {count}\n")?),
        Last::Fault { lane, action, call } => Ok(write!(text, "fault {lane} {action} {call}\n")?),
        Last::Trap { lane, action, kind } => Ok(write!(text, "trap {lane} {action} {kind}\n")?),
    }
}
