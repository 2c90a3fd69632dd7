//! Marks of the actions that have started, and of those that have ended.
ghost use Rattle.std.specs.Prelude.{◌++◌, ◌∷◌, [], List};
ghost use Rattle.pst_scen.specs.declared.event.Event.{Event};
ghost use Rattle.pst_check.specs.Marks.{AreMarks, AreUnset, IsMarked};

use pst_scen::Event;

/// The number of actions that have marks.
const MARKED: usize = 16384;

/// Marks, none of which is set.
pub(crate) fn unmarked() -> [bool; MARKED]
    ensures { AreUnset result }
{
    [false; MARKED]
}

/// Sets the mark of the action, where there is one.
fn mark(marks: &mut [bool], a: u32)
    ensures { IsMarked a marks.old marks.new }
{
    if (a as usize) < marks.len() {
        marks[a as usize] = true;
    }
}

/// Marks the action of an event.
fn note_one(started: &mut [bool], ended: &mut [bool], event: Event)
    ensures { (past : List Event) → AreMarks past started.old ended.old → AreMarks (past ++ event ∷ []) started.new ended.new }
{
    match event {
        Event::Start { act, .. } => mark(started, act),
        Event::End { act } => mark(ended, act),
    }
}

/// Marks the actions of the events.
pub(crate) fn note(started: &mut [bool], ended: &mut [bool], part: &[Event])
    ensures { (past : List Event) → AreMarks past started.old ended.old → AreMarks (past ++ part.now) started.new ended.new }
{
    for i in 0..part.len() {
        note_one(started, ended, part[i]);
    }
}
