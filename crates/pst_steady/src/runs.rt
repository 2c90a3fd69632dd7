//! Handles that activities one behind another traverse exactly once.
ghost use Rattle.std.specs.Prelude.{◌≡◌, ◌+◌, ◌<◌, Some, IfOk, OnOk, IsTrue, length, slice_get, if◌then◌else◌};
ghost use Rattle.std.specs.HashMap.{get};
ghost use Rattle.pst_steady.specs.Run;
ghost use Rattle.pst_steady.specs.Run.{AreOnce, AreRuns, same_run};

use crate::lineage::is_once_by;
use crate::ranges::Range;
use crate::reach::value_at;
use pst_ast::ActionNode;
use pst_base::{NameId, NoMemory};
use pst_traversals::{TallyKey, Traversed, list_traversals, own_activity};
use std::alloc::Global;
use std::collections::HashMap;

/// The number of an activity or body, and that of the name of a handle.
#[derive(Clone, Copy, PartialEq, Eq, Hash)]
pub struct RunKey {
    /// The number of the activity or body.
    pub at: usize,
    /// The number of the handle's name.
    pub handle: u32,
}

// The key of an activity or body and a handle.
fn run_key(at: usize, handle: NameId) -> RunKey
    ensures { result ≡ Run.run_key at handle }
{
    RunKey {
        at,
        handle: handle.0,
    }
}

/// The end of the activities from one on that traverse a handle exactly once.
pub fn run_at(runs: &HashMap<RunKey, usize>, at: usize, handle: NameId) -> Option<usize>
    ensures { result ≡ get same_run runs.now (Run.run_key at handle) }
{
    runs.get(&run_key(at, handle)).copied()
}

// The end of those behind one.
fn end_behind(
    runs: &HashMap<RunKey, usize>,
    tallies: &HashMap<TallyKey, bool>,
    slots: &[Option<usize>],
    at: usize,
    handle: NameId,
) -> usize
    requires within { at < length slots.now }
    requires runs { AreRuns tallies.now slots.now runs.now }
    ensures { AreOnce tallies.now slots.now handle (at + 1) result }
{
    match run_at(runs, at + 1, handle) {
        None => at + 1,
        Some(end) => end,
    }
}

// Keeps an end at its key.
fn keep_end(runs: &mut HashMap<RunKey, usize>, key: RunKey, end: usize) -> Result<(), NoMemory>
    ensures { OnOk result ((q : RunKey) → get same_run runs.new q ≡ (if same_run key q then Some end else get same_run runs.old q)) }
{
    runs.insert(key, end)?;
    Ok(())
}

// Keeps the end of the activities from one on, where it traverses a handle exactly once.
fn note_run(
    runs: &mut HashMap<RunKey, usize>,
    tallies: &HashMap<TallyKey, bool>,
    slots: &[Option<usize>],
    at: usize,
    action: usize,
    handle: NameId,
) -> Result<(), NoMemory>
    requires there { slice_get slots.now at ≡ Some (Some action) }
    requires runs { AreRuns tallies.now slots.now runs.old }
    ensures { OnOk result (AreRuns tallies.now slots.now runs.new) }
{
    if at >= slots.len() || !is_once_by(tallies, action, handle) {
        return Ok(());
    }
    let end = end_behind(runs, tallies, slots, at, handle);
    keep_end(runs, run_key(at, handle), end)
}

// The same of each handle that is traversed.
fn note_traversed(
    runs: &mut HashMap<RunKey, usize>,
    tallies: &HashMap<TallyKey, bool>,
    slots: &[Option<usize>],
    at: usize,
    action: usize,
    traversals: &[Traversed],
) -> Result<(), NoMemory>
    requires there { slice_get slots.now at ≡ Some (Some action) }
    requires runs { AreRuns tallies.now slots.now runs.old }
    ensures { OnOk result (AreRuns tallies.now slots.now runs.new) }
{
    for traversed in traversals {
        note_run(runs, tallies, slots, at, action, traversed.handle)?;
    }
    Ok(())
}

// The traversals in the activity of a number.
fn traversals_at(
    alloc: Global,
    actions: &[&ActionNode],
    action: usize,
) -> Result<Vec<Traversed>, NoMemory> {
    let Some(node) = actions.get(action) else {
        return Ok(Vec::new(alloc));
    };
    match own_activity(node) {
        None => Ok(Vec::new(alloc)),
        Some(statements) => list_traversals(alloc, statements),
    }
}

// Keeps the ends for the activity at a number.
fn note_at(
    alloc: Global,
    runs: &mut HashMap<RunKey, usize>,
    tallies: &HashMap<TallyKey, bool>,
    slots: &[Option<usize>],
    actions: &[&ActionNode],
    at: usize,
) -> Result<(), NoMemory>
    requires runs { AreRuns tallies.now slots.now runs.old }
    ensures { OnOk result (AreRuns tallies.now slots.now runs.new) }
{
    match value_at(slots, at) {
        None => Ok(()),
        Some(action) => {
            let traversals = traversals_at(alloc, actions, action)?;
            note_traversed(runs, tallies, slots, at, action, traversals.as_slice())
        }
    }
}

/// For the number of each activity, and each handle that it traverses exactly once, where the
/// activities end that do so without one between that doesn't.
pub fn runs_of(
    alloc: Global,
    tallies: &HashMap<TallyKey, bool>,
    slots: &[Option<usize>],
    actions: &[&ActionNode],
) -> Result<HashMap<RunKey, usize>, NoMemory>
    ensures { IfOk result (λ runs. AreRuns tallies.now slots.now runs) }
{
    let mut runs = HashMap::new(alloc);
    for back in 0..slots.len() {
        note_at(
            alloc,
            &mut runs,
            tallies,
            slots,
            actions,
            slots.len() - 1 - back,
        )?;
    }
    Ok(runs)
}

/// Whether all activities of a range are known to traverse a handle exactly once.
pub fn are_once(
    runs: &HashMap<RunKey, usize>,
    tallies: &HashMap<TallyKey, bool>,
    slots: &[Option<usize>],
    range: Range,
    handle: NameId,
) -> bool
    requires runs { AreRuns tallies.now slots.now runs.now }
    ensures { IsTrue result → AreOnce tallies.now slots.now handle range.first range.end }
{
    if range.first >= range.end {
        return true;
    }
    match run_at(runs, range.first, handle) {
        None => false,
        Some(end) => range.end <= end,
    }
}
