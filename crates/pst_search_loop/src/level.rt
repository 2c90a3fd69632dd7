//! The first list of choices of a level that reads a legal scenario, by any walker.
ghost use Rattle.std.specs.Prelude.{◌≡◌, ℕ, ◌+◌, ◌<◌, ◌≤◌, [], ◌∷◌, length, reverse, IfOk, OnOk, Option, None, Some};
ghost use Rattle.pst_scen.specs.declared.scenario.Scenario.{Scenario};
ghost use Rattle.pst_legal.specs.ValueReading.{Options};
ghost use Rattle.pst_search_loop.specs.Kept.{Kept, answer, with_choice, Sought, Shows, IsConflict, SameKept, FactsHold};
ghost use Rattle.pst_search_loop.specs.Stack.{Stands, AllRight, ArePassed};
ghost use Rattle.pst_search_loop.specs.Search.{rank, Turns, Leaves, Says, EndsAt, Ends, IsOnward, Went, Took};

use crate::conflict::Conflict;
use crate::frame::Frame;
use crate::walker::{Judged, Look, Walker};
use pst_base::NoMemory;
use pst_list_order::live_lists_rise;
use std::alloc::Global;

/// What the search of a level comes to.
#[derive(Clone, Copy, Debug, PartialEq, Eq)]
pub enum Found {
    /// The walker stands at the least list that reads a legal scenario.
    Here,
    /// No list does.
    Nothing {
        /// Whether that is so of this level alone, as far as the search saw.
        on_level: bool,
        /// How many live lists of the budget are left.
        left: u64,
    },
    /// As many live lists were come to as the budget has, and none of them reads a legal scenario.
    Spent,
}

// Makes a choice at a place, where those before it are passed for these reasons.
fn take<W: Walker>(walker: &mut W, frames: &mut Vec<Frame>, frame: Frame) -> Result<(), NoMemory>
    requires stands { Stands (W.kept walker.old) frames.old.items }
    requires options { (s : Scenario) × (answer (W.kept walker.old) ≡ Options s frame.count) }
    requires named { frame.digit < frame.count }
    requires passed { ArePassed (W.kept walker.old) frame.reasons frame.digit }
    ensures { OnOk result (Took (W.kept walker.old) (W.kept walker.new) frames.new.items frame.digit) }
{
    walker.choose(frame.digit)?;
    frames.push(frame)?;
    Ok(())
}

// The options of a place that are skipped are passed too.
fn skip_options<W: Walker>(walker: &mut W, frame: Frame, at: usize) -> Result<Frame, NoMemory>
    requires options { (s : Scenario) × (answer (W.kept walker.old) ≡ Options s frame.count) }
    requires named { frame.digit ≤ frame.count }
    requires passed { ArePassed (W.kept walker.old) frame.reasons frame.digit }
    requires at { at ≡ length (W.kept walker.old).choices }
    ensures same { OnOk result (W.kept walker.new ≡ W.kept walker.old) }
    ensures onward { IfOk result (λ later. IsOnward (W.kept walker.old) frame later) }
{
    let mut frame = frame;
    let skipped = walker.skip(frame.digit, frame.count)?;
    frame.reasons.join(&skipped.conflict, at)?;
    frame.digit = skipped.digit;
    Ok(frame)
}

// On to the first option of a place that isn't skipped, where those before the frame's are passed. From a place
// behind its last option: a conflict of the list without it.
fn go_on<W: Walker>(walker: &mut W, frames: &mut Vec<Frame>, frame: Frame) -> Result<Look, NoMemory>
    requires stands { Stands (W.kept walker.old) frames.old.items }
    requires options { (s : Scenario) × (answer (W.kept walker.old) ≡ Options s frame.count) }
    requires named { frame.digit ≤ frame.count }
    requires passed { ArePassed (W.kept walker.old) frame.reasons frame.digit }
    ensures { IfOk result (λ shown. Went (W.kept walker.old) (W.kept walker.new) frames.new.items frame.digit shown) }
{
    let at = frames.len();
    let mut frame = skip_options(walker, frame, at)?;
    if frame.digit < frame.count {
        take(walker, frames, frame)?;
        let shown = walker.look()?;
        return Ok(shown);
    }
    let rests = walker.rests(frame.count)?;
    frame.reasons.join(&rests, at)?;
    Ok(Look::Closed(frame.reasons))
}

// To the next option of a place. From a place behind its last option: a conflict of the list without it.
fn next<W: Walker>(walker: &mut W, frames: &mut Vec<Frame>, frame: Frame) -> Result<Look, NoMemory>
    requires stands { Stands (W.kept walker.old) frames.old.items }
    requires options { (s : Scenario) × (answer (W.kept walker.old) ≡ Options s frame.count) }
    requires named { frame.digit < frame.count }
    requires passed { ArePassed (W.kept walker.old) frame.reasons (frame.digit + 1) }
    ensures { IfOk result (λ shown. Went (W.kept walker.old) (W.kept walker.new) frames.new.items (frame.digit + 1) shown) }
{
    let mut frame = frame;
    frame.digit += 1;
    go_on(walker, frames, frame)
}

// Takes the last choice back, and goes on to the next one in its place. Where the conflict doesn't
// name that place, or no option is left there, a conflict of the list without it.
fn turn<W: Walker>(
    walker: &mut W,
    frames: &mut Vec<Frame>,
    conflict: Conflict,
) -> Result<Look, NoMemory>
    requires stands { Stands (W.kept walker.old) frames.old.items }
    requires some { 0 < length frames.old.items }
    requires conflict { IsConflict (W.kept walker.old) conflict }
    ensures { IfOk result (λ shown. Turns shown (W.kept walker.old) (W.kept walker.new) frames.new.items) }
{
    let Some(mut frame) = frames.pop() else {
        return Err(NoMemory);
    };
    walker.back();
    let at = frames.len();
    if conflict.is_before(at) {
        return Ok(Look::Closed(conflict));
    }
    frame.reasons.join(&conflict, at)?;
    next(walker, frames, frame)
}

// Goes back and on until a list is live, or to the empty one.
fn leave<W: Walker>(
    walker: &mut W,
    frames: &mut Vec<Frame>,
    conflict: Conflict,
) -> Result<Look, NoMemory>
    requires stands { Stands (W.kept walker.old) frames.old.items }
    requires conflict { IsConflict (W.kept walker.old) conflict }
    ensures { IfOk result (λ shown. Leaves shown (W.kept walker.old) (W.kept walker.new) frames.new.items) }
{
    let mut conflict = conflict;
    while !frames.is_empty() {
        match turn(walker, frames, conflict)? {
            Look::Closed(next) => conflict = next,
            shown => return Ok(shown),
        }
    }
    Ok(Look::Closed(conflict))
}

// One choice more, and on past what is closed.
fn deepen<W: Walker>(
    alloc: Global,
    walker: &mut W,
    frames: &mut Vec<Frame>,
    count: u64,
) -> Result<Look, NoMemory>
    requires stands { Stands (W.kept walker.old) frames.old.items }
    requires options { (s : Scenario) × (answer (W.kept walker.old) ≡ Options s count) }
    ensures { IfOk result (λ shown. Says (Some shown) (W.kept walker.old) (W.kept walker.new) frames.new.items) }
{
    let frame = Frame {
        digit: 0,
        count,
        reasons: Conflict::nothing(alloc),
    };
    match go_on(walker, frames, frame)? {
        Look::Closed(conflict) => leave(walker, frames, conflict),
        shown => Ok(shown),
    }
}

// From a list to the next live one; none where the list reads a legal scenario.
fn step<W: Walker>(
    alloc: Global,
    walker: &mut W,
    frames: &mut Vec<Frame>,
    shown: Look,
) -> Result<Option<Look>, NoMemory>
    requires stands { Stands (W.kept walker.old) frames.old.items }
    requires shows { Shows (W.kept walker.old) shown }
    ensures { IfOk result (λ next. Says next (W.kept walker.old) (W.kept walker.new) frames.new.items) }
{
    match shown {
        Look::Options(count) => Ok(Some(deepen(alloc, walker, frames, count)?)),
        Look::Whole => match walker.judge()? {
            Judged::Legal => Ok(None),
            Judged::Refused(conflict) => Ok(Some(leave(walker, frames, conflict)?)),
        },
        Look::Closed(conflict) => Ok(Some(leave(walker, frames, conflict)?)),
    }
}

// At the last live list that the budget allows: whether it reads a legal scenario.
fn end_at<W: Walker>(walker: &W, shown: &Look) -> Result<Found, NoMemory>
    requires { Shows (W.kept walker.now) shown.now }
    ensures { IfOk result (λ found. EndsAt found (W.kept walker.now)) }
{
    let Look::Whole = shown else {
        return Ok(Found::Spent);
    };
    match walker.judge()? {
        Judged::Legal => Ok(Found::Here),
        Judged::Refused(_) => Ok(Found::Spent),
    }
}

/// Searches a level from the empty list on, past at most so many live lists. The last of them may read the scenario.
pub fn search_level<W: Walker>(
    alloc: Global,
    walker: &mut W,
    budget: u64,
) -> Result<Found, NoMemory>
    requires facts { FactsHold (W.kept walker.old).facts }
    requires start { (W.kept walker.old).choices ≡ [] }
    ensures { IfOk result (λ found. Ends found (W.kept walker.old) (W.kept walker.new) budget) }
{
    live_lists_rise();
    let mut frames = Vec::new(alloc);
    let mut shown = walker.look()?;
    for spent in 0..budget {
        match step(alloc, walker, &mut frames, shown)? {
            None => return Ok(Found::Here),
            Some(next) => match next {
                Look::Closed(conflict) => {
                    return Ok(Found::Nothing {
                        on_level: conflict.on_level,
                        left: budget - spent,
                    });
                }
                live => shown = live,
            },
        }
    }
    let found = end_at(walker, &shown)?;
    Ok(found)
}
