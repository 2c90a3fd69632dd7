//! What the caller does alone, once the workers have given their lanes back.
ghost use Rattle.std.specs.Prelude.{◌≡◌, ℕ, ◌*◌, ◌<◌, ◌≤◌, length, slice_index_or, IfErr, OnOk};
ghost use Rattle.pst_scen.specs.Trace.{IsWhole};
ghost use Rattle.pst_lanes.specs.Lanes.{starts_on, ends_on};
ghost use Rattle.pst_model.specs.ModelView.{view_model};
ghost use Rattle.pst_model.specs.Sound.{IsSound};
ghost use Rattle.pst_body.specs.Ran.{HasTypes};
ghost use Rattle.pst_workers.specs.Told.{Told, told, LaneRan};
ghost use Rattle.pst_run_many.specs.Alone.{FinishesLane, GoesOn, HasOpened};
ghost use Rattle.pst_run_many.specs.Stops.{Came, stop_of};

use crate::stop::LaneStop;
use pst_body::run_body;
use pst_book::Book;
use pst_lanes::{acts_start_once, lanes_run_one};
use pst_scen::prefixes_are_legal;
use pst_target::{Gate, Target};
use pst_workers::{Broken, Job};

/// Runs the body of the action that runs on the lane by the book, if there is one, and records its end.
fn finish_lane<T: Target, G: Gate>(
    job: &Job<'_, G>,
    book: &mut Book<'_>,
    number: u32,
    lane: &mut T,
) -> Result<(), LaneStop>
    requires sound { IsSound (view_model job.now.model.now) }
    requires types { HasTypes (view_model job.now.model.now) job.now.scenario.now }
    requires of { book.old.scenario ≡ job.now.scenario.now }
    ensures { FinishesLane (view_model job.now.model.now) job.now.scenario.now number book.old book.new (told T.calls T.faults lane.old) (told T.calls T.faults lane.new) result }
{
    prefixes_are_legal();
    acts_start_once();
    lanes_run_one();
    let _trace = book.trace();
    match book.running_on(number) {
        None => Ok(()),
        Some(action) => match run_body(job.alloc, job.model, job.scenario, action, lane) {
            Ok(()) => {
                let _ended = book.end(action);
                Ok(())
            }
            Err(end) => Err(LaneStop {
                lane: number,
                broken: Broken { action, end },
            }),
        },
    }
}

/// Runs all that runs by the book, each action on its lane, up to a body that doesn't end.
fn finish_lanes<T: Target, G: Gate>(
    job: &Job<'_, G>,
    book: &mut Book<'_>,
    lanes: &mut [T],
) -> Result<(), LaneStop>
    requires sound { IsSound (view_model job.now.model.now) }
    requires types { HasTypes (view_model job.now.model.now) job.now.scenario.now }
    requires of { book.old.scenario ≡ job.now.scenario.now }
    requires lanes { length lanes.old ≡ book.old.lanes }
    ensures goes_on { GoesOn book.old book.new }
    ensures count { length lanes.new ≡ length lanes.old }
    ensures inside { IfErr result (λ stop. stop.lane < length lanes.old) }
    ensures idle { OnOk result ((k : ℕ) → k < length lanes.old → starts_on k book.new.trace ≡ ends_on k book.new.trace) }
    ensures came { (k : ℕ) (d e : _) (before : Told) → k < length lanes.old → LaneRan (view_model job.now.model.now) job.now.scenario.now (ends_on k book.old.trace) before (told T.calls T.faults (slice_index_or lanes.old k d))
        → Came (view_model job.now.model.now) job.now.scenario.now (stop_of result) k (starts_on k book.new.trace) (ends_on k book.new.trace) before (told T.calls T.faults (slice_index_or lanes.new k e)) }
{
    for number in 0..book.lanes() {
        finish_lane(job, book, number, &mut lanes[number as usize])?;
    }
    Ok(())
}

/// Starts a group, where nothing runs and something is left.
fn open_next(book: &mut Book<'_>)
    requires idle { (k : ℕ) → k < book.old.lanes → starts_on k book.old.trace ≡ ends_on k book.old.trace }
    requires left { IsWhole book.old.scenario book.old.trace → ⊥ }
    ensures opens { HasOpened book.old book.new }
    ensures fits { length book.new.trace ≤ 2 * length book.new.scenario.actions }
{
    prefixes_are_legal();
    acts_start_once();
    let _trace = book.trace();
    let _opened = book.open();
}

/// Goes on alone: runs all that runs, and opens what can start, by turns, until every action has ended or a body doesn't end.
pub(crate) fn finish_run<T: Target, G: Gate>(
    job: &Job<'_, G>,
    book: &mut Book<'_>,
    lanes: &mut [T],
) -> Result<(), LaneStop>
    requires sound { IsSound (view_model job.now.model.now) }
    requires types { HasTypes (view_model job.now.model.now) job.now.scenario.now }
    requires of { book.old.scenario ≡ job.now.scenario.now }
    requires lanes { length lanes.old ≡ book.old.lanes }
    ensures goes_on { GoesOn book.old book.new }
    ensures count { length lanes.new ≡ length lanes.old }
    ensures inside { IfErr result (λ stop. stop.lane < length lanes.old) }
    ensures idle { OnOk result ((k : ℕ) → k < length lanes.old → starts_on k book.new.trace ≡ ends_on k book.new.trace) }
    ensures whole { OnOk result (IsWhole job.now.scenario.now book.new.trace) }
    ensures came { (k : ℕ) (d e : _) (before : Told) → k < length lanes.old → LaneRan (view_model job.now.model.now) job.now.scenario.now (ends_on k book.old.trace) before (told T.calls T.faults (slice_index_or lanes.old k d))
        → Came (view_model job.now.model.now) job.now.scenario.now (stop_of result) k (starts_on k book.new.trace) (ends_on k book.new.trace) before (told T.calls T.faults (slice_index_or lanes.new k e)) }
{
    finish_lanes(job, book, lanes)?;
    'actions: while !book.finished() {
        open_next(book);
        finish_lanes(job, book, lanes)?;
    }
    Ok(())
}
