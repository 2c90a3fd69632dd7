//! The run on one lane.
ghost use Rattle.std.specs.Prelude.{◌≡◌, ◌↔◌, ◌*◌, ◌<◌, ◌≤◌, ◌^◌, [], length};
ghost use Rattle.pst_scen.specs.Trace.{IsWhole};
ghost use Rattle.pst_scen.specs.Plan.{widest};
ghost use Rattle.pst_scen.specs.Plans.{IsPlanOf};
ghost use Rattle.pst_order.specs.Facts.{LinksStates};
ghost use Rattle.pst_model.specs.ModelView.{view_model};
ghost use Rattle.pst_model.specs.Sound.{IsSound};
ghost use Rattle.pst_body.specs.Ran.{HasTypes};
ghost use Rattle.pst_exec.specs.Alone.{RunsAlone, IsNarrow};
ghost use Rattle.pst_exec.specs.Steps.{IsSerial, StartsNext, RunsNext, RanRest};

use crate::ending::{RunEnd, broken};
use pst_base::NoMemory;
use pst_body::{BodyEnd, run_body};
use pst_book::Book;
use pst_model::Model;
use pst_scen::{Plan, Scenario};
use pst_target::Target;
use std::alloc::Global;

/// An action whose body didn't end, and why.
#[derive(Clone, Copy)]
struct Broken {
    action: u32,
    end: BodyEnd,
}

/// Starts the next action of a book on one lane in which nothing runs and something is left.
fn start(book: &mut Book<'_>) -> u32
    requires serial { IsSerial book.old }
    requires left { IsWhole book.old.scenario book.old.trace → ⊥ }
    ensures starts { StartsNext book.old book.new result }
    ensures fits { length book.new.trace ≤ 2 * length book.new.scenario.actions }
{
    let _opened = book.open();
    match book.running_on(0) {
        Some(action) => action,
        None => unreachable!(),
    }
}

/// Runs the next action of a book on one lane in which nothing runs and something is left.
fn run_next<T: Target>(
    alloc: Global,
    model: &Model,
    scenario: &Scenario,
    book: &mut Book<'_>,
    lane: &mut T,
) -> Result<(), Broken>
    requires sound { IsSound (view_model model.now) }
    requires types { HasTypes (view_model model.now) scenario.now }
    requires of { book.old.scenario ≡ scenario.now }
    requires serial { IsSerial book.old }
    requires left { IsWhole book.old.scenario book.old.trace → ⊥ }
    ensures runs { RunsNext (view_model model.now) book.old book.new (T.calls lane.old) (T.calls lane.new) (T.faults lane.old) (T.faults lane.new) result }
    ensures fits { length book.new.trace ≤ 2 * length book.new.scenario.actions }
{
    let action = start(book);
    match run_body(alloc, model, scenario, action, lane) {
        Ok(()) => {
            let _ended = book.end(action);
            Ok(())
        }
        Err(end) => Err(Broken { action, end }),
    }
}

/// Runs one action after another until each has ended, or the body of one doesn't end.
fn run_rest<T: Target>(
    alloc: Global,
    model: &Model,
    scenario: &Scenario,
    book: &mut Book<'_>,
    lane: &mut T,
) -> Result<(), Broken>
    requires sound { IsSound (view_model model.now) }
    requires types { HasTypes (view_model model.now) scenario.now }
    requires of { book.old.scenario ≡ scenario.now }
    requires lanes { book.old.lanes ≡ 1 }
    requires fresh { book.old.trace ≡ [] }
    ensures { RanRest (view_model model.now) book.old book.new (T.calls lane.old) (T.calls lane.new) (T.faults lane.old) (T.faults lane.new) result }
{
    'actions: while !book.finished() {
        run_next(alloc, model, scenario, book, lane)?;
    }
    Ok(())
}

/// Runs a scenario on one lane, one action after another, in the order in which the book starts them.
///
/// The model is sound, each action of the scenario is of a type that there is, and the plan is the scenario's, which has fewer
/// than 2^31 actions. Links of state references lead to outputs of the same pool, and no two outputs to one pool have the same link.
/// `Narrow` comes exactly where the widest group has more than one member, before any call. Where all
/// bodies end, the book holds the whole trace. Where a lane fails or a body traps, it holds the trace up to the start of that
/// action. The calls made stay in the lane's list, behind those before.
pub fn run_one<'a, T: Target>(
    alloc: Global,
    model: &Model,
    scenario: &'a Scenario,
    plan: &'a Plan,
    lane: &mut T,
) -> Result<Book<'a>, RunEnd<'a>>
    requires sound { IsSound (view_model model.now) }
    requires types { HasTypes (view_model model.now) scenario.now }
    requires links { LinksStates scenario.now }
    requires planned { IsPlanOf scenario.now plan.now }
    requires small { length scenario.now.actions < 2 ^ 31 }
    ensures runs { RunsAlone (view_model model.now) scenario.now plan.now (T.calls lane.old) (T.calls lane.new) (T.faults lane.old) (T.faults lane.new) result }
    ensures narrow { IsNarrow result ↔ (1 < widest plan.now.groups) }
{
    let need = plan.width();
    if need > 1 {
        return Err(RunEnd::Narrow { need, have: 1 });
    }
    let Ok(mut book) = Book::new(alloc, scenario, plan, 1) else {
        return Err(RunEnd::NoMemory);
    };
    let ran = run_rest(alloc, model, scenario, &mut book, lane);
    let _made_by_the_core = book.trace();
    match ran {
        Ok(()) => Ok(book),
        Err(stop) => Err(broken(book, 0, stop.action, stop.end)),
    }
}
