//! The worker of a lane.
ghost use Rattle.std.specs.Prelude.{◌≡◌, ◌<◌, ◌≤◌};
ghost use Rattle.pst_model.specs.ModelView.{view_model};
ghost use Rattle.pst_model.specs.Sound.{IsSound};
ghost use Rattle.pst_body.specs.Ran.{HasTypes};
ghost use Rattle.pst_post.specs.Seats.{fresh_seat};
ghost use Rattle.pst_workers.specs.Told.{told};
ghost use Rattle.pst_workers.specs.Worked.{Worked};

use crate::leave::Leave;
use crate::shared::SharedDesk;
use pst_body::{BodyEnd, run_body};
use pst_desk::Name;
use pst_model::Model;
use pst_post::{LaneSeat, Post};
use pst_scen::Scenario;
use pst_target::{Gate, Target};
use std::alloc::Global;
use std::sync::Wait;

/// What bodies are run with: the model and the scenario, and the gate that a worker passes before each.
#[derive(Drop)]
pub struct Job<'s, G: Gate> {
    /// What memory is taken from.
    pub alloc: Global,
    /// The model.
    pub model: &'s Model,
    /// The scenario.
    pub scenario: &'s Scenario,
    /// The gate.
    pub gate: &'s G,
}

/// An action whose body didn't end, and why.
#[derive(Clone, Copy)]
pub struct Broken {
    /// The action.
    pub action: u32,
    /// Why its body didn't end.
    pub end: BodyEnd,
}

/// What a worker gives back.
#[derive(Drop)]
pub struct Returned<N: Name, T: Target> {
    /// The lane.
    pub lane: T,
    /// The lane's seat at the mailboxes.
    pub seat: LaneSeat,
    /// The body that didn't end, if there was one.
    pub stop: Option<Broken>,
    /// With what it left. Where a body didn't end, the desk was stopped.
    pub leave: Leave<N>,
}

/// Runs what is posted to the lane, until nothing more comes or a body doesn't end, and then stops the run.
pub(crate) fn work<N: Name, T: Target, G: Gate, R: Wait>(
    rt: &R,
    job: &Job<'_, G>,
    post: &Post,
    desk: &SharedDesk<'_, N>,
    lane: T,
    seat: LaneSeat,
) -> Returned<N, T>
    requires sound { IsSound (view_model job.now.model.now) }
    requires types { HasTypes (view_model job.now.model.now) job.now.scenario.now }
    requires post { post.now ≡ N.table }
    requires lanes { N.table.words ≡ N.lanes }
    requires seat { seat ≡ fresh_seat N.table seat.lane }
    ensures { Worked (view_model job.now.model.now) job.now.scenario.now N.table seat.lane (told T.calls T.faults lane) (told T.calls T.faults result.lane) result.seat result.stop result.leave }
{
    let mut lane = lane;
    let mut seat = seat;
    let number = seat.lane();
    for _ in rt.forever() {
        let action = match desk.next(rt, post, &mut seat) {
            Ok(action) => action,
            Err(leave) => {
                return Returned {
                    lane,
                    seat,
                    stop: None,
                    leave,
                };
            }
        };
        // There is no such action, so no body of it is run.
        if action as usize >= job.scenario.actions.as_slice().len() {
            return Returned {
                lane,
                seat,
                stop: None,
                leave: desk.stop(rt),
            };
        }
        job.gate.pass(number);
        if let Err(end) = run_body(job.alloc, job.model, job.scenario, action, &mut lane) {
            let leave = desk.stop(rt);
            return Returned {
                lane,
                seat,
                stop: Some(Broken { action, end }),
                leave,
            };
        }
        post.hand_back(&mut seat);
    }
    unreachable!()
}
