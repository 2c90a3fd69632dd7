//! What the workers give back comes home.
ghost use Rattle.std.specs.Prelude.{◌≡◌, ◌≢◌, ℕ, ◌<◌, ◌≤◌, IfSome, vec_len};
ghost use Rattle.std.specs.Vec.{vec_capacity};
ghost use Rattle.pst_post.specs.Seats.{seat_progress};
ghost use Rattle.pst_post.specs.Views.{entry_at};
ghost use Rattle.pst_model.specs.ModelView.{view_model};
ghost use Rattle.pst_workers.specs.Told.{told};
ghost use Rattle.pst_workers.specs.Worked.{Worked, Forwards};
ghost use Rattle.pst_run_many.specs.Gathered.{IsHome, IsSettled};
ghost use Rattle.pst_run_many.specs.Stops.{Came};

use crate::stop::{LaneStop, earlier};
use pst_desk::{Desk, Name};
use pst_post::{LaneSeat, Post};
use pst_target::{Gate, Target};
use pst_workers::{Job, Returned, SeatedLane};
use std::snapshot::Snapshot;

// The desk takes in the seat of a lane, and records what ended there.
fn gather_one<N: Name>(post: &Post, desk: &mut Desk<'_, N>, seat: LaneSeat)
    requires post { post.now ≡ N.table }
    requires lanes { N.table.words ≡ N.lanes }
    requires seat { seat.table ≡ N.table }
    ensures here { IsSettled (seat_progress seat) (entry_at desk.new.entries seat.lane) }
    ensures others { (k : ℕ) → k ≢ seat.lane → entry_at desk.new.entries k ≡ entry_at desk.old.entries k }
{
    let lane = seat.lane();
    desk.show_width();
    desk.gather(post, seat);
    let _ended = desk.ended(post, lane);
}

/// The desk takes in all seats, and the lanes come back in their order. It answers the lane that is told.
pub(crate) fn gather_all<N: Name, T: Target, G: Gate>(
    job: &Job<'_, G>,
    post: &Post,
    desk: &mut Desk<'_, N>,
    returned: Vec<Returned<N, T>>,
    lanes: &mut Vec<T>,
    crew: Snapshot<Vec<SeatedLane<T>>>,
) -> Option<LaneStop>
    requires post { post.now ≡ N.table }
    requires lanes { N.table.words ≡ N.lanes }
    requires room { (vec_len lanes.old ≡ 0) × (vec_len returned ≤ vec_capacity lanes.old) }
    requires each { Forwards (λ k m r. Worked (view_model job.now.model.now) job.now.scenario.now N.table k (told T.calls T.faults m.lane) (told T.calls T.faults r.lane) r.seat r.stop r.leave) returned.items crew.value.items }
    ensures count { vec_len lanes.new ≡ vec_len returned }
    ensures room { vec_capacity lanes.new ≡ vec_capacity lanes.old }
    ensures home { (k : ℕ) → k < vec_len returned → IsHome (entry_at desk.new.entries k) }
    ensures inside { IfSome result (λ first. first.lane < vec_len returned) }
    ensures came { Forwards (λ k m t. Came (view_model job.now.model.now) job.now.scenario.now result k (entry_at desk.new.entries k).posted (entry_at desk.new.entries k).ended (told T.calls T.faults m.lane) (told T.calls T.faults t)) lanes.new.items crew.value.items }
{
    let mut first = None;
    for worker in returned {
        let Returned {
            lane,
            seat,
            stop,
            leave: _,
        } = worker;
        first = earlier(first, stop, seat.lane());
        gather_one(post, desk, seat);
        lanes.push_reserved(lane);
    }
    drop(crew);
    first
}
