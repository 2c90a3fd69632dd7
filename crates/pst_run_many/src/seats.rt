//! The seats of the lanes.
ghost use Rattle.std.specs.Prelude.{◌≡◌, ℕ, ◌+◌, ◌<◌, ◌≤◌, [], ◌++◌, length, vec_len, slice_index_or, take, drop};
ghost use Rattle.std.specs.Vec.{vec_capacity};
ghost use Rattle.std.specs.Vec.Iter.{into_iter_items, into_iter_len};
ghost use Rattle.pst_post.specs.Seats.{fresh_book, fresh_seat, lane_entry};

use pst_post::{BookSeat, Post};
use pst_target::Target;
use pst_workers::SeatedLane;
use std::vec::IntoIter;

/// Gives each of the first lanes, as many as there are mailboxes, a seat. The other lanes are left.
pub(crate) fn seat_lanes<T: Target>(
    post: &Post,
    seat: &mut BookSeat,
    lanes: &mut IntoIter<T>,
    crew: Vec<SeatedLane<T>>,
) -> Vec<SeatedLane<T>>
    requires seat { seat.old ≡ fresh_book post.now post.now.words }
    requires lanes { post.now.words ≤ into_iter_len lanes.old }
    requires room { (vec_len crew ≡ 0) × (post.now.words ≤ vec_capacity crew) }
    ensures table { seat.new.table ≡ post.now }
    ensures fresh { (k : ℕ) → k < post.now.words → ((lane_entry seat.new k).posted ≡ []) × ((lane_entry seat.new k).ended ≡ []) }
    ensures count { vec_len result ≡ post.now.words }
    ensures seats { (k : ℕ) (d : _) → k < vec_len result → (slice_index_or result.items k d).seat ≡ fresh_seat post.now k }
    ensures lanes { (k : ℕ) (d e : _) → k < vec_len result → (slice_index_or result.items k d).lane ≡ slice_index_or (into_iter_items lanes.old) k e }
    ensures rest { into_iter_items lanes.new ≡ drop post.now.words (into_iter_items lanes.old) }
{
    let mut crew = crew;
    for number in 0..post.lanes() {
        let Some(lane) = lanes.next() else {
            unreachable!()
        };
        let seated = SeatedLane {
            lane,
            seat: post.deal(seat, number),
        };
        crew.push_reserved(seated);
    }
    crew
}

/// Puts lanes behind those that stand there.
pub(crate) fn put_behind<T: Target>(lanes: &mut Vec<T>, rest: IntoIter<T>)
    requires room { vec_len lanes.old + into_iter_len rest ≤ vec_capacity lanes.old }
    ensures { lanes.new.items ≡ lanes.old.items ++ into_iter_items rest }
{
    for lane in rest {
        lanes.push_reserved(lane);
    }
}
