//! Posting the actions that started.
ghost use Rattle.std.specs.Prelude.{◌≡◌, ◌↔◌, ◌+◌, ◌<◌, ◌≤◌, ℕ, length, slice_index_or, false, IsTrue};
ghost use Rattle.pst_scen.specs.Trace.{IsHeld, Prefix};
ghost use Rattle.pst_post.specs.Seats.{changed_at, lane_entry};
ghost use Rattle.pst_lanes.specs.Lanes.{starts_on};
ghost use Rattle.pst_desk.specs.Turning.{AreHeld, ArePosted, IsDue, posted_total, with_posted};

use pst_book::Book;
use pst_lanes::lanes_run_one;
use pst_post::{BookSeat, MOST_LANES, Post};
use pst_scen::prefixes_are_legal;

/// Whether a running action holds the lane.
fn is_held(book: &Book<'_>, lane: u32) -> bool
    ensures { IsTrue result ↔ IsHeld book.now.trace lane }
{
    book.running_on(lane).is_some()
}

/// Which lanes are held by running actions.
pub(crate) fn held_lanes(book: &Book<'_>, lanes: u32) -> [bool; MOST_LANES]
    requires { lanes ≤ 16 }
    ensures { AreHeld lanes book.now.trace result }
{
    let mut held = [false; MOST_LANES];
    for lane in 0..lanes {
        held[lane as usize] = is_held(book, lane);
    }
    held
}

/// Posts the action that started on the lane, unless the lane was held before, and counts it.
fn post_lane(post: &Post, book: &Book<'_>, seat: &mut BookSeat, lane: u32, held: bool) -> u32
    requires table { seat.old.table ≡ post.now }
    requires lane { lane < post.now.words }
    requires prefix { Prefix book.now.scenario book.now.lanes book.now.trace }
    requires due { IsDue book.now.trace lane (lane_entry seat.old lane) held }
    ensures seat { seat.new ≡ changed_at seat.old lane (with_posted (starts_on lane book.now.trace)) }
    ensures count { length (starts_on lane book.now.trace) ≡ length (lane_entry seat.old lane).posted + result }
    ensures one { result ≤ 1 }
{
    if held {
        return 0;
    }
    prefixes_are_legal();
    lanes_run_one();
    match book.running_on(lane) {
        Some(act) => { if post.post(seat, lane, act) { 1 } else { 0 } }
        None => 0,
    }
}

/// Posts the actions that started on lanes that weren't held before, and counts them.
pub(crate) fn post_all(
    post: &Post,
    book: &Book<'_>,
    seat: &mut BookSeat,
    held: &[bool; MOST_LANES],
) -> u32
    requires table { seat.old.table ≡ post.now }
    requires prefix { Prefix book.now.scenario book.now.lanes book.now.trace }
    requires due { (lane : ℕ) → lane < post.now.words → IsDue book.now.trace lane (lane_entry seat.old lane) (slice_index_or held.now lane false) }
    ensures table { seat.new.table ≡ seat.old.table }
    ensures posted { ArePosted post.now.words book.now.trace seat.old.entries seat.new.entries }
    ensures total { posted_total seat.new.entries ≡ posted_total seat.old.entries + result }
{
    seat.show_width();
    let mut posted = 0;
    for lane in 0..post.lanes() {
        posted += post_lane(post, book, seat, lane, held[lane as usize]);
    }
    posted
}
