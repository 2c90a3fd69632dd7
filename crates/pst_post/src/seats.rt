// The seats: tokens of no bytes, with which the book and the lanes take their steps.
ghost use Rattle.std.specs.Prelude.{◌≡◌, ◌<◌, length};

use crate::view::View;
use atomic_table::Seat;
use std::marker::Model;

/// The book's seat, with which it posts and collects, and deals and gathers the lanes' seats.
///
/// To a contract it is its table and an entry for each lane.
#[derive(Drop)]
pub struct BookSeat {
    pub(crate) seat: Seat<u8, View>,
}

impl Model for BookSeat {
    ghost use Rattle.pst_post.specs.Seats.{BookState, IsBookSeat};
    ghost use Rattle.pst_post.specs.Views.{entries_of};

    ghost Value = { BookState };

    ghost view = { λ b. record { table = b.seat.table_id; entries = entries_of b.seat.me.0 } };

    ghost invariant = { λ b. IsBookSeat b.seat.table_id b.seat.me };
}

/// A lane's seat, with which it fetches what was posted to the lane, and hands it back.
///
/// To a contract it is its table, its lane, what it fetched and handed back, and how often it found nothing.
#[derive(Drop)]
pub struct LaneSeat {
    pub(crate) seat: Seat<u8, View>,
    pub(crate) lane: u32,
}

impl Model for LaneSeat {
    ghost use Rattle.pst_post.specs.Seats.{LaneState, IsLaneSeat, lane_state};
    ghost use Rattle.pst_post.specs.Views.{lane_of};

    ghost Value = { LaneState };

    ghost view = { λ s. lane_state s.seat.table_id (lane_of s.seat.me.0) };

    ghost invariant = { λ s. IsLaneSeat s.seat.table_id s.seat.me s.lane };
}

impl BookSeat {
    /// Shows its caller's proof that the book has an entry for each lane. It does nothing.
    pub fn show_width(&self)
        ensures { length self.now.entries ≡ self.now.table.words }
    {
        let _ = &self.seat;
    }
}

impl LaneSeat {
    /// The number of its lane.
    pub fn lane(&self) -> u32
        ensures lane { result ≡ self.now.lane }
        ensures small { result < self.now.table.words }
    {
        self.lane
    }
}
