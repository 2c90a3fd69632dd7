// The mailboxes and their calls.
ghost use Rattle.std.specs.Prelude.{◌≡◌, ◌≢◌, ℕ, ◌+◌, ◌^◌, ◌<◌, ◌≤◌, [], ◌∷◌, ◌++◌, slice_index, slice_index_or, None, IfOk, IsTrue};
ghost use Rattle.std.specs.Mem.Slots.{slots_items, slots_len, IsFull};
ghost use Rattle.pst_post.specs.declared.view.SeatStatus.TheVariants.{Undealt, Out, Gathered};
ghost use Rattle.pst_post.specs.Gathered.{CollectTells, IsOutstanding};
ghost use Rattle.pst_post.specs.Rule.{word_of};
ghost use Rattle.pst_post.specs.Seats.{changed_at, fresh_book, fresh_seat, lane_entry, seat_progress};
ghost use Rattle.pst_post.specs.Steps.{IsIdle, after_collect, after_fetch, after_hand_back, after_post, with_seat};
ghost use Rattle.pst_post.specs.Views.{IfGathered};

use crate::rule::{
    Collecting, Dealing, DealtLane, Fetching, Gathering, HandingBack, MailboxRule, Posting,
};
use crate::seats::{BookSeat, LaneSeat};
use crate::view::View;
use atomic_table::{Closed, Table};
use pst_base::NoMemory;
use std::alloc::Global;
use std::marker::{Brand, Model};

/// The greatest number of lanes.
pub const MOST_LANES: usize = 16;

/// The mailboxes of some lanes, which threads share by reference.
///
/// To a contract it is the name of its table, which has a word for each lane.
#[derive(Drop)]
pub struct Post {
    table: Table<u8, View, u32, MailboxRule, Global>,
}

impl Model for Post {
    ghost use Rattle.std.specs.Prelude.{◌≡◌, ◌<◌, ◌≤◌};
    ghost use Rattle.atomic_table.specs.Seated.{TableId, table_id_coded};
    ghost use Rattle.pst_post.specs.declared.mailbox.TheConstants.{MOST_LANES};

    ghost Value = { TableId };

    ghost coded = { table_id_coded };

    ghost view = { λ p. p.table.shared.table_id };

    ghost invariant = { λ p. (0 < p.table.shared.table_id.words) × (p.table.shared.table_id.words ≤ MOST_LANES) × (p.table.shared.table_id.slots ≡ 0) };
}

impl Post {
    /// The mailboxes of so many lanes, with each word 0, and the book's seat.
    pub fn new(alloc: Global, lanes: u32) -> Result<(Post, BookSeat), NoMemory>
        requires { (0 < lanes) × (lanes ≤ MOST_LANES) }
        ensures lanes { IfOk result (λ made. made.0.words ≡ lanes) }
        ensures seat { IfOk result (λ made. made.1 ≡ fresh_book made.0 lanes) }
    {
        let words = [0u64; MOST_LANES];
        let (table, seat) = Table::of_words(alloc, &words[..lanes as usize], &lanes)?;
        Ok((Post { table }, BookSeat { seat }))
    }

    /// The number of lanes, from 1 to 16.
    pub fn lanes(&self) -> u32
        ensures lanes { result ≡ self.now.words }
        ensures few { (0 < result) × (result ≤ MOST_LANES) }
    {
        self.table.word_count() as u32
    }

    /// The seat of a lane, which is dealt once.
    pub fn deal(&self, seat: &mut BookSeat, lane: u32) -> LaneSeat
        requires table { seat.old.table ≡ self.now }
        requires lane { lane < self.now.words }
        requires once { (lane_entry seat.old lane).seat ≡ Undealt }
        ensures book { seat.new ≡ changed_at seat.old lane (with_seat Out) }
        ensures dealt { result ≡ fresh_seat self.now lane }
    {
        self.deal_lane::<Brand>(seat, lane)
    }

    // Deals the lane that L names to the proof.
    fn deal_lane<L: DealtLane>(&self, seat: &mut BookSeat, lane: u32) -> LaneSeat
        requires named { lane ≡ L.lane }
        requires table { seat.old.table ≡ self.now }
        requires lane { lane < self.now.words }
        requires once { (lane_entry seat.old lane).seat ≡ Undealt }
        ensures book { seat.new ≡ changed_at seat.old lane (with_seat Out) }
        ensures dealt { result ≡ fresh_seat self.now lane }
    {
        let dealt = self.table.shared.split_seat::<Dealing<L>>(&mut seat.seat);
        LaneSeat { seat: dealt, lane }
    }

    /// Posts an action to a lane, if the lane's word is 0. False: it isn't, and nothing was posted.
    pub fn post(&self, seat: &mut BookSeat, lane: u32, act: u32) -> bool
        requires table { seat.old.table ≡ self.now }
        requires lane { lane < self.now.words }
        ensures book { seat.new ≡ changed_at seat.old lane (after_post result act) }
        // Where all that was posted was collected, the word is 0.
        ensures idle { IsIdle (lane_entry seat.old lane) → IsTrue result }
    {
        let put = act as u64 + 1;
        let before = self
            .table
            .shared
            .compare_exchange::<Posting>(&mut seat.seat, lane as usize, 0, put);
        before == 0
    }

    /// The action in the lane's word. None: the word is 0, so nothing is posted.
    ///
    /// The lane has handed back all that it fetched before.
    pub fn fetch(&self, seat: &mut LaneSeat) -> Option<u32>
        requires table { seat.old.table ≡ self.now }
        requires idle { seat.old.fetched ≡ seat.old.finished }
        ensures { seat.new ≡ after_fetch seat.old result }
    {
        let lane = seat.lane as usize;
        let found = self.table.shared.load::<Fetching>(&mut seat.seat, lane);
        action_in(found)
    }

    /// Hands back the action that was fetched last: the lane's word is 0 again.
    pub fn hand_back(&self, seat: &mut LaneSeat)
        requires table { seat.old.table ≡ self.now }
        requires busy { (act : ℕ) × (seat.old.fetched ≡ seat.old.finished ++ act ∷ []) }
        ensures { seat.new ≡ after_hand_back seat.old }
    {
        let lane = seat.lane as usize;
        self.table
            .shared
            .swap::<HandingBack>(&mut seat.seat, lane, 0);
    }

    /// Notes that all that was posted to a lane was handed back, if the lane's word is 0. False: it isn't, and an action is out.
    pub fn collect(&self, seat: &mut BookSeat, lane: u32) -> bool
        requires table { seat.old.table ≡ self.now }
        requires lane { lane < self.now.words }
        ensures book { seat.new ≡ changed_at seat.old lane (after_collect result) }
        ensures idle { IsIdle (lane_entry seat.old lane) → IsTrue result }
        ensures gathered { IfGathered (lane_entry seat.old lane).seat (CollectTells result (lane_entry seat.old lane)) }
    {
        let found = self
            .table
            .shared
            .load::<Collecting>(&mut seat.seat, lane as usize);
        found == 0
    }

    /// Takes in the seat of a lane. The book's seat keeps what the lane fetched and handed back.
    pub fn gather(&self, seat: &mut BookSeat, lane_seat: LaneSeat)
        requires book { seat.old.table ≡ self.now }
        requires lane { lane_seat.table ≡ self.now }
        ensures { seat.new ≡ changed_at seat.old lane_seat.lane (with_seat (Gathered (seat_progress lane_seat))) }
    {
        let LaneSeat {
            seat: gathered,
            lane: _,
        } = lane_seat;
        self.table
            .shared
            .join_seat::<Gathering>(&mut seat.seat, gathered);
    }

    /// Ends the mailboxes, once every seat that was dealt is gathered. For each lane: the action that was posted and not handed back.
    pub fn close(self, seat: BookSeat) -> [Option<u32>; MOST_LANES]
        requires table { seat.table ≡ self }
        requires home { (k : ℕ) → k < self.words → (lane_entry seat k).seat ≢ Out }
        ensures each { (k : ℕ) → k < self.words → IsOutstanding (lane_entry seat k) (slice_index_or result k None) }
        ensures others { (k : ℕ) → self.words ≤ k → slice_index_or result k None ≡ None }
    {
        let Post { table } = self;
        let BookSeat { seat } = seat;
        let lanes = table.word_count();
        let closed = table.close_with(seat);
        let outstanding = actions_in(&closed, lanes);
        closed.free();
        outstanding
    }
}

// The actions in the words of so many lanes.
fn actions_in(closed: &Closed<u8, Global>, lanes: usize) -> [Option<u32>; MOST_LANES]
    requires lanes { (lanes ≤ MOST_LANES) × (slots_len closed.now.words ≡ lanes) × IsFull closed.now.words }
    requires small { (k : ℕ) → k < lanes → slice_index (slots_items closed.now.words) k ≤ 2 ^ 32 }
    ensures each { (k : ℕ) → k < lanes → slice_index (slots_items closed.now.words) k ≡ word_of (slice_index_or result k None) }
    ensures others { (k : ℕ) → lanes ≤ k → slice_index_or result k None ≡ None }
{
    let mut actions = [None; MOST_LANES];
    for lane in 0..lanes {
        actions[lane] = action_in(closed.word(lane));
    }
    actions
}

// The action that a word stands for, if there is one.
fn action_in(word: u64) -> Option<u32>
    requires { word ≤ 2 ^ 32 }
    ensures { word ≡ word_of result }
{
    if word == 0 {
        None
    } else {
        Some((word - 1) as u32)
    }
}
