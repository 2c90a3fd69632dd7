//! The desk.
ghost use Rattle.std.specs.Prelude.{◌≡◌, ◌+◌, ◌<◌, ◌++◌, ◌∷◌, [], ℕ, length, false, true, IsTrue};
ghost use Rattle.pst_scen.specs.Trace.{Prefix};
ghost use Rattle.pst_post.specs.Seats.{lane_entry, seat_progress};
ghost use Rattle.pst_post.specs.Steps.{with_seat};
ghost use Rattle.pst_post.specs.Views.{entry_at, IfGathered};
ghost use Rattle.pst_post.specs.declared.view.SeatStatus.TheVariants.{Gathered};
ghost use Rattle.pst_book.specs.Books.{IsShut};
ghost use Rattle.pst_desk.specs.Desks.{AreTied, book_of, entries_changed, seat_of, with_entries};
ghost use Rattle.pst_desk.specs.Ended.{Collected, IsReturned};
ghost use Rattle.pst_desk.specs.Turning.{ArePosted, OpensGroups, posted_total};
ghost use Rattle.pst_lanes.specs.Lanes.{starts_on};

use crate::name::Name;
use crate::opening::open_all;
use crate::posting::{held_lanes, post_all};
use pst_book::Book;
use pst_lanes::{acts_start_once, lanes_run_one};
use pst_post::{BookSeat, LaneSeat, Post};
use pst_scen::prefixes_are_legal;
use std::marker::{Model, PhantomData};

/// What a turn did.
#[derive(Clone, Copy, Debug, PartialEq, Eq)]
pub struct Turned {
    /// How many groups started.
    pub opened: u32,
    /// How many actions were posted.
    pub posted: u32,
}

/// The book of a run and its seat at the mailboxes.
///
/// Contracts see it as its trace, the entries of its seat and whether it is stopped. The scenario,
/// the plan, the number of lanes and the table are those of its name. The trace begins a whole
/// legal trace, and on each lane the posted actions are those that start there and the ended ones
/// those that end there.
#[derive(Drop)]
pub struct Desk<'a, N: Name> {
    book: Book<'a>,
    seat: BookSeat,
    stopped: bool,
    name: PhantomData<N>,
}

impl<'a, N: Name> Model for Desk<'a, N> {
    ghost use Rattle.std.specs.Prelude.{◌≡◌};
    ghost use Rattle.pst_scen.specs.Trace.{Prefix};
    ghost use Rattle.pst_desk.specs.Desks.{AreTied, DeskView, book_of, seat_of};

    ghost Value = { DeskView };

    ghost view = { λ d. record { trace = d.book.trace; entries = d.seat.entries; stopped = d.stopped } };

    ghost invariant = { λ d. (d.book ≡ book_of N.scenario N.plan N.lanes d.book.trace) × (d.seat ≡ seat_of N.table d.seat.entries) × Prefix N.scenario N.lanes d.book.trace × AreTied N.lanes d.book.trace d.seat.entries };
}

impl<'a, N: Name> Desk<'a, N> {
    /// The desk of a book in which nothing has started, and of a seat with which nothing was posted
    /// or collected. The book and the seat are those of the name.
    pub fn new(book: Book<'a>, seat: BookSeat) -> Desk<'a, N>
        requires book { book ≡ book_of N.scenario N.plan N.lanes [] }
        requires table { seat.table ≡ N.table }
        requires fresh { (lane : ℕ) → lane < N.lanes → ((lane_entry seat lane).posted ≡ []) × ((lane_entry seat lane).ended ≡ []) }
        ensures { result ≡ record { trace = []; entries = seat.entries; stopped = false } }
    {
        let _trace = book.trace();
        Desk {
            book,
            seat,
            stopped: false,
            name: PhantomData,
        }
    }

    /// Opens groups until none can start, unless the desk is stopped, and posts the actions that
    /// started to their lanes. It tells how many groups started and how many actions were posted.
    pub fn turn(&mut self, post: &Post) -> Turned
        requires post { post.now ≡ N.table }
        requires lanes { N.table.words ≡ N.lanes }
        ensures opens { OpensGroups N.scenario N.lanes self.old.trace result.opened self.new.trace }
        ensures stopped { IsTrue self.old.stopped → (result.opened ≡ 0) × (self.new.trace ≡ self.old.trace) }
        ensures shut { self.old.stopped ≡ false → IsShut (book_of N.scenario N.plan N.lanes self.new.trace) }
        ensures posted { ArePosted N.lanes self.new.trace self.old.entries self.new.entries }
        ensures total { posted_total self.new.entries ≡ posted_total self.old.entries + result.posted }
        ensures stays { self.new.stopped ≡ self.old.stopped }
    {
        prefixes_are_legal();
        acts_start_once();
        lanes_run_one();
        let held = held_lanes(&self.book, post.lanes());
        let opened = open_all(&mut self.book, self.stopped);
        let _trace = self.book.trace();
        let posted = post_all(post, &self.book, &mut self.seat, &held);
        Turned { opened, posted }
    }

    /// Collects a lane. Where an action that was posted to it runs and was handed back, its end is
    /// recorded, and the answer is true. Where the lane's seat was gathered, what has ended of it
    /// afterwards is what it handed back.
    pub fn ended(&mut self, post: &Post, lane: u32) -> bool
        requires post { post.now ≡ N.table }
        requires lanes { N.table.words ≡ N.lanes }
        requires lane { lane < N.lanes }
        ensures collected { Collected result self.old self.new lane }
        ensures gathered { IfGathered (entry_at self.old.entries lane).seat (IsReturned (entry_at self.new.entries lane)) }
    {
        prefixes_are_legal();
        acts_start_once();
        lanes_run_one();
        self.seat.show_width();
        let running = self.book.running_on(lane);
        if !post.collect(&mut self.seat, lane) {
            return false;
        }
        match running {
            Some(act) => {
                let _recorded = self.book.end(act);
                let _trace = self.book.trace();
                true
            }
            None => false,
        }
    }

    /// Takes in the seat of a lane.
    pub fn gather(&mut self, post: &Post, lane_seat: LaneSeat)
        requires post { post.now ≡ N.table }
        requires lanes { N.table.words ≡ N.lanes }
        requires seat { lane_seat.table ≡ N.table }
        ensures { self.new ≡ with_entries self.old (entries_changed self.old.entries lane_seat.lane (with_seat (Gathered (seat_progress lane_seat)))) }
    {
        self.seat.show_width();
        post.gather(&mut self.seat, lane_seat);
    }

    /// Shows its caller's proof that it has an entry for each lane. It does nothing.
    pub fn show_width(&self)
        ensures { length self.now.entries ≡ N.table.words }
    {
        self.seat.show_width();
    }

    /// Stops it: from now on no group starts.
    pub fn stop(&mut self)
        ensures { self.new ≡ record { trace = self.old.trace; entries = self.old.entries; stopped = true } }
    {
        self.stopped = true;
    }

    /// Whether it is stopped.
    pub fn stopped(&self) -> bool
        ensures { result ≡ self.now.stopped }
    {
        self.stopped
    }

    /// The book of the run.
    pub fn book(&self) -> &Book<'a>
        ensures book { result.now ≡ book_of N.scenario N.plan N.lanes self.now.trace }
        ensures prefix { Prefix N.scenario N.lanes self.now.trace }
        ensures tied { AreTied N.lanes self.now.trace self.now.entries }
    {
        &self.book
    }

    /// The book and its seat, when the run is over.
    pub fn finish(self) -> (Book<'a>, BookSeat)
        ensures book { result.0 ≡ book_of N.scenario N.plan N.lanes self.entry.trace }
        ensures seat { result.1 ≡ seat_of N.table self.entry.entries }
        ensures prefix { Prefix N.scenario N.lanes self.entry.trace }
        ensures tied { AreTied N.lanes self.entry.trace self.entry.entries }
    {
        let Desk {
            book,
            seat,
            stopped: _,
            name: _,
        } = self;
        (book, seat)
    }
}
