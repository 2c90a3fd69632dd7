//! The desk of a run behind its lock, and where the workers sleep.
ghost use Rattle.std.specs.Prelude.{◌≡◌, ◌<◌, ◌≤◌, ◌++◌, ◌∷◌, [], length, true, MatchOption, MatchResult};

use crate::leave::Leave;
use crate::signals::Signals;
use pst_desk::{Desk, Name};
use pst_post::{LaneSeat, MOST_LANES, Post};
use pst_scen::Event;
use std::sync::{Mutex, Wait};

/// The desk of a run behind its lock, with the signals on which the workers sleep.
#[derive(Drop)]
pub struct SharedDesk<'a, N: Name> {
    desk: Mutex<Desk<'a, N>>,
    signals: Signals,
}

// The lanes but the worker's own on which actions start in the events behind the first ones.
fn starts_elsewhere(trace: &[Event], before: usize, own: u32) -> [bool; MOST_LANES]
    requires { before ≤ length trace.now }
{
    let mut started = [false; MOST_LANES];
    for event in &trace[before..] {
        if let Event::Start { lane, .. } = event {
            if *lane != own {
                if let Some(here) = started.get_mut(*lane as usize) {
                    *here = true;
                }
            }
        }
    }
    started
}

// Records the end of what the lane handed back, and opens and posts what can start then. It tells which other lanes can go on: those
// on which actions started, or all, where nothing more comes. Where the lane handed nothing back, nothing changes.
fn move_on<N: Name>(desk: &mut Desk<'_, N>, post: &Post, lane: u32) -> [bool; MOST_LANES]
    requires post { post.now ≡ N.table }
    requires lanes { N.table.words ≡ N.lanes }
    requires lane { lane < N.lanes }
{
    if !desk.ended(post, lane) {
        return [false; MOST_LANES];
    }
    let before = desk.book().trace().len();
    let _turned = desk.turn(post);
    if desk.stopped() || desk.book().finished() {
        return [true; MOST_LANES];
    }
    starts_elsewhere(desk.book().trace(), before, lane)
}

// The leave of a desk from which nothing more comes. None: more may come.
fn leave_of<N: Name>(desk: &Desk<'_, N>) -> Option<Leave<N>> {
    if desk.stopped() || desk.book().finished() {
        return Some(Leave::of(desk));
    }
    None
}

// What is posted to the lane, which it fetches, or else the leave of a desk from which nothing more comes. None: more may come.
fn look<N: Name>(
    desk: &Desk<'_, N>,
    post: &Post,
    seat: &mut LaneSeat,
) -> Option<Result<u32, Leave<N>>>
    requires post { seat.old.table ≡ post.now }
    requires idle { seat.old.fetched ≡ seat.old.finished }
    ensures table { seat.new.table ≡ seat.old.table }
    ensures lane { seat.new.lane ≡ seat.old.lane }
    ensures finished { seat.new.finished ≡ seat.old.finished }
    ensures fetched { MatchOption result (seat.new.fetched ≡ seat.old.fetched) (λ found. MatchResult found (λ act. seat.new.fetched ≡ seat.old.fetched ++ act ∷ []) (λ _. seat.new.fetched ≡ seat.old.fetched)) }
{
    if let Some(act) = post.fetch(seat) {
        return Some(Ok(act));
    }
    match leave_of(desk) {
        Some(leave) => Some(Err(leave)),
        None => None,
    }
}

// Stops the desk.
fn stop_desk<N: Name>(desk: &mut Desk<'_, N>) -> Leave<N>
    ensures { result ≡ true }
{
    desk.stop();
    Leave::of(desk)
}

impl<'a, N: Name> SharedDesk<'a, N> {
    /// Puts a desk behind a lock.
    pub fn new(desk: Desk<'a, N>) -> SharedDesk<'a, N> {
        SharedDesk {
            desk: Mutex::new(desk),
            signals: Signals::new(),
        }
    }

    /// The desk, once no worker shares it any more.
    pub fn into_desk(self) -> Desk<'a, N> {
        let SharedDesk { desk, signals: _ } = self;
        desk.into_inner()
    }

    /// Records the end of what the lane handed back, opens what can start then, and fetches what is posted to the lane, under one
    /// hold of the lock. Then it wakes the other lanes that can go on. Where nothing is posted to the lane, it waits until something
    /// is. Err: nothing more comes, since the run is stopped or over.
    pub(crate) fn next<R: Wait>(
        &self,
        rt: &R,
        post: &Post,
        seat: &mut LaneSeat,
    ) -> Result<u32, Leave<N>>
        requires post { post.now ≡ N.table }
        requires lanes { N.table.words ≡ N.lanes }
        requires seat { seat.old.table ≡ N.table }
        requires idle { seat.old.fetched ≡ seat.old.finished }
        ensures table { seat.new.table ≡ seat.old.table }
        ensures lane { seat.new.lane ≡ seat.old.lane }
        ensures finished { seat.new.finished ≡ seat.old.finished }
        ensures fetched { MatchResult result (λ act. seat.new.fetched ≡ seat.old.fetched ++ act ∷ []) (λ _. seat.new.fetched ≡ seat.old.fetched) }
    {
        let lane = seat.lane();
        let (found, can_go_on) = {
            let mut guard = self.desk.lock(rt);
            let can_go_on = move_on(&mut *guard, post, lane);
            (look(&*guard, post, seat), can_go_on)
        };
        self.signals.wake(&can_go_on);
        match found {
            Some(found) => found,
            None => self.wait(rt, post, seat),
        }
    }

    // Waits until an action is posted to the lane, and fetches it. It looks under the lock, under which actions are posted, so no
    // wake-up falls between.
    fn wait<R: Wait>(&self, rt: &R, post: &Post, seat: &mut LaneSeat) -> Result<u32, Leave<N>>
        requires post { seat.old.table ≡ post.now }
        requires idle { seat.old.fetched ≡ seat.old.finished }
        ensures table { seat.new.table ≡ seat.old.table }
        ensures lane { seat.new.lane ≡ seat.old.lane }
        ensures finished { seat.new.finished ≡ seat.old.finished }
        ensures fetched { MatchResult result (λ act. seat.new.fetched ≡ seat.old.fetched ++ act ∷ []) (λ _. seat.new.fetched ≡ seat.old.fetched) }
    {
        let lane = seat.lane();
        let mut guard = self.desk.lock(rt);
        for _ in rt.forever() {
            if let Some(found) = look(&*guard, post, seat) {
                return found;
            }
            guard = self.signals.wait(rt, lane, guard);
        }
        unreachable!()
    }

    /// Stops the run: no group starts any more. It wakes all workers, which find it out.
    pub(crate) fn stop<R: Wait>(&self, rt: &R) -> Leave<N>
        ensures { result ≡ true }
    {
        let leave = {
            let mut guard = self.desk.lock(rt);
            stop_desk(&mut *guard)
        };
        self.signals.wake(&[true; MOST_LANES]);
        leave
    }
}
