//! The run on several lanes.
ghost use Rattle.std.specs.Prelude.{◌≡◌, ◌↔◌, ℕ, ◌+◌, ◌<◌, ◌≤◌, ◌^◌, [], length, vec_len, slice_index_or, drop, IfOk, IfSome, List};
ghost use Rattle.std.specs.Vec.{vec_capacity};
ghost use Rattle.pst_scen.specs.Plan.{widest};
ghost use Rattle.pst_scen.specs.Plans.{IsPlanOf};
ghost use Rattle.pst_order.specs.Facts.{LinksStates};
ghost use Rattle.pst_model.specs.ModelView.{view_model};
ghost use Rattle.pst_model.specs.Sound.{IsSound};
ghost use Rattle.pst_lanes.specs.Lanes.{starts_on, ends_on};
ghost use Rattle.pst_body.specs.Ran.{HasTypes};
ghost use Rattle.pst_post.specs.Seats.{fresh_book, fresh_seat, lane_entry};
ghost use Rattle.pst_desk.specs.Desks.{book_of};
ghost use Rattle.pst_exec.specs.Alone.{IsNarrow};
ghost use Rattle.pst_workers.specs.Told.{Told, told, told_of, lane_at};
ghost use Rattle.pst_run_many.specs.Many.{RunsMany};
ghost use Rattle.pst_run_many.specs.Stops.{Came};

use crate::alone::finish_run;
use crate::gathering::gather_all;
use crate::seats::{put_behind, seat_lanes};
use crate::stop::{LaneStop, end_at};
use pst_base::NoMemory;
use pst_book::Book;
use pst_desk::{Desk, Name};
use pst_exec::RunEnd;
use pst_model::Model;
use pst_post::{BookSeat, Post};
use pst_scen::{Plan, Scenario, prefixes_are_legal};
use pst_target::{Gate, Target};
use pst_workers::{Begun, Job, Returned, SeatedLane, SharedDesk, run_workers};
use std::alloc::{AllocError, Global};
use std::marker::Brand;
use std::mem;
use std::snapshot::Snapshot;
use std::sync::Wait;
use std::thread::Threads;

// The lists that a run on several lanes fills. Three have room for the lanes of the run, the last one for all that were handed in.
#[derive(Drop)]
struct Room<N: Name, T: Target> {
    crew: Vec<SeatedLane<T>>,
    begun: Vec<Begun<N, T>>,
    returned: Vec<Returned<N, T>>,
    back: Vec<T>,
}

// Room for so many lanes of a run, of so many that were handed in.
fn room_for<N: Name, T: Target>(
    alloc: Global,
    count: usize,
    all: usize,
) -> Result<Room<N, T>, AllocError>
    ensures empty { IfOk result (λ r. (vec_len r.crew ≡ 0) × (vec_len r.begun ≡ 0) × (vec_len r.returned ≡ 0) × (vec_len r.back ≡ 0)) }
    ensures room { IfOk result (λ r. (vec_capacity r.crew ≡ count) × (vec_capacity r.begun ≡ count) × (vec_capacity r.returned ≡ count) × (vec_capacity r.back ≡ all)) }
{
    Ok(Room {
        crew: Vec::with_capacity(alloc, count)?,
        begun: Vec::with_capacity(alloc, count)?,
        returned: Vec::with_capacity(alloc, count)?,
        back: Vec::with_capacity(alloc, all)?,
    })
}

// The workers run what they can, and the lanes come back in their order. It answers the book and the lane that is told.
fn run_together<
    'a,
    N: Name + Send + Sync,
    T: Target + Send,
    G: Gate + Sync,
    R: Threads + Wait + Sync,
>(
    rt: &R,
    job: &Job<'_, G>,
    post: Post,
    seat: BookSeat,
    book: Book<'a>,
    crew: Vec<SeatedLane<T>>,
    begun: Vec<Begun<N, T>>,
    returned: Vec<Returned<N, T>>,
    lanes: &mut Vec<T>,
) -> (Book<'a>, Option<LaneStop>)
    requires sound { IsSound (view_model job.now.model.now) }
    requires types { HasTypes (view_model job.now.model.now) job.now.scenario.now }
    requires post { (post ≡ N.table) × (N.table.words ≡ N.lanes) }
    requires book { book ≡ book_of N.scenario N.plan N.lanes [] }
    requires seat { seat.table ≡ N.table }
    requires fresh { (k : ℕ) → k < N.lanes → ((lane_entry seat k).posted ≡ []) × ((lane_entry seat k).ended ≡ []) }
    requires count { vec_len crew ≡ N.lanes }
    requires crew { (k : ℕ) (d : _) → k < vec_len crew → (slice_index_or crew.items k d).seat ≡ fresh_seat N.table k }
    requires begun { (vec_len begun ≡ 0) × (vec_len crew ≤ vec_capacity begun) }
    requires returned { (vec_len returned ≡ 0) × (vec_len crew ≤ vec_capacity returned) }
    requires room { (vec_len lanes.old ≡ 0) × (vec_len crew ≤ vec_capacity lanes.old) }
    ensures book { result.0 ≡ book_of N.scenario N.plan N.lanes result.0.trace }
    ensures count { vec_len lanes.new ≡ N.lanes }
    ensures room { vec_capacity lanes.new ≡ vec_capacity lanes.old }
    ensures inside { IfSome result.1 (λ first. first.lane < N.lanes) }
    ensures came { (k : ℕ) (d e : _) → k < N.lanes → Came (view_model job.now.model.now) job.now.scenario.now result.1 k (starts_on k result.0.trace) (ends_on k result.0.trace)
        (told T.calls T.faults (slice_index_or crew.items k d).lane) (told T.calls T.faults (slice_index_or lanes.new.items k e)) }
{
    let was = Snapshot::of(&crew);
    let mut desk: Desk<'a, N> = Desk::new(book, seat);
    let _turned = desk.turn(&post);
    let shared = SharedDesk::new(desk);
    let all = run_workers(rt, job, &post, &shared, crew, begun, returned);
    let mut desk = shared.into_desk();
    let first = gather_all(job, &post, &mut desk, all, lanes, was);
    let (book, seat) = desk.finish();
    let _outstanding = post.close(seat);
    (book, first)
}

// How a run ends whose workers have given their lanes back: as the lane says that is told, or as the caller finds it alone.
fn end_run<'a, T: Target, G: Gate>(
    job: &Job<'_, G>,
    book: Book<'a>,
    lanes: &mut [T],
    first: Option<LaneStop>,
) -> Result<Book<'a>, RunEnd<'a>>
    requires sound { IsSound (view_model job.now.model.now) }
    requires types { HasTypes (view_model job.now.model.now) job.now.scenario.now }
    requires of { book.scenario ≡ job.now.scenario.now }
    requires lanes { length lanes.old ≡ book.lanes }
    requires inside { IfSome first (λ stop. stop.lane < book.lanes) }
    ensures count { length lanes.new ≡ length lanes.old }
    ensures runs { (before after : List Told)
        → ((k : ℕ) (d : _) → k < length lanes.old → Came (view_model job.now.model.now) job.now.scenario.now first k (starts_on k book.entry.trace) (ends_on k book.entry.trace) (lane_at before k) (told T.calls T.faults (slice_index_or lanes.old k d)))
        → ((k : ℕ) (d : _) → k < length lanes.old → lane_at after k ≡ told T.calls T.faults (slice_index_or lanes.new k d))
        → RunsMany (view_model job.now.model.now) job.now.scenario.now book.entry.plan book.entry.lanes before after result }
    ensures narrow { IsNarrow result → ⊥ }
{
    prefixes_are_legal();
    let mut book = book;
    match first {
        Some(stop) => {
            let _stopped = book.trace();
            let told = end_at(book, stop);
            Err(told)
        }
        None => {
            let finished = finish_run(job, &mut book, lanes);
            let _ended = book.trace();
            match finished {
                Ok(()) => Ok(book),
                Err(stop) => {
                    let found = end_at(book, stop);
                    Err(found)
                }
            }
        }
    }
}

// A run of which the desk has a name, in lists that have room for it.
fn run_in<'a, N: Name + Send + Sync, T: Target + Send, G: Gate + Sync, R: Threads + Wait + Sync>(
    rt: &R,
    job: &Job<'_, G>,
    post: Post,
    seat: BookSeat,
    book: Book<'a>,
    lanes: &mut Vec<T>,
    room: Room<N, T>,
) -> Result<Book<'a>, RunEnd<'a>>
    requires sound { IsSound (view_model job.now.model.now) }
    requires types { HasTypes (view_model job.now.model.now) job.now.scenario.now }
    requires scenario { N.scenario ≡ job.now.scenario.now }
    requires post { (post ≡ N.table) × (N.table.words ≡ N.lanes) }
    requires seat { seat ≡ fresh_book N.table N.lanes }
    requires book { book ≡ book_of N.scenario N.plan N.lanes [] }
    requires lanes { N.lanes ≤ length lanes.old.items }
    requires empty { (vec_len room.crew ≡ 0) × (vec_len room.begun ≡ 0) × (vec_len room.returned ≡ 0) × (vec_len room.back ≡ 0) }
    requires room { (vec_capacity room.crew ≡ N.lanes) × (vec_capacity room.begun ≡ N.lanes) × (vec_capacity room.returned ≡ N.lanes) × (vec_capacity room.back ≡ length lanes.old.items) }
    ensures runs { RunsMany (view_model job.now.model.now) job.now.scenario.now book.entry.plan book.entry.lanes (told_of T.calls T.faults lanes.old.items) (told_of T.calls T.faults lanes.new.items) result }
    ensures narrow { IsNarrow result → ⊥ }
    ensures others { drop book.entry.lanes lanes.new.items ≡ drop book.entry.lanes lanes.old.items }
    ensures as_many { length lanes.new.items ≡ length lanes.old.items }
{
    let Room {
        crew,
        begun,
        returned,
        back,
    } = room;
    let mut seat = seat;
    let mut rest = mem::replace(lanes, back).into_iter();
    let crew = seat_lanes(&post, &mut seat, &mut rest, crew);
    let (book, first) = run_together(rt, job, post, seat, book, crew, begun, returned, lanes);
    let ended = end_run(job, book, lanes.as_mut_slice(), first);
    put_behind(lanes, rest);
    ended
}

// A run of which the desk has a name. Nothing of its signature but N depends on the name, so a call may pick it.
fn run_on<'a, N: Name + Send + Sync, T: Target + Send, G: Gate + Sync, R: Threads + Wait + Sync>(
    rt: &R,
    job: &Job<'_, G>,
    post: Post,
    seat: BookSeat,
    book: Book<'a>,
    lanes: &mut Vec<T>,
) -> Result<Book<'a>, RunEnd<'a>>
    requires sound { IsSound (view_model job.now.model.now) }
    requires types { HasTypes (view_model job.now.model.now) job.now.scenario.now }
    requires scenario { N.scenario ≡ job.now.scenario.now }
    requires post { (post ≡ N.table) × (N.table.words ≡ N.lanes) }
    requires seat { seat ≡ fresh_book N.table N.lanes }
    requires book { book ≡ book_of N.scenario N.plan N.lanes [] }
    requires lanes { N.lanes ≤ length lanes.old.items }
    ensures runs { RunsMany (view_model job.now.model.now) job.now.scenario.now book.entry.plan book.entry.lanes (told_of T.calls T.faults lanes.old.items) (told_of T.calls T.faults lanes.new.items) result }
    ensures narrow { IsNarrow result → ⊥ }
    ensures others { drop book.entry.lanes lanes.new.items ≡ drop book.entry.lanes lanes.old.items }
    ensures as_many { length lanes.new.items ≡ length lanes.old.items }
{
    match room_for::<N, T>(job.alloc, book.lanes() as usize, lanes.len()) {
        Ok(room) => run_in(rt, job, post, seat, book, lanes, room),
        Err(_) => Err(RunEnd::NoMemory),
    }
}

/// Runs a scenario on the first lanes of a list, as many as `count` says, each with a worker of its own.
///
/// The model is sound, each action of the scenario is of a type that there is, and the plan is the scenario's, which has fewer
/// than 2^31 actions. Links of state references lead to outputs of the same pool, and no two outputs to one pool have the same link.
/// `Narrow` comes exactly where the widest group has more members than `count`, before any call. Where all
/// bodies end, the book holds a whole trace, and the new calls of each lane are the runs of the actions that started there, in that
/// order. Where a lane fails or a body traps no group starts any more, and bodies that run go on to their end: the least lane on
/// which a body broke is told, with its action, and the book holds the trace up to there. The calls made stay in the lanes' lists,
/// behind those before. After each answer every lane stands in its place. No answer rests on a thread having started. It may wait
/// for threads, so no promise is made that it returns.
pub fn run_many<'a, T: Target + Send, G: Gate + Sync, R: Threads + Wait + Sync>(
    rt: &R,
    alloc: Global,
    model: &Model,
    scenario: &'a Scenario,
    plan: &'a Plan,
    lanes: &mut Vec<T>,
    count: u32,
    gate: &G,
) -> Result<Book<'a>, RunEnd<'a>>
    requires sound { IsSound (view_model model.now) }
    requires types { HasTypes (view_model model.now) scenario.now }
    requires links { LinksStates scenario.now }
    requires planned { IsPlanOf scenario.now plan.now }
    requires small { length scenario.now.actions < 2 ^ 31 }
    requires several { (2 ≤ count) × (count ≤ 16) }
    requires lanes { count ≤ length lanes.old.items }
    ensures runs { RunsMany (view_model model.now) scenario.now plan.now count (told_of T.calls T.faults lanes.old.items) (told_of T.calls T.faults lanes.new.items) result }
    ensures narrow { IsNarrow result ↔ (count < widest plan.now.groups) }
    ensures others { drop count lanes.new.items ≡ drop count lanes.old.items }
    ensures as_many { length lanes.new.items ≡ length lanes.old.items }
{
    let need = plan.width();
    if need > count {
        return Err(RunEnd::Narrow { need, have: count });
    }
    let Ok(book) = Book::new(alloc, scenario, plan, count) else {
        return Err(RunEnd::NoMemory);
    };
    let Ok((post, seat)) = Post::new(alloc, count) else {
        return Err(RunEnd::NoMemory);
    };
    let job = Job {
        alloc,
        model,
        scenario,
        gate,
    };
    run_on::<Brand, T, G, R>(rt, &job, post, seat, book, lanes)
}
