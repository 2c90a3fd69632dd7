//! The workers of a run: starting them, and taking back what they give.
ghost use Rattle.std.specs.Prelude.{◌≡◌, ℕ, ◌+◌, ◌<◌, ◌≤◌, MatchResult, vec_len, slice_index_or};
ghost use Rattle.std.specs.Vec.{vec_capacity};
ghost use Rattle.pst_model.specs.ModelView.{view_model};
ghost use Rattle.pst_model.specs.Sound.{IsSound};
ghost use Rattle.pst_body.specs.Ran.{HasTypes};
ghost use Rattle.pst_post.specs.Seats.{fresh_seat};
ghost use Rattle.pst_workers.specs.Told.{told};
ghost use Rattle.pst_workers.specs.Worked.{Worked, Backwards, Forwards};

use crate::shared::SharedDesk;
use crate::worker::{Job, Returned, work};
use pst_desk::Name;
use pst_model::Model;
use pst_post::{LaneSeat, Post};
use pst_scen::Scenario;
use pst_target::{Gate, Target};
use std::marker::PhantomData;
use std::snapshot::Snapshot;
use std::sync::Wait;
use std::thread;
use std::thread::{Promise, PromisedHandle, Scope, Threads};

/// What a worker owes: the new calls of its lane are those of the actions that its seat handed back, and of a body that didn't end.
#[derive(Drop)]
pub struct Owes<N: Name, T: Target> {
    model: Snapshot<Model>,
    scenario: Snapshot<Scenario>,
    before: Snapshot<T>,
    lane: u32,
    name: PhantomData<N>,
}

impl<N: Name, T: Target> Promise<Returned<N, T>> for Owes<N, T> {
    ghost use Rattle.pst_model.specs.ModelView.{view_model};
    ghost use Rattle.pst_workers.specs.Told.{told};
    ghost use Rattle.pst_workers.specs.Worked.{Worked};

    ghost kept_by = { λ p r. Worked (view_model p.model.value) p.scenario.value N.table p.lane (told T.calls T.faults p.before.value) (told T.calls T.faults r.lane) r.seat r.stop r.leave };
}

/// A worker that was begun: Ok where a thread runs it, Err where the caller ran it to its end.
pub type Begun<N, T> = Result<PromisedHandle<Returned<N, T>, Owes<N, T>>, Returned<N, T>>;

/// A lane with its seat.
#[derive(Drop)]
pub struct SeatedLane<T: Target> {
    /// The lane.
    pub lane: T,
    /// Its seat at the mailboxes.
    pub seat: LaneSeat,
}

// Starts a worker in a thread. Where no thread can be made the run is stopped, and the caller does the work itself.
fn hand_over<
    's,
    'a,
    'j,
    E,
    N: Name + Send + Sync,
    T: Target + Send + 's,
    G: Gate + Sync,
    R: Threads + Wait + Sync,
>(
    scope: &Scope<'s, E>,
    rt: &'s R,
    job: &'s Job<'j, G>,
    post: &'s Post,
    desk: &'s SharedDesk<'a, N>,
    seated: SeatedLane<T>,
) -> Begun<N, T>
    requires sound { IsSound (view_model job.now.model.now) }
    requires types { HasTypes (view_model job.now.model.now) job.now.scenario.now }
    requires post { post.now ≡ N.table }
    requires lanes { N.table.words ≡ N.lanes }
    requires seat { seated.seat ≡ fresh_seat N.table seated.seat.lane }
    ensures { MatchResult result
        (λ h. (h.promise.lane ≡ seated.seat.lane) × (h.promise.model.value ≡ job.now.model.now) × (h.promise.scenario.value ≡ job.now.scenario.now) × (told T.calls T.faults h.promise.before.value ≡ told T.calls T.faults seated.lane))
        (λ r. Worked (view_model job.now.model.now) job.now.scenario.now N.table seated.seat.lane (told T.calls T.faults seated.lane) (told T.calls T.faults r.lane) r.seat r.stop r.leave) }
{
    let SeatedLane { lane, seat } = seated;
    let owes: Owes<N, T> = Owes {
        model: Snapshot::of(job.model),
        scenario: Snapshot::of(job.scenario),
        before: Snapshot::of(&lane),
        lane: seat.lane(),
        name: PhantomData,
    };
    match scope.spawn_with(
        owes,
        move || -> Returned<N, T>
            requires { IsSound (view_model job.now.model.now) × HasTypes (view_model job.now.model.now) job.now.scenario.now × (post.now ≡ N.table) × (N.table.words ≡ N.lanes) × (seat ≡ fresh_seat N.table seat.lane) }
            ensures { Worked (view_model job.entry.now.model.now) job.entry.now.scenario.now N.table seat.lane (told T.calls T.faults lane) (told T.calls T.faults result.lane) result.seat result.stop result.leave }
        { work(rt, job, post, desk, lane, seat) },
    ) {
        Ok(child) => Ok(child),
        Err(no_thread) => {
            let _leave = desk.stop(rt);
            Err((no_thread.value)())
        }
    }
}

// Starts the worker of a lane. That of the first lane is the caller itself, once the others have started.
fn start_one<
    's,
    'a,
    'j,
    E,
    N: Name + Send + Sync,
    T: Target + Send + 's,
    G: Gate + Sync,
    R: Threads + Wait + Sync,
>(
    scope: &Scope<'s, E>,
    rt: &'s R,
    job: &'s Job<'j, G>,
    post: &'s Post,
    desk: &'s SharedDesk<'a, N>,
    seated: SeatedLane<T>,
    first: bool,
) -> Begun<N, T>
    requires sound { IsSound (view_model job.now.model.now) }
    requires types { HasTypes (view_model job.now.model.now) job.now.scenario.now }
    requires post { post.now ≡ N.table }
    requires lanes { N.table.words ≡ N.lanes }
    requires seat { seated.seat ≡ fresh_seat N.table seated.seat.lane }
    ensures { MatchResult result
        (λ h. (h.promise.lane ≡ seated.seat.lane) × (h.promise.model.value ≡ job.now.model.now) × (h.promise.scenario.value ≡ job.now.scenario.now) × (told T.calls T.faults h.promise.before.value ≡ told T.calls T.faults seated.lane))
        (λ r. Worked (view_model job.now.model.now) job.now.scenario.now N.table seated.seat.lane (told T.calls T.faults seated.lane) (told T.calls T.faults r.lane) r.seat r.stop r.leave) }
{
    if first {
        let SeatedLane { lane, seat } = seated;
        return Err(work(rt, job, post, desk, lane, seat));
    }
    hand_over(scope, rt, job, post, desk, seated)
}

// Starts a worker for each lane, from the last on.
fn start_all<
    's,
    'a,
    'j,
    E,
    N: Name + Send + Sync,
    T: Target + Send + 's,
    G: Gate + Sync,
    R: Threads + Wait + Sync,
>(
    scope: &Scope<'s, E>,
    rt: &'s R,
    job: &'s Job<'j, G>,
    post: &'s Post,
    desk: &'s SharedDesk<'a, N>,
    crew: Vec<SeatedLane<T>>,
    begun: Vec<Begun<N, T>>,
) -> Vec<Begun<N, T>>
    requires sound { IsSound (view_model job.now.model.now) }
    requires types { HasTypes (view_model job.now.model.now) job.now.scenario.now }
    requires post { post.now ≡ N.table }
    requires lanes { N.table.words ≡ N.lanes }
    requires crew { (k : ℕ) (d : _) → k < vec_len crew → (slice_index_or crew.items k d).seat ≡ fresh_seat N.table k }
    requires room { (vec_len begun ≡ 0) × (vec_len crew ≤ vec_capacity begun) }
    ensures count { vec_len result ≡ vec_len crew }
    ensures each { Backwards (λ k m b. MatchResult b
        (λ h. (h.promise.lane ≡ k) × (h.promise.model.value ≡ job.now.model.now) × (h.promise.scenario.value ≡ job.now.scenario.now) × (told T.calls T.faults h.promise.before.value ≡ told T.calls T.faults m.lane))
        (λ r. Worked (view_model job.now.model.now) job.now.scenario.now N.table k (told T.calls T.faults m.lane) (told T.calls T.faults r.lane) r.seat r.stop r.leave)) (vec_len crew) result.items crew.items }
{
    let mut crew = crew;
    let mut begun = begun;
    while let Some(seated) = crew.pop() {
        let first = crew.is_empty();
        begun.push_reserved(start_one(scope, rt, job, post, desk, seated, first));
    }
    begun
}

// What a worker gives back, once it has come to its end.
fn end_of<N: Name, T: Target, R: Threads>(rt: &R, begun: Begun<N, T>) -> Returned<N, T>
    ensures { MatchResult begun
        (λ h. Worked (view_model h.promise.model.value) h.promise.scenario.value N.table h.promise.lane (told T.calls T.faults h.promise.before.value) (told T.calls T.faults result.lane) result.seat result.stop result.leave)
        (λ r. result ≡ r) }
{
    match begun {
        Ok(child) => child.join(rt),
        Err(returned) => returned,
    }
}

// What the workers give back, that of the first lane first.
fn join_all<N: Name, T: Target, R: Threads>(
    rt: &R,
    model: &Model,
    scenario: &Scenario,
    begun: Vec<Begun<N, T>>,
    crew: Snapshot<Vec<SeatedLane<T>>>,
    returned: Vec<Returned<N, T>>,
) -> Vec<Returned<N, T>>
    requires room { (vec_len returned ≡ 0) × (vec_len crew.value ≤ vec_capacity returned) }
    requires count { vec_len begun ≡ vec_len crew.value }
    requires each { Backwards (λ k m b. MatchResult b
        (λ h. (h.promise.lane ≡ k) × (h.promise.model.value ≡ model.now) × (h.promise.scenario.value ≡ scenario.now) × (told T.calls T.faults h.promise.before.value ≡ told T.calls T.faults m.lane))
        (λ r. Worked (view_model model.now) scenario.now N.table k (told T.calls T.faults m.lane) (told T.calls T.faults r.lane) r.seat r.stop r.leave)) (vec_len crew.value) begun.items crew.value.items }
    ensures count { vec_len result ≡ vec_len crew.value }
    ensures each { Forwards (λ k m r. Worked (view_model model.now) scenario.now N.table k (told T.calls T.faults m.lane) (told T.calls T.faults r.lane) r.seat r.stop r.leave) result.items crew.value.items }
{
    let mut begun = begun;
    let mut returned = returned;
    while let Some(worker) = begun.pop() {
        returned.push_reserved(end_of(rt, worker));
    }
    drop(crew);
    returned
}

/// Runs a worker for each lane, of which the caller is one, and gives back what they give back, that of the first lane first. The
/// two empty lists have room for them.
pub fn run_workers<
    N: Name + Send + Sync,
    T: Target + Send,
    G: Gate + Sync,
    R: Threads + Wait + Sync,
>(
    rt: &R,
    job: &Job<'_, G>,
    post: &Post,
    desk: &SharedDesk<'_, N>,
    crew: Vec<SeatedLane<T>>,
    begun: Vec<Begun<N, T>>,
    returned: Vec<Returned<N, T>>,
) -> Vec<Returned<N, T>>
    requires sound { IsSound (view_model job.now.model.now) }
    requires types { HasTypes (view_model job.now.model.now) job.now.scenario.now }
    requires post { post.now ≡ N.table }
    requires lanes { N.table.words ≡ N.lanes }
    requires crew { (k : ℕ) (d : _) → k < vec_len crew → (slice_index_or crew.items k d).seat ≡ fresh_seat N.table k }
    requires room { (vec_len begun ≡ 0) × (vec_len crew ≤ vec_capacity begun) }
    requires more { (vec_len returned ≡ 0) × (vec_len crew ≤ vec_capacity returned) }
    ensures count { vec_len result ≡ vec_len crew }
    ensures each { Forwards (λ k m r. Worked (view_model job.now.model.now) job.now.scenario.now N.table k (told T.calls T.faults m.lane) (told T.calls T.faults r.lane) r.seat r.stop r.leave) result.items crew.items }
{
    let was = Snapshot::of(&crew);
    let begun = thread::scope(
        thread::scope_env(),
        rt,
        move |scope| -> Vec<Begun<N, T>>
            requires models { IsSound (view_model job.now.model.now) × HasTypes (view_model job.now.model.now) job.now.scenario.now }
            requires post { (post.now ≡ N.table) × (N.table.words ≡ N.lanes) }
            requires crew { (k : ℕ) (d : _) → k < vec_len crew → (slice_index_or crew.items k d).seat ≡ fresh_seat N.table k }
            requires room { (vec_len begun ≡ 0) × (vec_len crew ≤ vec_capacity begun) }
            ensures count { vec_len result ≡ vec_len crew }
            ensures each { Backwards (λ k m b. MatchResult b
                (λ h. (h.promise.lane ≡ k) × (h.promise.model.value ≡ job.entry.now.model.now) × (h.promise.scenario.value ≡ job.entry.now.scenario.now) × (told T.calls T.faults h.promise.before.value ≡ told T.calls T.faults m.lane))
                (λ r. Worked (view_model job.entry.now.model.now) job.entry.now.scenario.now N.table k (told T.calls T.faults m.lane) (told T.calls T.faults r.lane) r.seat r.stop r.leave)) (vec_len crew) result.items crew.items }
        { start_all(scope, rt, job, post, desk, crew, begun) },
    );
    join_all(rt, job.model, job.scenario, begun, was, returned)
}
