//! Following a choice of a source, and taking it back.
ghost use Rattle.std.specs.Prelude.{◌≡◌, ℕ, ◌≤◌, List, Option as the_option, None, Some, true, false, IfOk, OnErr};
ghost use Rattle.pst_scen.specs.declared.act.Act.{Act as the_act};
ghost use Rattle.pst_scen.specs.declared.act.Flow.{Flow as the_flow};
ghost use Rattle.pst_scen.specs.declared.act.Flow.TheVariants as flow;
ghost use Rattle.pst_legal.specs.SupplyReading.{is_stream, is_writer};
ghost use Rattle.pst_pool_sources.specs.Offers.{ends_at, begun_at, room_at, AreSources};
ghost use Rattle.pst_pool_sources.specs.Places.{AreRising};
ghost use Rattle.pst_ties.specs.declared.tied.End.{End as the_end};
ghost use Rattle.pst_open_ends.specs.Spots.{read_spot, given_source};
ghost use Rattle.pst_open_ends.specs.Changes.{ends_undone, undone};
ghost use Rattle.pst_free_ends.specs.Steps.{IsTurn, IsStep, NoneAhead, target_of, linked_by, mate_of, Moved, Follows, HasRoom};

use crate::taken::{Taken, put_end, take_end, unbegin};
use pst_base::NoMemory;
use pst_open_ends::{Change, Source, Spot};
use pst_pool_sources::PoolSources;
use pst_scen::{Act, Flow};
use pst_ties::End;

// The reference that a source names; none for the first object.
fn target(source: Source, count: usize) -> Option<End>
    ensures { result ≡ target_of (given_source source) count }
{
    match source {
        Source::Initially => None,
        Source::From { act, reference } => Some(End { act, reference }),
        Source::New {
            action: _,
            instance: _,
            reference,
        } => Some(End {
            act: count,
            reference,
        }),
    }
}

// The kind of the other end of a stream.
fn mate(flow: Flow) -> Flow
    ensures { result ≡ mate_of flow }
{
    match flow {
        Flow::StreamIn => Flow::StreamOut,
        Flow::StreamOut => Flow::StreamIn,
        other => other,
    }
}

// Takes both ends of a stream.
fn take_stream(sources: &mut PoolSources, need: &Spot, far: End) -> Result<Taken, NoMemory>
    requires rising { (n : the_flow) (p : ℕ) → AreRising (ends_at n p sources.old) }
    requires stream { is_stream need.now.flow ≡ true }
    ensures ok { (acts : List the_act) → AreSources sources.old acts → IsTurn need.now acts → NoneAhead acts → IfOk result (λ taken. Moved sources.new taken acts (linked_by (read_spot need.now) (Some far) acts)) }
    ensures err { OnErr result ((n : the_flow) (p : ℕ) → ends_at n p sources.new ≡ ends_at n p sources.old) }
    ensures begun { OnErr result ((p : ℕ) → begun_at p sources.new ≡ begun_at p sources.old) }
    ensures room { (n : the_flow) (p : ℕ) → room_at n p sources.old ≤ room_at n p sources.new }
{
    let removed = take_end(sources, need.pool, mate(need.flow), far);
    if removed.is_none() {
        return Err(NoMemory);
    }
    let end = End {
        act: need.act,
        reference: need.reference,
    };
    let near = take_end(sources, need.pool, need.flow, end);
    Ok(Taken {
        far: removed,
        near,
        begun: None,
    })
}

// Takes the writer that another replaces.
fn take_writer(sources: &mut PoolSources, need: &Spot, far: End) -> Result<Taken, NoMemory>
    requires rising { (n : the_flow) (p : ℕ) → AreRising (ends_at n p sources.old) }
    requires writer { need.now.flow ≡ flow.StateOut }
    ensures ok { (acts : List the_act) → AreSources sources.old acts → IsTurn need.now acts → NoneAhead acts → IfOk result (λ taken. Moved sources.new taken acts (linked_by (read_spot need.now) (Some far) acts)) }
    ensures err { OnErr result ((n : the_flow) (p : ℕ) → ends_at n p sources.new ≡ ends_at n p sources.old) }
    ensures begun { OnErr result ((p : ℕ) → begun_at p sources.new ≡ begun_at p sources.old) }
    ensures room { (n : the_flow) (p : ℕ) → room_at n p sources.old ≤ room_at n p sources.new }
{
    let removed = take_end(sources, need.pool, Flow::StateOut, far);
    if removed.is_none() {
        return Err(NoMemory);
    }
    Ok(Taken {
        far: removed,
        near: None,
        begun: None,
    })
}

// Takes the first object of a pool for a writer.
fn take_first(sources: &mut PoolSources, need: &Spot) -> Result<Taken, NoMemory>
    requires writer { need.now.flow ≡ flow.StateOut }
    ensures ok { (acts : List the_act) → AreSources sources.old acts → IsTurn need.now acts → NoneAhead acts → IfOk result (λ taken. Moved sources.new taken acts (linked_by (read_spot need.now) None acts)) }
    ensures err { OnErr result ((n : the_flow) (p : ℕ) → ends_at n p sources.new ≡ ends_at n p sources.old) }
    ensures begun { OnErr result ((p : ℕ) → begun_at p sources.new ≡ begun_at p sources.old) }
    ensures room { (n : the_flow) (p : ℕ) → room_at n p sources.old ≤ room_at n p sources.new }
{
    sources.begin(need.pool)?;
    Ok(Taken {
        far: None,
        near: None,
        begun: Some(need.pool),
    })
}

// Takes nothing: any number of needs may have the same source.
fn take_none(_sources: &PoolSources, _need: &Spot) -> Taken
    requires stream { is_stream _need.now.flow ≡ false }
    requires writer { is_writer _need.now.flow ≡ false }
    ensures { (to : the_option the_end) (acts : List the_act) → AreSources _sources.now acts → IsTurn _need.now acts → NoneAhead acts → Moved _sources.now result acts (linked_by (read_spot _need.now) to acts) }
{
    Taken {
        far: None,
        near: None,
        begun: None,
    }
}

// Takes what the end of a stream is linked to.
fn take_partner(sources: &mut PoolSources, need: &Spot, to: Option<End>) -> Result<Taken, NoMemory>
    requires rising { (n : the_flow) (p : ℕ) → AreRising (ends_at n p sources.old) }
    requires stream { is_stream need.now.flow ≡ true }
    ensures ok { (acts : List the_act) → AreSources sources.old acts → IsTurn need.now acts → NoneAhead acts → IfOk result (λ taken. Moved sources.new taken acts (linked_by (read_spot need.now) to acts)) }
    ensures err { OnErr result ((n : the_flow) (p : ℕ) → ends_at n p sources.new ≡ ends_at n p sources.old) }
    ensures begun { OnErr result ((p : ℕ) → begun_at p sources.new ≡ begun_at p sources.old) }
    ensures room { (n : the_flow) (p : ℕ) → room_at n p sources.old ≤ room_at n p sources.new }
{
    match to {
        None => Err(NoMemory),
        Some(far) => take_stream(sources, need, far),
    }
}

// Takes what a writer replaces.
fn take_previous(sources: &mut PoolSources, need: &Spot, to: Option<End>) -> Result<Taken, NoMemory>
    requires rising { (n : the_flow) (p : ℕ) → AreRising (ends_at n p sources.old) }
    requires writer { need.now.flow ≡ flow.StateOut }
    ensures ok { (acts : List the_act) → AreSources sources.old acts → IsTurn need.now acts → NoneAhead acts → IfOk result (λ taken. Moved sources.new taken acts (linked_by (read_spot need.now) to acts)) }
    ensures err { OnErr result ((n : the_flow) (p : ℕ) → ends_at n p sources.new ≡ ends_at n p sources.old) }
    ensures begun { OnErr result ((p : ℕ) → begun_at p sources.new ≡ begun_at p sources.old) }
    ensures room { (n : the_flow) (p : ℕ) → room_at n p sources.old ≤ room_at n p sources.new }
{
    match to {
        None => take_first(sources, need),
        Some(far) => take_writer(sources, need, far),
    }
}

// Takes what a need is linked to.
fn take_for(sources: &mut PoolSources, need: &Spot, to: Option<End>) -> Result<Taken, NoMemory>
    requires { (n : the_flow) (p : ℕ) → AreRising (ends_at n p sources.old) }
    ensures ok { (acts : List the_act) → AreSources sources.old acts → IsTurn need.now acts → NoneAhead acts → IfOk result (λ taken. Moved sources.new taken acts (linked_by (read_spot need.now) to acts)) }
    ensures err { OnErr result ((n : the_flow) (p : ℕ) → ends_at n p sources.new ≡ ends_at n p sources.old) }
    ensures begun { OnErr result ((p : ℕ) → begun_at p sources.new ≡ begun_at p sources.old) }
    ensures room { (n : the_flow) (p : ℕ) → room_at n p sources.old ≤ room_at n p sources.new }
{
    match need.flow {
        Flow::BufferIn => Ok(take_none(sources, need)),
        Flow::BufferOut => Ok(take_none(sources, need)),
        Flow::StreamIn => take_partner(sources, need, to),
        Flow::StreamOut => take_partner(sources, need, to),
        Flow::StateIn => Ok(take_none(sources, need)),
        Flow::StateOut => take_previous(sources, need, to),
    }
}

/// Changes the references that may be sources as a source changed the actions, `change` says how. Without
/// memory they are those of the actions before.
pub fn follow(
    sources: &mut PoolSources,
    acts: &[Act],
    need: &Spot,
    source: Source,
    change: &Change,
) -> Result<Taken, NoMemory>
    requires step { IsStep need.now (given_source source) change.now acts.now }
    requires known { AreSources sources.old (undone change.now acts.now) }
    ensures sources { IfOk result (λ taken. AreSources sources.new acts.now) }
    ensures follows { IfOk result (λ taken. Follows taken change.now acts.now) }
    ensures ahead { IfOk result (λ taken. NoneAhead acts.now) }
    ensures has_room { IfOk result (λ taken. HasRoom sources.new (ends_undone change.now.ends acts.now)) }
    ensures err { OnErr result (AreSources sources.new (undone change.now acts.now)) }
    ensures room { (n : the_flow) (p : ℕ) → room_at n p sources.old ≤ room_at n p sources.new }
{
    sources.grow(acts, change.count)?;
    match take_for(sources, need, target(source, change.count)) {
        Ok(taken) => Ok(taken),
        Err(error) => {
            sources.shrink(acts, change.count);
            Err(error)
        }
    }
}

/// Gives back what a source took. Takes no memory.
pub fn leave(sources: &mut PoolSources, acts: &[Act], taken: &Taken, change: &Change)
    requires known { AreSources sources.old acts.now }
    requires follows { Follows taken.now change.now acts.now }
    requires has_room { HasRoom sources.old (ends_undone change.now.ends acts.now) }
    ensures sources { AreSources sources.new (undone change.now acts.now) }
    ensures room { (n : the_flow) (p : ℕ) → room_at n p sources.old ≤ room_at n p sources.new }
{
    put_end(sources, taken.near);
    put_end(sources, taken.far);
    unbegin(sources, taken.begun);
    sources.shrink(acts, change.count);
}
