//! The references that may be sources, of all pools.
ghost use Rattle.std.specs.Prelude.{◌≡◌, ℕ, ◌+◌, ◌<◌, ◌≤◌, ◌++◌, ◌&&◌, ◌||◌, [], nat_eq, not, true, false, if◌then◌else◌, length, take, drop, is_some, IfOk, OnOk, OnErr};
ghost use Rattle.std.specs.List.{list_any, insert};
ghost use Rattle.pst_scen.specs.declared.act.Flow.{Flow as the_flow};
ghost use Rattle.pst_legal.specs.Supplied.{is_source_for};
ghost use Rattle.pst_ties.specs.Tieds.{same_end};
ghost use Rattle.pst_pool_sources.specs.Offers.{ends_at, begun_at, room_at, end_if, but_last, fitting, fitting_in, fitting_from, count_in, count_from, takes, without, put_back};
ghost use Rattle.pst_pool_sources.specs.Places.{AreRising};

use crate::ends::SourceEnds;
use pst_base::NoMemory;
use pst_scen::{Act, Filled, Flow};
use pst_ties::End;
use std::alloc::Global;

/// For each pool the references that may be sources.
#[derive(Drop)]
pub struct PoolSources {
    /// By the number of the pool.
    pub pools: Vec<SourceEnds>,
}

// So many pools without a reference.
fn empty_pools(alloc: Global, count: usize) -> Result<PoolSources, NoMemory>
    ensures ends { IfOk result (λ sources. (need : the_flow) (p : ℕ) → ends_at need p sources ≡ []) }
    ensures begun { IfOk result (λ sources. (p : ℕ) → begun_at p sources ≡ false) }
{
    let mut pools = Vec::new(alloc);
    for _ in 0..count {
        pools.push(SourceEnds::new(alloc))?;
    }
    Ok(PoolSources { pools })
}

impl PoolSources {
    // Adds a reference of a kind to those of a pool.
    fn add_end(&mut self, pool: u32, flow: Flow, end: End) -> Result<(), NoMemory>
        ensures ok { OnOk result ((need : the_flow) (p : ℕ) → ends_at need p self.new ≡ ends_at need p self.old ++ end_if (is_source_for need flow && nat_eq pool p) end) }
        ensures err { OnErr result ((need : the_flow) (p : ℕ) → ends_at need p self.new ≡ ends_at need p self.old) }
        ensures room { (need : the_flow) (p : ℕ) → room_at need p self.old ≤ room_at need p self.new }
        ensures begun { (p : ℕ) → begun_at p self.new ≡ begun_at p self.old }
    {
        let pool = pool as usize;
        if pool >= self.pools.len() {
            return Err(NoMemory);
        }
        self.pools[pool].add(flow, end)
    }

    // Takes the last reference of a kind of a pool away.
    fn take_end(&mut self, pool: u32, flow: Flow)
        ensures ends { (need : the_flow) (p : ℕ) → ends_at need p self.new ≡ but_last (if is_source_for need flow && nat_eq pool p then 1 else 0) (ends_at need p self.old) }
        ensures room { (need : the_flow) (p : ℕ) → room_at need p self.old ≤ room_at need p self.new }
        ensures begun { (p : ℕ) → begun_at p self.new ≡ begun_at p self.old }
    {
        let pool = pool as usize;
        if pool >= self.pools.len() {
            return;
        }
        self.pools[pool].take_last(flow);
    }

    // Takes the last references away, as many as these.
    fn take_references(&mut self, references: &[Filled])
        ensures ends { (need : the_flow) (p : ℕ) → ends_at need p self.new ≡ but_last (count_in need p references.now) (ends_at need p self.old) }
        ensures room { (need : the_flow) (p : ℕ) → room_at need p self.old ≤ room_at need p self.new }
        ensures begun { (p : ℕ) → begun_at p self.new ≡ begun_at p self.old }
    {
        for filled in references {
            self.take_end(filled.pool, filled.flow);
        }
    }

    // Adds the references of an action behind those with lower numbers, as long as there is memory.
    // Gives how many were added.
    fn add_some(&mut self, act: usize, references: &[Filled]) -> usize
        ensures within { result ≤ length references.now }
        ensures added { (need : the_flow) (p : ℕ) → ends_at need p self.new ≡ ends_at need p self.old ++ fitting_in need p act 0 (take result references.now) }
        ensures room { (need : the_flow) (p : ℕ) → room_at need p self.old ≤ room_at need p self.new }
        ensures begun { (p : ℕ) → begun_at p self.new ≡ begun_at p self.old }
    {
        let mut count = 0;
        for filled in references {
            let end = End {
                act,
                reference: count,
            };
            let Ok(()) = self.add_end(filled.pool, filled.flow, end) else {
                return count;
            };
            count += 1;
        }
        count
    }

    // Adds the references of an action.
    fn add_act(&mut self, act: usize, references: &[Filled]) -> Result<(), NoMemory>
        ensures ok { OnOk result ((need : the_flow) (p : ℕ) → ends_at need p self.new ≡ ends_at need p self.old ++ fitting_in need p act 0 references.now) }
        ensures err { OnErr result ((need : the_flow) (p : ℕ) → ends_at need p self.new ≡ ends_at need p self.old) }
        ensures room { (need : the_flow) (p : ℕ) → room_at need p self.old ≤ room_at need p self.new }
        ensures begun { (p : ℕ) → begun_at p self.new ≡ begun_at p self.old }
    {
        let count = self.add_some(act, references);
        if count < references.len() {
            self.take_references(&references[..count]);
            return Err(NoMemory);
        }
        Ok(())
    }

    /// The references of actions that may be sources, none of which is linked, where pools have numbers
    /// below `pools`.
    pub fn new(alloc: Global, pools: usize, acts: &[Act]) -> Result<PoolSources, NoMemory>
        ensures ends { IfOk result (λ sources. (need : the_flow) (p : ℕ) → ends_at need p sources ≡ fitting need p acts.now) }
        ensures begun { IfOk result (λ sources. (p : ℕ) → begun_at p sources ≡ false) }
    {
        let mut sources = empty_pools(alloc, pools)?;
        let mut number = 0;
        for act in acts {
            sources.add_act(number, act.references.as_slice())?;
            number += 1;
        }
        Ok(sources)
    }

    /// Adds the references of the action behind the first ones, if there is one.
    pub fn grow(&mut self, acts: &[Act], count: usize) -> Result<(), NoMemory>
        requires { length acts.now ≤ count + 1 }
        ensures ok { OnOk result ((need : the_flow) (p : ℕ) → ends_at need p self.new ≡ ends_at need p self.old ++ fitting_from need p count (drop count acts.now)) }
        ensures err { OnErr result ((need : the_flow) (p : ℕ) → ends_at need p self.new ≡ ends_at need p self.old) }
        ensures room { (need : the_flow) (p : ℕ) → room_at need p self.old ≤ room_at need p self.new }
        ensures begun { (p : ℕ) → begun_at p self.new ≡ begun_at p self.old }
    {
        if count >= acts.len() {
            return Ok(());
        }
        self.add_act(count, acts[count].references.as_slice())
    }

    /// Takes the last references away, as many as all actions but the first ones have.
    pub fn shrink(&mut self, acts: &[Act], count: usize)
        ensures ends { (need : the_flow) (p : ℕ) → ends_at need p self.new ≡ but_last (count_from need p (drop count acts.now)) (ends_at need p self.old) }
        ensures room { (need : the_flow) (p : ℕ) → room_at need p self.old ≤ room_at need p self.new }
        ensures begun { (p : ℕ) → begun_at p self.new ≡ begun_at p self.old }
    {
        if count >= acts.len() {
            return;
        }
        self.take_acts(&acts[count..]);
    }

    // Takes the last references away, as many as these actions have.
    fn take_acts(&mut self, acts: &[Act])
        ensures ends { (need : the_flow) (p : ℕ) → ends_at need p self.new ≡ but_last (count_from need p acts.now) (ends_at need p self.old) }
        ensures room { (need : the_flow) (p : ℕ) → room_at need p self.old ≤ room_at need p self.new }
        ensures begun { (p : ℕ) → begun_at p self.new ≡ begun_at p self.old }
    {
        for act in acts {
            self.take_references(act.references.as_slice());
        }
    }

    /// Takes a reference of a kind out of those of a pool that may still be linked. Gives its place.
    pub fn take(&mut self, pool: u32, flow: Flow, end: End) -> Option<usize>
        requires { (need : the_flow) (p : ℕ) → AreRising (ends_at need p self.old) }
        ensures without { (need : the_flow) (p : ℕ) → ends_at need p self.new ≡ (if takes need flow && nat_eq pool p then without end (ends_at need p self.old) else ends_at need p self.old) }
        ensures back { (need : the_flow) (p : ℕ) → ends_at need p self.old ≡ (if takes need flow && nat_eq pool p then put_back result end (ends_at need p self.new) else ends_at need p self.new) }
        ensures found { (need : the_flow) → takes need flow ≡ true → is_some result ≡ list_any (same_end end) (ends_at need pool self.old) }
        ensures room { (need : the_flow) (p : ℕ) → room_at need p self.old ≤ room_at need p self.new }
        ensures begun { (p : ℕ) → begun_at p self.new ≡ begun_at p self.old }
    {
        let pool = pool as usize;
        if pool >= self.pools.len() {
            return None;
        }
        self.pools[pool].take(flow, end)
    }

    /// Puts a reference of a kind at its place again.
    pub fn put(&mut self, pool: u32, flow: Flow, place: usize, end: End)
        requires { (need : the_flow) → takes need flow ≡ true → length (ends_at need pool self.old) < room_at need pool self.old }
        ensures ends { (need : the_flow) (p : ℕ) → ends_at need p self.new ≡ (if takes need flow && nat_eq pool p then insert (ends_at need p self.old) place end else ends_at need p self.old) }
        ensures room { (need : the_flow) (p : ℕ) → room_at need p self.old ≤ room_at need p self.new }
        ensures begun { (p : ℕ) → begun_at p self.new ≡ begun_at p self.old }
    {
        let pool = pool as usize;
        if pool >= self.pools.len() {
            return;
        }
        self.pools[pool].put(flow, place, end);
    }

    /// Notes that a writer of a pool replaces its first object, which none did before.
    pub fn begin(&mut self, pool: u32) -> Result<(), NoMemory>
        ensures ends { (need : the_flow) (p : ℕ) → ends_at need p self.new ≡ ends_at need p self.old }
        ensures room { (need : the_flow) (p : ℕ) → room_at need p self.old ≤ room_at need p self.new }
        ensures ok { OnOk result ((p : ℕ) → begun_at p self.new ≡ (begun_at p self.old || nat_eq pool p)) }
        ensures fresh { OnOk result (begun_at pool self.old ≡ false) }
        ensures err { OnErr result ((p : ℕ) → begun_at p self.new ≡ begun_at p self.old) }
    {
        let pool = pool as usize;
        if pool >= self.pools.len() || self.pools[pool].begun {
            return Err(NoMemory);
        }
        self.pools[pool].begun = true;
        Ok(())
    }

    /// Notes that no writer of a pool replaces its first object.
    pub fn end(&mut self, pool: u32)
        ensures ends { (need : the_flow) (p : ℕ) → ends_at need p self.new ≡ ends_at need p self.old }
        ensures room { (need : the_flow) (p : ℕ) → room_at need p self.old ≤ room_at need p self.new }
        ensures begun { (p : ℕ) → begun_at p self.new ≡ (not (nat_eq pool p) && begun_at p self.old) }
    {
        let pool = pool as usize;
        if pool >= self.pools.len() {
            return;
        }
        self.pools[pool].begun = false;
    }

    /// The references of a pool that may still be linked to a need of a kind, by action and reference.
    pub fn ends(&self, need: Flow, pool: u32) -> &[End]
        ensures { result.now ≡ ends_at need pool self.now }
    {
        match self.pools.get(pool as usize) {
            None => &[],
            Some(ends) => ends.of_need(need),
        }
    }

    /// Whether a writer of a pool replaces its first object.
    pub fn is_begun(&self, pool: u32) -> bool
        ensures { result ≡ begun_at pool self.now }
    {
        match self.pools.get(pool as usize) {
            None => false,
            Some(ends) => ends.begun,
        }
    }
}
