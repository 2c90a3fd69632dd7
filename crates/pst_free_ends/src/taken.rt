//! References that a source took, and putting them back.
ghost use Rattle.std.specs.Prelude.{◌≡◌, ℕ, ◌≤◌, ◌&&◌, nat_eq, length, true, if◌then◌else◌, is_some};
ghost use Rattle.std.specs.List.{list_any};
ghost use Rattle.pst_scen.specs.declared.act.Flow.{Flow as the_flow};
ghost use Rattle.pst_pool_sources.specs.Offers.{ends_at, begun_at, room_at, keeps, takes, without};
ghost use Rattle.pst_ties.specs.Tieds.{same_end};
ghost use Rattle.pst_pool_sources.specs.Places.{AreRising};
ghost use Rattle.pst_free_ends.specs.Steps.{restored, unbegun};

use pst_pool_sources::PoolSources;
use pst_scen::Flow;
use pst_ties::End;

/// A reference that was taken out of those that may be sources.
#[derive(Clone, Copy, Debug, PartialEq, Eq)]
pub struct Removed {
    /// Its pool.
    pub pool: u32,
    /// Its kind.
    pub flow: Flow,
    /// The reference.
    pub end: End,
    /// How many stood before it.
    pub place: usize,
}

/// What a source took.
#[derive(Clone, Copy, Debug, PartialEq, Eq)]
pub struct Taken {
    /// The other end.
    pub far: Option<Removed>,
    /// The end of the need.
    pub near: Option<Removed>,
    /// The pool whose first object was taken.
    pub begun: Option<u32>,
}

// Takes a reference out, where it may still be a source.
pub(crate) fn take_end(
    sources: &mut PoolSources,
    pool: u32,
    flow: Flow,
    end: End,
) -> Option<Removed>
    requires { (need : the_flow) (p : ℕ) → AreRising (ends_at need p sources.old) }
    ensures without { (need : the_flow) (p : ℕ) → ends_at need p sources.new ≡ (if takes need flow && nat_eq pool p then without end (ends_at need p sources.old) else ends_at need p sources.old) }
    ensures back { (need : the_flow) (p : ℕ) → ends_at need p sources.old ≡ restored result need p (ends_at need p sources.new) }
    ensures found { (need : the_flow) → takes need flow ≡ true → is_some result ≡ list_any (same_end end) (ends_at need pool sources.old) }
    ensures room { (need : the_flow) (p : ℕ) → room_at need p sources.old ≤ room_at need p sources.new }
    ensures begun { (p : ℕ) → begun_at p sources.new ≡ begun_at p sources.old }
{
    let place = sources.take(pool, flow, end)?;
    Some(Removed {
        pool,
        flow,
        end,
        place,
    })
}

// Puts a reference back, if one was taken out.
pub(crate) fn put_end(sources: &mut PoolSources, removed: Option<Removed>)
    requires { (need : the_flow) (p : ℕ) → keeps need ≡ true → length (restored removed need p (ends_at need p sources.old)) ≤ room_at need p sources.old }
    ensures ends { (need : the_flow) (p : ℕ) → ends_at need p sources.new ≡ restored removed need p (ends_at need p sources.old) }
    ensures room { (need : the_flow) (p : ℕ) → room_at need p sources.old ≤ room_at need p sources.new }
    ensures begun { (p : ℕ) → begun_at p sources.new ≡ begun_at p sources.old }
{
    match removed {
        None => {}
        Some(removed) => sources.put(removed.pool, removed.flow, removed.place, removed.end),
    }
}

// Notes that the first object of a pool isn't taken, if it was.
pub(crate) fn unbegin(sources: &mut PoolSources, begun: Option<u32>)
    ensures ends { (need : the_flow) (p : ℕ) → ends_at need p sources.new ≡ ends_at need p sources.old }
    ensures room { (need : the_flow) (p : ℕ) → room_at need p sources.old ≤ room_at need p sources.new }
    ensures begun { (p : ℕ) → begun_at p sources.new ≡ unbegun begun p (begun_at p sources.old) }
{
    match begun {
        None => {}
        Some(pool) => sources.end(pool),
    }
}
