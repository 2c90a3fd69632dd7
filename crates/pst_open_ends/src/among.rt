//! The sources among the actions that there are.
ghost use Rattle.std.specs.Prelude.{◌≡◌, ◌++◌, OnOk, Some, true};
ghost use Rattle.pst_legal.specs.SupplyReading.{spots, is_writer, is_previous, is_free, is_candidate, initial_sources};
ghost use Rattle.pst_scen.specs.declared.act.Link.TheVariants as link;
ghost use Rattle.pst_scen.specs.declared.act.Flow.TheVariants as flow;
ghost use Rattle.pst_pool_sources.specs.Offers.{free_ends};
ghost use Rattle.pst_open_ends.specs.Spots.{read_spot, given_sources, spot_at};
ghost use Rattle.pst_open_ends.specs.Options.{link_of, IsKnown, source_at, old_among, fixed_among, unless_own, initially_if};

use crate::flows::{fits, is_nothing, is_state, is_stream};
use crate::lookup::{some_links, spot_at};
use crate::spot::{Source, Spot};
use pst_base::NoMemory;
use pst_pool_sources::is_writer;
use pst_scen::Act;
use pst_ties::End;

// Whether a reference may still be the source of a need that it fits. `taken`: it is the previous
// writer of another.
fn is_free(taken: bool, _acts: &[Act], need: &Spot, spot: &Spot) -> bool
    requires { is_writer need.now.flow ≡ true → taken ≡ is_previous _acts.now need.now.pool (link.Act spot.now.act spot.now.reference) }
    ensures { result ≡ is_free _acts.now (read_spot need.now).filled (read_spot spot.now) }
{
    if is_stream(need.flow) {
        return is_nothing(spot.link);
    }
    if is_writer(need.flow) {
        return !taken;
    }
    true
}

// Whether a reference is a source of a need.
fn is_candidate(taken: bool, acts: &[Act], need: &Spot, spot: &Spot) -> bool
    requires { is_writer need.now.flow ≡ true → taken ≡ is_previous acts.now need.now.pool (link.Act spot.now.act spot.now.reference) }
    ensures { result ≡ is_candidate acts.now (read_spot need.now) (read_spot spot.now) }
{
    spot.act != need.act && fits(need, spot.pool, spot.flow) && is_free(taken, acts, need, spot)
}

// Adds a reference, where it may be the source.
fn add_spot(
    found: &mut Vec<Source>,
    taken: bool,
    acts: &[Act],
    need: &Spot,
    spot: &Spot,
) -> Result<(), NoMemory>
    requires { is_writer need.now.flow ≡ true → taken ≡ is_previous acts.now need.now.pool (link.Act spot.now.act spot.now.reference) }
    ensures { OnOk result (given_sources found.new.items ≡ given_sources found.old.items ++ source_at acts.now (read_spot need.now) (Some (read_spot spot.now))) }
{
    if is_candidate(taken, acts, need, spot) {
        found.push(Source::From {
            act: spot.act,
            reference: spot.reference,
        })?;
    }
    Ok(())
}

// Adds the reference at an end, where it may be the source.
fn add_at(
    found: &mut Vec<Source>,
    taken: bool,
    acts: &[Act],
    need: &Spot,
    end: End,
) -> Result<(), NoMemory>
    requires { IsKnown acts.now (read_spot need.now).filled end taken }
    ensures { OnOk result (given_sources found.new.items ≡ given_sources found.old.items ++ source_at acts.now (read_spot need.now) (spot_at acts.now end)) }
{
    match spot_at(acts, end) {
        None => Ok(()),
        Some(spot) => add_spot(found, taken, acts, need, &spot),
    }
}

// Adds a reference, where it isn't one of the action of the need.
fn add_end(found: &mut Vec<Source>, need: &Spot, end: End) -> Result<(), NoMemory>
    ensures { OnOk result (given_sources found.new.items ≡ given_sources found.old.items ++ unless_own need.now.act end) }
{
    if end.act != need.act {
        found.push(Source::From {
            act: end.act,
            reference: end.reference,
        })?;
    }
    Ok(())
}

/// Adds the sources among the references that may still be one.
pub(crate) fn add_old(
    found: &mut Vec<Source>,
    _acts: &[Act],
    free: &[End],
    need: &Spot,
) -> Result<(), NoMemory>
    requires { free.now ≡ free_ends need.now.flow need.now.pool _acts.now }
    ensures { OnOk result (given_sources found.new.items ≡ given_sources found.old.items ++ old_among _acts.now (read_spot need.now) (spots _acts.now)) }
{
    for end in free {
        add_end(found, need, *end)?;
    }
    Ok(())
}

// Whether some writer of the pool of a need has that as its previous writer.
fn is_previous(acts: &[Act], writers: &[End], _need: &Spot, to: Option<End>) -> bool
    requires { writers.now ≡ free_ends flow.StateIn _need.now.pool acts.now }
    ensures { result ≡ is_previous acts.now _need.now.pool (link_of to) }
{
    some_links(acts, writers, to)
}

// Whether a reference is the previous writer of another, where a writer asks.
fn is_taken(acts: &[Act], writers: &[End], need: &Spot, end: End) -> bool
    requires { writers.now ≡ free_ends flow.StateIn need.now.pool acts.now }
    ensures { IsKnown acts.now (read_spot need.now).filled end result }
{
    if is_writer(need.flow) {
        return is_previous(acts, writers, need, Some(end));
    }
    false
}

/// Adds the source that a bind fixes, where it may still be linked. `writers`: those of the pool.
pub(crate) fn add_fixed(
    found: &mut Vec<Source>,
    acts: &[Act],
    writers: &[End],
    need: &Spot,
    end: End,
) -> Result<(), NoMemory>
    requires { writers.now ≡ free_ends flow.StateIn need.now.pool acts.now }
    ensures { OnOk result (given_sources found.new.items ≡ given_sources found.old.items ++ fixed_among acts.now (read_spot need.now) (end.act, end.reference) (spots acts.now)) }
{
    let taken = is_taken(acts, writers, need, end);
    add_at(found, taken, acts, need, end)
}

/// Whether the first object of the pool is a source of a need. `begun`: it is the previous one of a writer.
pub(crate) fn may_be_initial(_acts: &[Act], begun: bool, need: &Spot) -> bool
    requires { begun ≡ is_previous _acts.now need.now.pool link.Initial }
    ensures { initial_sources _acts.now (read_spot need.now).filled ≡ initially_if result }
{
    if !is_state(need.flow) {
        return false;
    }
    if is_writer(need.flow) {
        return !begun;
    }
    true
}
