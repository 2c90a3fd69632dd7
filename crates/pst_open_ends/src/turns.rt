//! Whose turn it is.
ghost use Rattle.std.specs.Prelude.{◌≡◌, ◌≤◌, IfOk, IfSome};
ghost use Rattle.std.specs.List.{find};
ghost use Rattle.std.specs.Option.{option_map};
ghost use Rattle.pst_legal.specs.SupplyReading.{spots, is_elsewhere};
ghost use Rattle.pst_ties.specs.Tieds.{fixed_of};
ghost use Rattle.pst_open_ends.specs.Spots.{read_spot, kept_spot, spots_of};
ghost use Rattle.pst_open_ends.specs.Turns.{turns, wants, AreDone, IsDoneBefore, AreNexts};

use crate::flows::{is_need, is_nothing, is_to};
use crate::spot::Spot;
use pst_base::NoMemory;
use pst_scen::{Act, Filled};
use pst_ties::{End, Ties};
use std::alloc::Global;

// Whether a reference is linked, but not as a bind fixes it.
fn is_elsewhere(fixed: Option<End>, spot: &Spot) -> bool
    ensures { result ≡ is_elsewhere (fixed_of fixed) (read_spot spot.now) }
{
    match fixed {
        None => false,
        Some(end) => !is_nothing(spot.link) && !is_to(spot.link, end.act, end.reference),
    }
}

// Whether a reference is a need without a source, or linked against its bind.
fn has_turn(ties: &Ties, spot: &Spot) -> bool
    ensures { result ≡ turns ties.now (read_spot spot.now) }
{
    is_need(spot.flow)
        && (is_nothing(spot.link)
            || is_elsewhere(ties.fixed(spot.act, spot.reference, spot.flow), spot))
}

// The first reference of an action that has a turn.
fn next_in(ties: &Ties, act: usize, references: &[Filled]) -> Option<Spot>
    ensures found { result ≡ option_map kept_spot (find (turns ties.now) (spots_of act 0 references.now)) }
    ensures act { IfSome result (λ spot. spot.act ≡ act) }
{
    let mut reference = 0;
    for filled in references {
        let spot = Spot {
            act,
            reference,
            pool: filled.pool,
            flow: filled.flow,
            link: filled.link,
        };
        if has_turn(ties, &spot) {
            return Some(spot);
        }
        reference += 1;
    }
    None
}

// Whether an action has a reference that wants a source.
fn wants(act: &Act) -> bool
    ensures { result ≡ wants act.now }
{
    act.references
        .as_slice()
        .iter()
        .any(|filled| is_need(filled.flow))
}

/// For each action the first one from it on that has a reference that wants a source, or how many
/// actions there are.
pub fn next_wanting(alloc: Global, acts: &[Act]) -> Result<Vec<usize>, NoMemory>
    ensures { IfOk result (λ nexts. AreNexts nexts.items acts.now) }
{
    let mut nexts = Vec::new(alloc);
    let mut number = 0;
    for act in acts {
        if wants(act) {
            nexts.resize(number + 1, number)?;
        }
        number += 1;
    }
    nexts.resize(number, number)?;
    Ok(nexts)
}

// The first action from a number on that may have a reference that wants a source. No action below the
// number has a turn.
fn next_from(_ties: &Ties, _acts: &[Act], nexts: &[usize], number: usize) -> usize
    requires nexts { AreNexts nexts.now _acts.now }
    requires done { AreDone _ties.now _acts.now number }
    ensures done { AreDone _ties.now _acts.now result }
    ensures on { number ≤ result }
{
    match nexts.get(number) {
        None => number,
        Some(next) => *next,
    }
}

/// The need whose turn it is: the first that has no source, or is linked against its bind. No action
/// below `from` has one. `nexts`: for each of the first actions the next one, from it on, that has a
/// reference that wants a source; others are passed at once. Takes no memory.
pub fn next_need(ties: &Ties, acts: &[Act], nexts: &[usize], from: usize) -> Option<Spot>
    requires nexts { AreNexts nexts.now acts.now }
    requires done { AreDone ties.now acts.now from }
    ensures next { result ≡ option_map kept_spot (find (turns ties.now) (spots acts.now)) }
    ensures done { IsDoneBefore ties.now acts.now result }
{
    let mut number = next_from(ties, acts, nexts, from);
    while number < acts.len() {
        match next_in(ties, number, acts[number].references.as_slice()) {
            Some(spot) => return Some(spot),
            None => number = next_from(ties, acts, nexts, number + 1),
        }
    }
    None
}
