//! Conflicts of few places.
ghost use Rattle.std.specs.Prelude.{◌≡◌, ◌+◌, ◌++◌, map, IfOk, OnOk};
ghost use Rattle.pst_search_places.specs.Laws.{IsLast, IsOfPlaces};

use pst_base::NoMemory;
use pst_search_loop::Conflict;
use std::alloc::Global;

// The place that is so many behind the front.
fn behind(front: usize, place: u32) -> Result<usize, NoMemory>
    ensures { IfOk result (λ p. p ≡ front + place) }
{
    match front.checked_add(place as usize) {
        None => Err(NoMemory),
        Some(behind) => Ok(behind),
    }
}

// Adds places, counted from the front's end.
fn add_places(named: &mut Vec<usize>, front: usize, places: &[u32]) -> Result<(), NoMemory>
    ensures { OnOk result (named.new.items ≡ named.old.items ++ map (λ i. front + i) places.now) }
{
    for place in places {
        named.push(behind(front, *place)?)?;
    }
    Ok(())
}

// The last place of a front of so many, if there is one.
fn last_place(alloc: Global, front: usize) -> Result<Vec<usize>, NoMemory>
    ensures { IfOk result (λ places. IsLast places.items front) }
{
    let mut places = Vec::new(alloc);
    if front == 0 {
        return Ok(places);
    }
    places.push(front - 1)?;
    Ok(places)
}

/// The conflict of the last place up to the sources, where so many choices read the activity and the sources,
/// and of some places behind them, which are counted from there. It speaks of one level.
pub fn of_places(alloc: Global, front: usize, places: &[u32]) -> Result<Conflict, NoMemory>
    ensures { IfOk result (λ c. IsOfPlaces c front places.now) }
{
    let mut named = last_place(alloc, front)?;
    add_places(&mut named, front, places)?;
    Ok(Conflict {
        below: 0,
        places: named,
        on_level: true,
    })
}
