//! Lists of places.
ghost use Rattle.std.specs.Prelude.{◌≡◌, IfOk, OnOk};
ghost use Rattle.std.specs.HashMap.{get};
ghost use Rattle.pst_places.specs.Numbers.{number_in, number_from, or_number, place_of, same_key};

use crate::key::{PlaceKey, place_key};
use pst_base::{NoMemory, Place};
use std::alloc::Global;
use std::collections::HashMap;
use std::marker::Model;

/// Places one after another, with the number of each.
///
/// Contracts see the list of the places. A look-up takes expected constant time.
#[derive(Drop)]
pub struct PlaceList {
    places: Vec<Place>,
    numbers: HashMap<PlaceKey, u32>,
}

impl Model for PlaceList {
    ghost use Rattle.std.specs.Prelude.{List};
    ghost use Rattle.pst_base.specs.declared.position.Place.{Place};
    ghost use Rattle.pst_places.specs.Kept.{IsPlaceList};

    ghost Value = { List Place };

    ghost view = { λ l. l.places.items };

    ghost invariant = { IsPlaceList };
}

// Keeps a number at its key, where nothing is there yet.
fn keep(numbers: &mut HashMap<PlaceKey, u32>, key: PlaceKey, number: u32) -> Result<(), NoMemory>
    ensures { OnOk result ((q : PlaceKey) → get same_key numbers.new q ≡ or_number (get same_key numbers.old q) (same_key q key) number) }
{
    if !numbers.contains_key(&key) {
        numbers.insert(key, number)?;
    }
    Ok(())
}

// For each key the number of the first place that has it.
fn first_numbers(alloc: Global, places: &[Place]) -> Result<HashMap<PlaceKey, u32>, NoMemory>
    ensures { IfOk result (λ m. (q : PlaceKey) → get same_key m q ≡ number_from 0 places.now (place_of q)) }
{
    let mut numbers = HashMap::new(alloc);
    for at in 0..places.len() {
        let Ok(number) = u32::try_from(at) else {
            return Err(NoMemory);
        };
        keep(&mut numbers, place_key(places[at]), number)?;
    }
    Ok(numbers)
}

impl PlaceList {
    /// A list of places. `NoMemory` also comes where there are more than 2^32.
    pub fn new(alloc: Global, places: Vec<Place>) -> Result<PlaceList, NoMemory>
        ensures { IfOk result (λ list. list ≡ places.items) }
    {
        let numbers = first_numbers(alloc, places.as_slice())?;
        Ok(PlaceList { places, numbers })
    }

    /// The number of a place, from 0: of the first of several that are the same.
    pub fn number(&self, place: Place) -> Option<usize>
        ensures { result ≡ number_in self.now place }
    {
        match self.numbers.get(&place_key(place)) {
            None => None,
            Some(number) => Some(*number as usize),
        }
    }
}
