//! Sets of places whose choices can't stand together.
ghost use Rattle.std.specs.Prelude.{◌≡◌, ◌<◌, ℕ, true, false, [], ◌∷◌, OnOk};
ghost use Rattle.pst_search_loop.specs.Conflicts.{Has, IsEarlier, IsJoined, AreAdded, IsAmong};

use pst_base::NoMemory;
use std::alloc::Global;

/// A set of places of a list of choices: no legal scenario agrees with the choices at all of them.
#[derive(Debug, Drop)]
pub struct Conflict {
    /// Every place before this one is in the set.
    pub below: usize,
    /// Further places of the set, in no order.
    pub places: Vec<usize>,
    /// Whether it speaks of the scenarios of one level alone.
    pub on_level: bool,
}

// Whether the place is among them.
fn is_among(places: &[usize], place: usize) -> bool
    ensures { result ≡ true → IsAmong places.now place }
{
    for other in places {
        if *other == place {
            return true;
        }
    }
    false
}

// Whether one of them is at or behind a place.
fn are_before(places: &[usize], at: usize) -> bool
    ensures { result ≡ true → (p : ℕ) → IsAmong places.now p → p < at }
{
    for place in places {
        if at <= *place {
            return false;
        }
    }
    true
}

impl Conflict {
    /// All places before one, for scenarios of one level. It takes no memory.
    pub fn earlier(alloc: Global, below: usize) -> Conflict
        ensures { IsEarlier result below }
    {
        Conflict {
            below,
            places: Vec::new(alloc),
            on_level: true,
        }
    }

    /// No place, for scenarios of every level. It takes no memory.
    pub fn nothing(alloc: Global) -> Conflict
        ensures places { (p : ℕ) → Has result p → p < 0 }
    {
        Conflict {
            below: 0,
            places: Vec::new(alloc),
            on_level: false,
        }
    }

    /// Whether all its places are before that one.
    pub fn is_before(&self, at: usize) -> bool
        ensures { result ≡ true → (p : ℕ) → Has self.now p → p < at }
    {
        self.below <= at && are_before(self.places.as_slice(), at)
    }

    // Adds a place where it is before `at`.
    fn add(&mut self, place: usize, at: usize) -> Result<(), NoMemory>
        ensures { OnOk result (AreAdded self.old (place ∷ []) at self.new) }
    {
        if at <= place {
            return Ok(());
        }
        if is_among(self.places.as_slice(), place) {
            return Ok(());
        }
        self.places.push(place)?;
        Ok(())
    }

    // Adds those of the places that are before `at`.
    fn add_all(&mut self, places: &[usize], at: usize) -> Result<(), NoMemory>
        ensures { OnOk result (AreAdded self.old places.now at self.new) }
    {
        for place in places {
            self.add(*place, at)?;
        }
        Ok(())
    }

    /// Adds those places of another set that are before `at`.
    pub fn join(&mut self, other: &Conflict, at: usize) -> Result<(), NoMemory>
        ensures { OnOk result (IsJoined self.old other.now at self.new) }
    {
        if other.on_level {
            self.on_level = true;
        }
        if self.below < other.below {
            self.below = if other.below < at { other.below } else { at };
        }
        self.add_all(other.places.as_slice(), at)
    }
}
