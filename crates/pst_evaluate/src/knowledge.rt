//! The values that are known while expressions are evaluated.
ghost use Rattle.std.specs.Prelude.{◌≡◌};
ghost use Rattle.pst_evaluate.specs.Evaluated.{value_in};
ghost use Rattle.pst_evaluate.specs.Known.{known_to};

use crate::evaluated::Evaluated;
use pst_base::{Names, Place};
use pst_index::Index;
use pst_places::PlaceList;
use std::alloc::Global;

/// What names stand for, and the values that items have so far.
#[derive(Clone, Copy)]
pub struct Knowledge<'a> {
    /// Where memory comes from.
    pub alloc: Global,
    /// What the sources declare.
    pub index: &'a Index,
    /// The texts of names.
    pub names: &'a Names,
    /// The places of the items' names.
    pub places: &'a PlaceList,
    /// The value of each item that has one, by its number.
    pub values: &'a [Option<i64>],
}

impl<'a> Knowledge<'a> {
    /// The value of the item whose name stands at a place.
    pub fn value_at(&self, place: Place) -> Evaluated
        ensures { value_in result ≡ known_to self.now place }
    {
        let Some(number) = self.places.number(place) else {
            return Evaluated::Nothing;
        };
        if number >= self.values.len() {
            return Evaluated::Nothing;
        }
        match self.values[number] {
            Some(value) => Evaluated::Value(value),
            None => Evaluated::Lacks(number),
        }
    }
}
