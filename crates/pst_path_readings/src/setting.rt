//! Where expressions stand.
ghost use Rattle.std.specs.Prelude.{◌≡◌, reverse};
ghost use Rattle.pst_path_readings.specs.Set.{turn_found};

use pst_ast::{Declaration, Environment};
use pst_base::Place;

/// What an index stands for.
#[derive(Clone, Copy, Debug, PartialEq, Eq)]
pub enum Turn {
    /// The turn of the `repeat` with that many others round it.
    AtLevel(u32),
    /// A number of a `foreach`.
    AtNumber(u32),
}

/// Where an expression of a model stands.
#[derive(Drop)]
pub struct Setting<'a> {
    /// Where its names are used.
    pub at: Environment,
    /// The indices whose scopes it is in, the innermost last, with what they stand for.
    pub turns: Vec<(Place, Turn)>,
    /// The locals of the body that it stands in.
    pub locals: &'a [Declaration],
}

impl<'a> Setting<'a> {
    /// What the index whose name stands at a place stands for.
    pub fn turn_at(&self, place: Place) -> Option<Turn>
        ensures { result ≡ turn_found place (reverse self.now.turns.items) }
    {
        let mut left = self.turns.as_slice();
        while let Some((last, before)) = left.split_last() {
            if last.0 == place {
                return Some(last.1);
            }
            left = before;
        }
        None
    }
}
