//! The blanks of a scenario.
ghost use Rattle.std.specs.Prelude.{◌≡◌, ℕ, IfOk, OnErr, map};
ghost use Rattle.pst_model.specs.ModelView.{view_model};
ghost use Rattle.pst_legal.specs.ValueReading.{with_firsts};
ghost use Rattle.pst_blanks.specs.Blanks.{blank_of, all_blanks};
ghost use Rattle.pst_blanks.specs.Placed.{ArePlaced, AreRising};

use crate::blank::Place;
use crate::listing::places;
use crate::pools::{firsts, used_pools};
use pst_base::NoMemory;
use pst_model::Model;
use pst_scen::Scenario;
use std::alloc::Global;

/// Gives a scenario first objects without values, one for each state pool that its actions use, and
/// lists all its blanks in order.
pub fn begin(alloc: Global, model: &Model, scenario: &mut Scenario) -> Result<Vec<Place>, NoMemory>
    ensures begun { IfOk result (λ places. scenario.new ≡ with_firsts (view_model model.now) scenario.old) }
    ensures blanks { IfOk result (λ places. map blank_of places.items ≡ all_blanks (view_model model.now) scenario.old.actions) }
    ensures placed { IfOk result (λ places. ArePlaced (view_model model.now) scenario.new places.items) }
    ensures rising { IfOk result (λ places. AreRising scenario.new) }
    ensures err { OnErr result (scenario.new ≡ scenario.old) }
{
    let pools = used_pools(alloc, model, scenario.actions.as_slice())?;
    let places = places(alloc, model, scenario.actions.as_slice(), &pools)?;
    scenario.firsts = firsts(alloc, &pools)?;
    Ok(places)
}
