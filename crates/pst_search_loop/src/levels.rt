//! The first legal scenario of the least level that has one, by any walker.
ghost use Rattle.std.specs.Prelude.{◌≡◌, ◌<◌, IfOk};
ghost use Rattle.pst_model.specs.Sound.{IsSound};
ghost use Rattle.pst_search_loop.specs.Kept.{FactsHold};
ghost use Rattle.pst_search_loop.specs.Levels.{Concludes};

use crate::level::{Found, search_level};
use crate::walker::Walker;
use pst_base::NoMemory;
use pst_built::{legal_scenarios_are_read, whole_readings_are_built};
use std::alloc::Global;

/// What a search comes to.
#[derive(Clone, Copy, Debug, PartialEq, Eq)]
pub enum Outcome {
    /// The walker stands at the first legal scenario.
    Found,
    /// No legal scenario infers so few actions.
    NoScenario,
    /// As many live lists were passed as the budget has, the last of them in this level.
    Budget {
        /// The number of inferred actions.
        level: u32,
    },
}

/// Searches the levels from 0 to `infer`, past fewer than `budget` live lists.
pub fn search_levels<W: Walker>(
    alloc: Global,
    walker: &mut W,
    infer: u32,
    budget: u64,
) -> Result<Outcome, NoMemory>
    requires facts { FactsHold (W.kept walker.old).facts }
    requires sound { IsSound (W.kept walker.old).model }
    requires some { 0 < budget }
    ensures { IfOk result (λ outcome. Concludes outcome (W.kept walker.old) (W.kept walker.new) infer budget) }
{
    whole_readings_are_built();
    legal_scenarios_are_read();
    let mut left = budget;
    let mut level = 0;
    loop {
        walker.begin(level)?;
        match search_level(alloc, walker, left)? {
            Found::Here => return Ok(Outcome::Found),
            Found::Spent => return Ok(Outcome::Budget { level }),
            Found::Nothing {
                on_level,
                left: rest,
            } => {
                if !on_level {
                    return Ok(Outcome::NoScenario);
                }
                if infer <= level {
                    return Ok(Outcome::NoScenario);
                }
                left = rest;
                level += 1;
            }
        }
    }
}
