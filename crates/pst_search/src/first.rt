//! The first legal scenario.
ghost use Rattle.std.specs.Prelude.{◌≡◌, ◌<◌, []};
ghost use Rattle.pst_model.specs.ModelView.{view_model};
ghost use Rattle.pst_model.specs.Sound.{IsSound};
ghost use Rattle.pst_built.specs.Laws.{IsConcreteRoot};
ghost use Rattle.pst_list_walk.specs.Made.{kept_at};
ghost use Rattle.pst_search.specs.declared.first.SearchEnd.TheVariants as end;
ghost use Rattle.pst_search.specs.Searches.{Searches, IsSpentAt};

use crate::reading::Reading;
use pst_base::NoMemory;
use pst_list_values::place_facts_hold;
use pst_model::Model;
use pst_scen::{Plan, Scenario};
use pst_search_loop::{Outcome, search_levels};
use std::alloc::Global;

/// Why a search gives no scenario.
#[derive(Clone, Copy, Debug, PartialEq, Eq)]
pub enum SearchEnd {
    /// No legal scenario infers so few actions.
    NoScenario,
    /// As many live lists of choices as the budget has were passed, the last of them in this level.
    Budget {
        /// The number of inferred actions.
        level: u32,
    },
    /// There was no memory for more.
    NoMemory,
}

impl From<NoMemory> for SearchEnd {
    ghost use Rattle.std.specs.Prelude.{◌≡◌};

    ghost from_gives = { λ _ e. e ≡ end.NoMemory };

    fn from(_error: NoMemory) -> SearchEnd {
        SearchEnd::NoMemory
    }
}

// At least one live list.
fn some_lists(budget: u64) -> u64
    ensures some { 0 < result }
    ensures same { 0 < budget → result ≡ budget }
{
    if budget == 0 { u64::MAX } else { budget }
}

// The budget is spent in that level.
fn spent(budget: u64, level: u32) -> SearchEnd
    ensures { IsSpentAt budget level result }
{
    if budget == 0 {
        return SearchEnd::NoMemory;
    }
    SearchEnd::Budget { level }
}

// The first legal scenario and its plan, by a walker at the empty list of the level without inferred actions.
fn search_by(
    alloc: Global,
    reading: &mut Reading<'_>,
    infer: u32,
    budget: u64,
) -> Result<(Scenario, Plan), SearchEnd>
    requires begun { reading.old ≡ kept_at reading.old.model reading.old.root reading.old.seed 0 [] }
    requires sound { IsSound (view_model reading.old.model) }
    ensures { Searches (view_model reading.old.model) reading.old.root reading.old.seed infer budget result }
{
    place_facts_hold();
    let most = some_lists(budget);
    let outcome = search_levels(alloc, reading, infer, most)?;
    match outcome {
        Outcome::NoScenario => Err(SearchEnd::NoScenario),
        Outcome::Budget { level } => Err(spent(budget, level)),
        Outcome::Found => {
            let found = reading.found()?;
            Ok(found)
        }
    }
}

/// The first legal scenario of the model that fills the root, and its plan: the one with the fewest inferred
/// actions, at most `infer`, and among those the first in the seed's order. The root is an action type that
/// isn't abstract.
///
/// `Budget` may come once `budget` live lists of choices are passed; where fewer stand up to the scenario and
/// including it, it doesn't. With a budget of 0 it never comes.
pub fn search(
    alloc: Global,
    model: &Model,
    root: u32,
    seed: u64,
    infer: u32,
    budget: u64,
) -> Result<(Scenario, Plan), SearchEnd>
    requires sound { IsSound (view_model model.now) }
    requires root { IsConcreteRoot (view_model model.now) root }
    ensures { Searches (view_model model.now) root seed infer budget result }
{
    let mut reading = Reading::new(alloc, model, root, seed)?;
    search_by(alloc, &mut reading, infer, budget)
}
