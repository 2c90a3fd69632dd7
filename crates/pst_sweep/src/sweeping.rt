//! The rows of seeds.
ghost use Rattle.std.specs.Prelude.{◌≡◌, ◌≤◌, ◌<◌, ◌+◌, ◌^◌, IfOk, length};
ghost use Rattle.std.specs.List.{All};
ghost use Rattle.pst_model.specs.ModelView.{view_model};
ghost use Rattle.pst_model.specs.Sound.{IsSound};
ghost use Rattle.pst_built.specs.Laws.{IsConcreteRoot};
ghost use Rattle.pst_scen.specs.declared.act.Act.{Act as ActRow};
ghost use Rattle.pst_sweep_table.specs.Counts.{uses_of, no_uses};
ghost use Rattle.pst_sweep_table.specs.Rows.{IsRow, IsTable};
ghost use Rattle.pst_sweep.specs.Sweeping.{IsFoundRow, IsEndedRow};

use crate::many::each_row;
use pst_base::NoMemory;
use pst_built::whole_readings_are_built;
use pst_model::Model;
use pst_scen::Scenario;
use pst_search::{SearchEnd, search};
use pst_sweep_table::{Outcome, SweepRow, Table, Uses};
use std::alloc::Global;
use std::thread::Threads;

/// The row of a seed with that scenario, which is let go.
fn found_row(
    alloc: Global,
    model: &Model,
    seed: u64,
    scenario: Scenario,
) -> Result<SweepRow, NoMemory>
    requires types { All (λ (act : ActRow). act.action < length (view_model model.now).actions) scenario.actions }
    requires few { length scenario.actions < 2 ^ 32 }
    ensures { IfOk result (IsFoundRow (view_model model.now) seed scenario) }
{
    let uses = Uses::of(alloc, model.actions.len(), &scenario)?;
    let outcome = Outcome::Found {
        actions: scenario.actions.as_slice().len() as u32,
        inferred: scenario.level,
    };
    Ok(SweepRow {
        seed,
        outcome,
        uses,
    })
}

/// The row of a seed without a scenario.
fn ended_row(alloc: Global, model: &Model, seed: u64, outcome: Outcome) -> SweepRow
    ensures { IsEndedRow (view_model model.now) seed outcome result }
{
    SweepRow {
        seed,
        outcome,
        uses: Uses::none(alloc, model.actions.len()),
    }
}

/// The row of a seed.
fn search_row(
    alloc: Global,
    model: &Model,
    root: u32,
    seed: u64,
    infer: u32,
    budget: u64,
) -> Result<SweepRow, NoMemory>
    requires sound { IsSound (view_model model.now) }
    requires root { IsConcreteRoot (view_model model.now) root }
    ensures { IfOk result (IsRow (view_model model.now) root infer budget seed) }
{
    whole_readings_are_built();
    match search(alloc, model, root, seed, infer, budget) {
        Ok((scenario, _)) => found_row(alloc, model, seed, scenario),
        Err(SearchEnd::NoScenario) => Ok(ended_row(alloc, model, seed, Outcome::NoScenario)),
        Err(SearchEnd::Budget { level }) => {
            Ok(ended_row(alloc, model, seed, Outcome::Budget { level }))
        }
        Err(SearchEnd::NoMemory) => Err(NoMemory),
    }
}

/// What the seeds of a sweep are searched for.
#[derive(Drop)]
struct Asked<'m> {
    alloc: Global,
    model: &'m Model,
    root: u32,
    first_seed: u64,
    infer: u32,
    budget: u64,
}

/// The row of the seed of that number, counted from the first.
fn row_at(asked: &Asked<'_>, k: u32) -> Result<SweepRow, NoMemory>
    requires sound { IsSound (view_model asked.now.model.now) }
    requires root { IsConcreteRoot (view_model asked.now.model.now) asked.now.root }
    requires room { asked.now.first_seed + k < 2 ^ 64 }
    ensures { IfOk result (IsRow (view_model asked.now.model.now) asked.now.root asked.now.infer asked.now.budget (asked.now.first_seed + k)) }
{
    let seed = asked.first_seed + k as u64;
    search_row(
        asked.alloc,
        asked.model,
        asked.root,
        seed,
        asked.infer,
        asked.budget,
    )
}

/// The rows of so many seeds from the first on, in the order of the seeds.
fn sweep_rows(
    rt: &(impl Threads + Sync),
    asked: &Asked<'_>,
    count: u32,
) -> Result<Vec<SweepRow>, NoMemory>
    requires sound { IsSound (view_model asked.now.model.now) }
    requires root { IsConcreteRoot (view_model asked.now.model.now) asked.now.root }
    requires room { asked.now.first_seed + count ≤ 2 ^ 64 }
    ensures { IfOk result (λ rows. IsTable (view_model asked.now.model.now) asked.now.root asked.now.infer asked.now.budget asked.now.first_seed count rows.items) }
{
    each_row(
        rt,
        asked.alloc,
        count,
        move |k: u32| -> Result<SweepRow, NoMemory>
            requires { IsSound (view_model asked.now.model.now) × IsConcreteRoot (view_model asked.now.model.now) asked.now.root × (asked.now.first_seed + k < 2 ^ 64) }
            ensures { IfOk result (IsRow (view_model asked.entry.now.model.now) asked.entry.now.root asked.entry.now.infer asked.entry.now.budget (asked.entry.now.first_seed + k)) }
        { row_at(asked, k) },
    )
}

/// The table of so many seeds from the first on. Each row is one that the search may answer for its
/// seed, and the rows stand in the order of the seeds, as a loop over them gives them.
pub fn sweep(
    rt: &(impl Threads + Sync),
    alloc: Global,
    model: &Model,
    root: u32,
    first_seed: u64,
    count: u32,
    infer: u32,
    budget: u64,
) -> Result<Table, NoMemory>
    requires sound { IsSound (view_model model.now) }
    requires root { IsConcreteRoot (view_model model.now) root }
    requires room { first_seed + count ≤ 2 ^ 64 }
    ensures { IfOk result (λ table. IsTable (view_model model.now) root infer budget first_seed count table.rows.items) }
{
    let asked = Asked {
        alloc,
        model,
        root,
        first_seed,
        infer,
        budget,
    };
    let rows = sweep_rows(rt, &asked, count)?;
    Ok(Table { rows })
}
