//! Counts over all rows.
ghost use Rattle.std.specs.Prelude.{◌≡◌, ◌<◌, ◌^◌, length};
ghost use Rattle.std.specs.List.{All};
ghost use Rattle.pst_sweep_table.specs.declared.row.SweepRow.{SweepRow as SeedRow};
ghost use Rattle.pst_sweep_answers.specs.Texts.{is_found as has_scenario, found_in as count_found, total};

use pst_sweep_table::{Outcome, SweepRow};

/// How many actions there are of the type of that number in all rows.
pub(crate) fn total_of(rows: &[SweepRow], number: usize) -> u64
    requires types { All (λ (row : SeedRow). number < length row.uses) rows.now }
    requires few { length rows.now < 2 ^ 32 }
    ensures { result ≡ total rows.now number }
{
    let mut sum = 0u64;
    for row in rows {
        sum += u64::from(row.uses.count_at(number));
    }
    sum
}

// Whether there is a scenario.
fn is_found(outcome: Outcome) -> bool
    ensures { result ≡ has_scenario outcome }
{
    match outcome {
        Outcome::Found { .. } => true,
        Outcome::NoScenario | Outcome::Budget { .. } => false,
    }
}

/// How many rows have a scenario.
pub(crate) fn found_in(rows: &[SweepRow]) -> u32
    requires { length rows.now < 2 ^ 32 }
    ensures { result ≡ count_found rows.now }
{
    rows.iter().filter(|row| is_found(row.outcome)).count() as u32
}
