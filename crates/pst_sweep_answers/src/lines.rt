//! Lines of rows and of action types.
ghost use Rattle.std.specs.Prelude.{◌≡◌, ◌++◌, ◌<◌, ◌≤◌, ◌^◌, length, string_bytes, OnOk};
ghost use Rattle.std.specs.List.{All};
ghost use Rattle.pst_model.specs.ModelView.{view_model, view_action};
ghost use Rattle.pst_trace_texts.specs.Named.{name as name_text};
ghost use Rattle.pst_trace_texts.specs.Lines.{each_from};
ghost use Rattle.pst_sweep_table.specs.declared.row.SweepRow.{SweepRow as SeedRow};
ghost use Rattle.pst_sweep_answers.specs.Texts.{head_line, row_line, use_text, uses_text, found_line, total};

use crate::totals::total_of;
use pst_base::{NameId, Names, NoMemory};
use pst_model::{ActionType, Model};
use pst_sweep_table::{Outcome, SweepRow};

/// Adds the first line.
pub(crate) fn write_head(text: &mut String, count: usize) -> Result<(), NoMemory>
    ensures { OnOk result (string_bytes text.new ≡ string_bytes text.old ++ head_line count) }
{
    Ok(write!(text, "sweep {count}\n")?)
}

// Adds the line of a seed.
fn write_outcome(text: &mut String, seed: u64, outcome: Outcome) -> Result<(), NoMemory>
    ensures { OnOk result (string_bytes text.new ≡ string_bytes text.old ++ row_line seed outcome) }
{
    match outcome {
        Outcome::Found { actions, inferred } => {
            Ok(write!(text, "seed {seed} found {actions} {inferred}\n")?)
        }
        Outcome::NoScenario => Ok(write!(text, "seed {seed} noscenario\n")?),
        Outcome::Budget { level } => Ok(write!(text, "seed {seed} budget {level}\n")?),
    }
}

/// Adds a line for each row.
pub(crate) fn write_rows(text: &mut String, rows: &[SweepRow]) -> Result<(), NoMemory>
    ensures { OnOk result (string_bytes text.new ≡ string_bytes text.old ++ each_from (λ number row. row_line row.seed row.outcome) 0 rows.now) }
{
    for row in rows {
        write_outcome(text, row.seed, row.outcome)?;
    }
    Ok(())
}

// The text of a name; empty where there is none of that number.
fn name_of(names: &Names, id: NameId) -> &str
    ensures { result.now ≡ name_text names.now id }
{
    if id.0 < names.len() {
        names.text(id)
    } else {
        ""
    }
}

// Adds the line of an action type that is used so often; none where it isn't used.
fn write_use(
    text: &mut String,
    names: &Names,
    found: &ActionType,
    total: u64,
) -> Result<(), NoMemory>
    ensures { OnOk result (string_bytes text.new ≡ string_bytes text.old ++ use_text names.now (view_action found.now) total) }
{
    if total == 0 {
        return Ok(());
    }
    let component = name_of(names, found.component);
    let name = name_of(names, found.name);
    Ok(write!(text, "use {component}::{name} {total}\n")?)
}

// Adds a line for each of these action types that is used.
fn write_types(
    text: &mut String,
    names: &Names,
    types: &[ActionType],
    rows: &[SweepRow],
) -> Result<(), NoMemory>
    requires types { All (λ (row : SeedRow). length types.now ≤ length row.uses) rows.now }
    requires few { length rows.now < 2 ^ 32 }
    ensures { OnOk result (string_bytes text.new ≡ string_bytes text.old ++ each_from (λ number found. use_text names.now (view_action found) (total rows.now number)) 0 types.now) }
{
    for (number, found) in types.iter().enumerate() {
        let total = total_of(rows, number);
        write_use(text, names, found, total)?;
    }
    Ok(())
}

/// Adds a line for each action type that is used.
pub(crate) fn write_uses(
    text: &mut String,
    names: &Names,
    model: &Model,
    rows: &[SweepRow],
) -> Result<(), NoMemory>
    requires types { All (λ (row : SeedRow). length row.uses ≡ length (view_model model.now).actions) rows.now }
    requires few { length rows.now < 2 ^ 32 }
    ensures { OnOk result (string_bytes text.new ≡ string_bytes text.old ++ uses_text names.now (view_model model.now) rows.now) }
{
    write_types(text, names, &model.actions, rows)
}

/// Adds the last line.
pub(crate) fn write_found(text: &mut String, found: u32) -> Result<(), NoMemory>
    ensures { OnOk result (string_bytes text.new ≡ string_bytes text.old ++ found_line found) }
{
    Ok(write!(text, "found {found}\n")?)
}
