//! The answer with its text.
ghost use Rattle.std.specs.Prelude.{◌≡◌, ◌<◌, ◌^◌, length, string_bytes, IfOk};
ghost use Rattle.std.specs.List.{All};
ghost use Rattle.pst_model.specs.ModelView.{view_model};
ghost use Rattle.pst_sweep_table.specs.declared.row.SweepRow.{SweepRow as SeedRow};
ghost use Rattle.pst_sweep_answers.specs.Texts.{sweep_text};
ghost use Rattle.pst_sweep_answers.specs.Shown.{ShowsSweep};

use crate::lines::{write_found, write_head, write_rows, write_uses};
use crate::totals::found_in;
use pst_base::{Names, NoMemory};
use pst_model::Model;
use pst_sweep_table::{SweepRow, Table};
use std::alloc::Global;

/// What is answered to a sweep, and its text.
#[derive(Drop)]
pub struct ShownSweep {
    /// How many seeds have a scenario.
    pub found: u32,
    /// The text.
    pub text: String,
}

// The text, whose last line has this number.
fn text_of(
    alloc: Global,
    names: &Names,
    model: &Model,
    rows: &[SweepRow],
    found: u32,
) -> Result<String, NoMemory>
    requires types { All (λ (row : SeedRow). length row.uses ≡ length (view_model model.now).actions) rows.now }
    requires few { length rows.now < 2 ^ 32 }
    ensures { IfOk result (λ text. string_bytes text ≡ sweep_text names.now (view_model model.now) rows.now found) }
{
    let mut text = String::new(alloc);
    write_head(&mut text, rows.len())?;
    write_rows(&mut text, rows)?;
    write_uses(&mut text, names, model, rows)?;
    write_found(&mut text, found)?;
    Ok(text)
}

// What is shown of rows.
fn show_rows(
    alloc: Global,
    names: &Names,
    model: &Model,
    rows: &[SweepRow],
) -> Result<ShownSweep, NoMemory>
    requires types { All (λ (row : SeedRow). length row.uses ≡ length (view_model model.now).actions) rows.now }
    requires few { length rows.now < 2 ^ 32 }
    ensures { IfOk result (λ shown. ShowsSweep names.now (view_model model.now) rows.now shown.found (string_bytes shown.text)) }
{
    let found = found_in(rows);
    let text = text_of(alloc, names, model, rows, found)?;
    Ok(ShownSweep { found, text })
}

/// Shows the table of a sweep: a line for each seed with what its search comes to, a line for each
/// action type that some scenario uses with how often all of them do, and how many seeds have a
/// scenario. Each row counts the types of the model.
pub fn show_sweep(
    alloc: Global,
    names: &Names,
    model: &Model,
    table: &Table,
) -> Result<ShownSweep, NoMemory>
    requires types { All (λ (row : SeedRow). length row.uses ≡ length (view_model model.now).actions) table.now.rows.items }
    requires few { length table.now.rows.items < 2 ^ 32 }
    ensures { IfOk result (λ shown. ShowsSweep names.now (view_model model.now) table.now.rows.items shown.found (string_bytes shown.text)) }
{
    show_rows(alloc, names, model, &table.rows)
}
