//! The text of a scenario that was found.
ghost use Rattle.std.specs.Prelude.{◌≡◌, [], IfOk, string_bytes};
ghost use Rattle.pst_model.specs.ModelView.{view_model};
ghost use Rattle.pst_trace_texts.specs.Texts.{trace_text};
ghost use Rattle.pst_trace_texts.specs.declared.last.Last.TheVariants.{Solved as WasSolved};

use pst_base::{Names, NoMemory};
use pst_model::Model;
use pst_scen::Scenario;
use pst_trace_texts::Last;
use pst_trace_writer::write_trace;
use std::alloc::Global;

/// The header of a scenario, and a last line that says how many actions it has.
pub fn solved_text(
    alloc: Global,
    names: &Names,
    model: &Model,
    scenario: &Scenario,
) -> Result<String, NoMemory>
    ensures { IfOk result (λ text. string_bytes text ≡ trace_text names.now (view_model model.now) scenario.now [] WasSolved) }
{
    write_trace(alloc, names, model, scenario, &[], Last::Solved)
}
