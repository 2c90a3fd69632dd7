//! The programs of a scenario's plan with their text.
ghost use Rattle.std.specs.Prelude.{◌≡◌, ◌≤◌, length, string_bytes, IfOk};
ghost use Rattle.pst_model.specs.ModelView.{view_model};
ghost use Rattle.pst_scen.specs.Plan.{widest};
ghost use Rattle.pst_scen.specs.Plans.{IsPlanOf};
ghost use Rattle.pst_programs.specs.Laws.{instructions};
ghost use Rattle.pst_static_answers.specs.Shown.{ShowsStatic, narrow_text, static_text};

use crate::answer::{ShownStatic, StaticAnswer};
use pst_base::{Names, NoMemory};
use pst_model::Model;
use pst_program_texts::{count_instructions, write_programs};
use pst_programs::Program;
use pst_scen::{Plan, Scenario};
use pst_static::lane_programs;
use pst_trace_writer::header;
use std::alloc::Global;

/// How many lanes are needed and there are, as a line.
fn narrow_line(alloc: Global, need: u32, have: u32) -> Result<String, NoMemory>
    ensures { IfOk result (λ text. string_bytes text ≡ narrow_text need have) }
{
    Ok(format!(in alloc; "narrow {need} {have}\n")?)
}

/// The scenario's header and the programs of 16 lanes at most.
fn text_of(
    alloc: Global,
    names: &Names,
    model: &Model,
    scenario: &Scenario,
    programs: &[Program],
) -> Result<String, NoMemory>
    requires { length programs.now ≤ 16 }
    ensures { IfOk result (λ text. string_bytes text ≡ static_text names.now (view_model model.now) scenario.now programs.now) }
{
    match header(alloc, names, model, scenario, 2)? {
        Some(upper) => {
            let mut text = upper;
            write_programs(&mut text, programs)?;
            Ok(text)
        }
        None => unreachable!(),
    }
}

/// How many instructions the programs of 16 lanes at most have. A legal scenario has few actions, so
/// their number is below 2^32; of any other it may not be, and then it finds no room.
fn instructions_of(programs: &[Program]) -> Result<u32, NoMemory>
    requires { length programs.now ≤ 16 }
    ensures { IfOk result (λ count. count ≡ instructions programs.now) }
{
    let count = count_instructions(programs);
    if count > 0xFFFF_FFFF {
        return Err(NoMemory);
    }
    Ok(count as u32)
}

/// The programs for so many lanes, which are enough, with their text.
fn show_programs(
    alloc: Global,
    names: &Names,
    model: &Model,
    scenario: &Scenario,
    plan: &Plan,
    over: u32,
) -> Result<ShownStatic, NoMemory>
    requires planned { IsPlanOf scenario.now plan.now }
    requires some { 1 ≤ over }
    requires few { over ≤ 16 }
    requires wide { widest plan.now.groups ≤ over }
    ensures { IfOk result (λ shown. ShowsStatic names.now (view_model model.now) scenario.now plan.now over shown.answer (string_bytes shown.text)) }
{
    let programs = lane_programs(alloc, plan, over)?;
    let instructions = instructions_of(&programs)?;
    let text = text_of(alloc, names, model, scenario, &programs)?;
    Ok(ShownStatic {
        answer: StaticAnswer::Static { instructions },
        text,
    })
}

/// What is answered of a scenario with its plan, for 1 to 16 lanes: exactly where the widest group
/// needs more lanes, how many it needs; and the programs otherwise.
pub fn show_static(
    alloc: Global,
    names: &Names,
    model: &Model,
    scenario: &Scenario,
    plan: &Plan,
    over: u32,
) -> Result<ShownStatic, NoMemory>
    requires planned { IsPlanOf scenario.now plan.now }
    requires some { 1 ≤ over }
    requires few { over ≤ 16 }
    ensures { IfOk result (λ shown. ShowsStatic names.now (view_model model.now) scenario.now plan.now over shown.answer (string_bytes shown.text)) }
{
    let need = plan.width();
    if need <= over {
        return show_programs(alloc, names, model, scenario, plan, over);
    }
    let text = narrow_line(alloc, need, over)?;
    Ok(ShownStatic {
        answer: StaticAnswer::Narrow { need, have: over },
        text,
    })
}
