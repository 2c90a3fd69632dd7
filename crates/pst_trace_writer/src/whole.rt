//! Headers and whole traces.
ghost use Rattle.std.specs.Prelude.{map, ◌≡◌, ◌++◌, ◌↔◌, IsTrue, length, string_bytes, IfOk, OnOk, MatchOption};
ghost use Rattle.pst_model.specs.ModelView.{view_model};
ghost use Rattle.pst_trace_texts.specs.Header.{first_line, compound_text, counts_text, joins_text, header_text};
ghost use Rattle.pst_trace_texts.specs.Lines.{each_from};
ghost use Rattle.pst_trace_texts.specs.Named.{paths as all_paths};
ghost use Rattle.pst_trace_texts.specs.Elements.{HasHeader};
ghost use Rattle.pst_trace_texts.specs.Texts.{trace_text};

use crate::acts::write_acts;
use crate::elements::prints_element;
use crate::events::{write_events, write_last};
use crate::nodes::{write_firsts, write_joins, write_nodes};
use crate::paths::paths_of;
use pst_base::{Names, NoMemory};
use pst_model::Model;
use pst_scen::{Event, Node, Scenario};
use pst_trace_texts::Last;
use std::alloc::Global;

/// Adds the format, and the counts of actions and of inferred ones.
fn write_counts(text: &mut String, format: u8, count: usize, level: u32) -> Result<(), NoMemory>
    ensures { OnOk result (string_bytes text.new ≡ string_bytes text.old ++ counts_text format count level) }
{
    Ok(write!(text, "pst {format}\nscenario {count} {level}\n")?)
}

/// Adds the lines of join forms, in format 2 alone.
fn write_joins_in(text: &mut String, format: u8, nodes: &[Node]) -> Result<(), NoMemory>
    ensures { OnOk result (string_bytes text.new ≡ string_bytes text.old ++ joins_text format nodes.now) }
{
    if format == 2 {
        write_joins(text, nodes)?;
    }
    Ok(())
}

/// Adds the counts and the first objects.
fn write_upper(
    text: &mut String,
    names: &Names,
    model: &Model,
    scenario: &Scenario,
    paths: &[String],
    format: u8,
) -> Result<(), NoMemory>
    requires { map string_bytes paths.now ≡ all_paths names.now (view_model model.now) }
    ensures { OnOk result (string_bytes text.new ≡ string_bytes text.old ++ (counts_text format (length scenario.now.actions) scenario.now.level ++ each_from (λ number first. first_line names.now (view_model model.now) first) 0 scenario.now.firsts)) }
{
    write_counts(
        text,
        format,
        scenario.actions.as_slice().len(),
        scenario.level,
    )?;
    write_firsts(text, names, model, paths, scenario.firsts.as_slice())
}

/// Adds the lines of nodes.
fn write_tree(
    text: &mut String,
    names: &Names,
    model: &Model,
    scenario: &Scenario,
    paths: &[String],
    format: u8,
) -> Result<(), NoMemory>
    requires { map string_bytes paths.now ≡ all_paths names.now (view_model model.now) }
    ensures { OnOk result (string_bytes text.new ≡ string_bytes text.old ++ (each_from (λ number node. compound_text names.now (view_model model.now) node.fill) 0 scenario.now.nodes ++ joins_text format scenario.now.nodes)) }
{
    write_nodes(text, names, model, paths, scenario.nodes.as_slice())?;
    write_joins_in(text, format, scenario.nodes.as_slice())?;
    Ok(())
}

/// Adds the lines of a header, where the paths of the instances are known.
fn write_lines(
    text: &mut String,
    names: &Names,
    model: &Model,
    scenario: &Scenario,
    paths: &[String],
    format: u8,
) -> Result<(), NoMemory>
    requires { map string_bytes paths.now ≡ all_paths names.now (view_model model.now) }
    ensures { OnOk result (string_bytes text.new ≡ string_bytes text.old ++ header_text format names.now (view_model model.now) scenario.now) }
{
    write_upper(text, names, model, scenario, paths, format)?;
    write_tree(text, names, model, scenario, paths, format)?;
    write_acts(text, names, model, scenario, paths)
}

/// Adds the header in a format.
fn write_header(
    alloc: Global,
    text: &mut String,
    names: &Names,
    model: &Model,
    scenario: &Scenario,
    format: u8,
) -> Result<(), NoMemory>
    ensures { OnOk result (string_bytes text.new ≡ string_bytes text.old ++ header_text format names.now (view_model model.now) scenario.now) }
{
    let paths = paths_of(alloc, names, model)?;
    write_lines(text, names, model, scenario, &paths, format)
}

/// Whether the scenario has a header in the format.
fn has_header(model: &Model, scenario: &Scenario, format: u8) -> bool
    ensures { IsTrue result ↔ HasHeader format (view_model model.now) scenario.now }
{
    match format {
        1 => !prints_element(model, scenario),
        2 => true,
        _ => false,
    }
}

/// The header of a scenario in a format: the lines of its trace before the first block.
///
/// There is none exactly where the format is neither 1 nor 2, or where it is 1 and an element of an array would be printed. In
/// format 1 no `join` line is printed.
pub fn header(
    alloc: Global,
    names: &Names,
    model: &Model,
    scenario: &Scenario,
    format: u8,
) -> Result<Option<String>, NoMemory>
    ensures { IfOk result (λ header. MatchOption header (HasHeader format (view_model model.now) scenario.now → ⊥)
        (λ text. HasHeader format (view_model model.now) scenario.now × (string_bytes text ≡ header_text format names.now (view_model model.now) scenario.now))) }
{
    if !has_header(model, scenario, format) {
        return Ok(None);
    }
    let mut text = String::new(alloc);
    write_header(alloc, &mut text, names, model, scenario, format)?;
    Ok(Some(text))
}

/// The text of a trace in format 2: the header of its scenario, a line for each block of events, and a last line.
pub fn write_trace(
    alloc: Global,
    names: &Names,
    model: &Model,
    scenario: &Scenario,
    events: &[Event],
    last: Last,
) -> Result<String, NoMemory>
    ensures { IfOk result (λ text. string_bytes text ≡ trace_text names.now (view_model model.now) scenario.now events.now last) }
{
    let mut text = String::new(alloc);
    write_header(alloc, &mut text, names, model, scenario, 2)?;
    write_events(&mut text, events)?;
    write_last(&mut text, scenario.actions.as_slice().len(), last)?;
    Ok(text)
}
