//! Scenarios as texts.
use pst_scen::{Act, Link, Scenario};
use std::alloc::{AllocError, Global};
use std::fmt::Write;

fn write_values(text: &mut String, values: &[i64]) -> Result<(), AllocError> {
    for value in values {
        write!(text, " {value}")?;
    }
    Ok(())
}

fn write_link(text: &mut String, link: Link) -> Result<(), AllocError> {
    match link {
        Link::Nothing => write!(text, " -"),
        Link::Initial => write!(text, " initial"),
        Link::Act { act, reference } => write!(text, " {act}.{reference}"),
    }
}

fn write_act(text: &mut String, act: &Act) -> Result<(), AllocError> {
    write!(text, " | {}", act.action)?;
    write_values(text, act.fields.as_slice())?;
    for filled in act.references.as_slice() {
        write_link(text, filled.link)?;
        write_values(text, filled.values.as_slice())?;
    }
    for claimed in act.claims.as_slice() {
        write!(text, " in {}", claimed.instance)?;
        write_values(text, claimed.values.as_slice())?;
    }
    Ok(())
}

/// The level, the actions, each with its type, its values, its links with the values of what it
/// writes, and its claims; and the first objects.
pub fn shown(alloc: Global, scenario: &Scenario) -> Result<String, AllocError> {
    let mut text = String::new(alloc);
    write!(text, "found {}", scenario.level)?;
    for act in scenario.actions.as_slice() {
        write_act(&mut text, act)?;
    }
    for first in scenario.firsts.as_slice() {
        write!(text, " | first {}", first.pool)?;
        write_values(&mut text, first.values.as_slice())?;
    }
    Ok(text)
}
