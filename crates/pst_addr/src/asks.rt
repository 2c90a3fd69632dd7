//! What the actions of a scenario ask for.
ghost use Rattle.std.specs.Prelude.{◌≡◌, ◌<◌, ◌++◌, ◌^◌, length, slice_get, position, IfOk, OnOk};
ghost use Rattle.std.specs.Option.{option_to_list};
ghost use Rattle.pst_model.specs.ModelView.{view_model};
ghost use Rattle.pst_trace_texts.specs.Named.{name, action_fields as fields_of_type};
ghost use Rattle.pst_addr.specs.Asks.{is_field as is_that_field, above_zero as number_above_zero, wanted as is_wanted, asked_by as is_asked_by, asked as is_asked, asks_of as asks_of_scenario};

use crate::ask::Ask;
use pst_base::{NameId, Names, NoMemory};
use pst_model::{Field, Model};
use pst_scen::{Act, Scenario};
use std::alloc::Global;

/// The text of a name; empty where there is none of that number.
fn name_of(names: &Names, id: NameId) -> &str
    ensures { result.now ≡ name names.now id }
{
    if id.0 < names.len() {
        names.text(id)
    } else {
        ""
    }
}

/// Whether the field has that name and is no element of an array.
fn is_field(names: &Names, text: &str, field: &Field) -> bool
    ensures { result ≡ is_that_field names.now text.now field.now }
{
    field.element.is_none() && name_of(names, field.name).as_bytes() == text.as_bytes()
}

/// The place of the first such field.
fn place_of(names: &Names, text: &str, fields: &[Field]) -> Option<usize>
    ensures { result ≡ position (is_that_field names.now text.now) fields.now }
{
    fields.iter().position(|field| is_field(names, text, field))
}

/// The value, where it is above 0.
fn above_zero(value: i64) -> Option<u64>
    ensures { result ≡ number_above_zero value }
{
    if value > 0 { Some(value as u64) } else { None }
}

/// The value of the first such field, where it is above 0.
fn wanted(names: &Names, text: &str, fields: &[Field], values: &[i64]) -> Option<u64>
    ensures { result ≡ is_wanted names.now text.now fields.now values.now }
{
    let at = place_of(names, text, fields)?;
    let value = values.get(at)?;
    above_zero(*value)
}

/// What the action of that number asks for, with these fields and values.
fn asked_by(names: &Names, action: u32, fields: &[Field], values: &[i64]) -> Option<Ask>
    ensures { result ≡ is_asked_by names.now action fields.now values.now }
{
    let size = wanted(names, "mem_size", fields, values)?;
    let align = wanted(names, "mem_align", fields, values).unwrap_or(1);
    Some(Ask {
        action,
        size,
        align,
    })
}

/// The fields of the action type of that number; none where there is no such type.
fn fields_of(model: &Model, action: u32) -> &[Field]
    ensures { result.now ≡ fields_of_type (slice_get (view_model model.now).actions action) }
{
    match model.actions.get(action as usize) {
        Some(found) => found.fields.as_slice(),
        None => &[],
    }
}

/// What the action of that number asks for.
fn asked(names: &Names, model: &Model, number: u32, act: &Act) -> Option<Ask>
    ensures { result ≡ is_asked names.now (view_model model.now) number act.now }
{
    asked_by(
        names,
        number,
        fields_of(model, act.action),
        act.fields.as_slice(),
    )
}

/// Adds an ask, if there is one.
fn add_ask(asks: &mut Vec<Ask>, ask: Option<Ask>) -> Result<(), NoMemory>
    ensures { OnOk result (asks.new.items ≡ asks.old.items ++ option_to_list ask) }
{
    if let Some(ask) = ask {
        asks.push(ask)?;
    }
    Ok(())
}

/// What the scenario's actions ask for, in their order: an action with a field `mem_size` that is no
/// element of an array, and above 0, asks for that many bytes. The value of such a field `mem_align`
/// is their alignment, where there is one and it is above 0, and else 1.
pub fn asks_of(
    alloc: Global,
    names: &Names,
    model: &Model,
    scenario: &Scenario,
) -> Result<Vec<Ask>, NoMemory>
    requires { length scenario.now.actions < 2 ^ 32 }
    ensures { IfOk result (λ asks. asks.items ≡ asks_of_scenario names.now (view_model model.now) scenario.now) }
{
    let mut asks = Vec::new(alloc);
    for (number, act) in scenario.actions.as_slice().iter().enumerate() {
        add_ask(&mut asks, asked(names, model, number as u32, act))?;
    }
    Ok(asks)
}
