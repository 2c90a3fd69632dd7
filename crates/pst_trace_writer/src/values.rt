//! Values of fields.
ghost use Rattle.std.specs.Prelude.{◌≡◌, ◌++◌, [], string_bytes, slice_get, OnOk};
ghost use Rattle.pst_trace_texts.specs.Header.{element_text, value_text, values_text};

use crate::lookups::name_of;
use pst_base::{Names, NoMemory};
use pst_model::Field;

/// Adds the index of an element.
fn write_element(text: &mut String, element: Option<u32>) -> Result<(), NoMemory>
    ensures { OnOk result (string_bytes text.new ≡ string_bytes text.old ++ element_text element) }
{
    match element {
        Some(index) => Ok(write!(text, "[{index}]")?),
        None => Ok(()),
    }
}

/// Adds a field with its value. Before its name stands that of the reference or claim whose object has it, and a dot; both
/// are empty for a field of an action.
fn write_field(
    text: &mut String,
    names: &Names,
    own: &str,
    dot: &str,
    field: &Field,
    value: i64,
) -> Result<(), NoMemory>
    ensures { OnOk result (string_bytes text.new ≡ string_bytes text.old ++ value_text names.now (own.now ++ dot.now) (Some field.now) value) }
{
    let name = name_of(names, field.name);
    write!(text, " {own}{dot}{name}")?;
    write_element(text, field.element)?;
    Ok(write!(text, "={value}")?)
}

/// Adds a value, where it has a field.
fn write_value(
    text: &mut String,
    names: &Names,
    own: &str,
    dot: &str,
    fields: &[Field],
    at: usize,
    value: i64,
) -> Result<(), NoMemory>
    ensures { OnOk result (string_bytes text.new ≡ string_bytes text.old ++ value_text names.now (own.now ++ dot.now) (slice_get fields.now at) value) }
{
    match fields.get(at) {
        Some(field) => write_field(text, names, own, dot, field, value),
        None => Ok(()),
    }
}

/// Adds the values of fields in order.
pub(crate) fn write_values(
    text: &mut String,
    names: &Names,
    own: &str,
    dot: &str,
    fields: &[Field],
    values: &[i64],
) -> Result<(), NoMemory>
    ensures { OnOk result (string_bytes text.new ≡ string_bytes text.old ++ values_text names.now (own.now ++ dot.now) fields.now values.now) }
{
    for (at, value) in values.iter().enumerate() {
        write_value(text, names, own, dot, fields, at, *value)?;
    }
    Ok(())
}
