//! Lines of places.
ghost use Rattle.std.specs.Prelude.{◌≡◌, ◌++◌, ◌≤◌, length, get_or, string_bytes, OnOk};
ghost use Rattle.pst_trace_texts.specs.Lines.{each_from};
ghost use Rattle.pst_place_answers.specs.Texts.{place_line, placed_line};

use pst_addr::Ask;
use pst_base::NoMemory;

/// Adds the line of an ask that has this address.
fn write_place(text: &mut String, ask: Ask, address: u64) -> Result<(), NoMemory>
    ensures { OnOk result (string_bytes text.new ≡ string_bytes text.old ++ place_line ask address) }
{
    let Ask { action, size, .. } = ask;
    Ok(write!(text, "place {action} {address} {size}\n")?)
}

/// Adds a line for each ask, with its address.
pub(crate) fn write_places(text: &mut String, asks: &[Ask], places: &[u64]) -> Result<(), NoMemory>
    requires { length asks.now ≤ length places.now }
    ensures { OnOk result (string_bytes text.new ≡ string_bytes text.old ++ each_from (λ number ask. place_line ask (get_or places.now number 0)) 0 asks.now) }
{
    for (number, ask) in asks.iter().enumerate() {
        write_place(text, *ask, places[number])?;
    }
    Ok(())
}

/// Adds the last line.
pub(crate) fn write_count(text: &mut String, count: usize) -> Result<(), NoMemory>
    ensures { OnOk result (string_bytes text.new ≡ string_bytes text.old ++ placed_line count) }
{
    Ok(write!(text, "placed {count}\n")?)
}
