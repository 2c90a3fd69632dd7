//! The source of a generated model.
ghost use Rattle.std.specs.Prelude.{◌≤◌, length, map, string_bytes, IfOk};
ghost use Rattle.pst_files_read.specs.Limits.{most_bytes};
ghost use Rattle.pst_line_parts.specs.Lines.{AreBehind, IsGenerated};

use crate::numbers::size_given;
use pst_base::{Items, NoMemory};
use pst_generated::generated_text;
use pst_words::Line;
use std::alloc::Global;

/// The source of the model that a line of `gen` asks for.
pub fn source_of(alloc: Global, line: &Line<'_>) -> Result<Items<u8>, NoMemory>
    requires { AreBehind line.now.command (map string_bytes line.now.arguments.now) }
    ensures is { IfOk result (IsGenerated (map string_bytes line.now.arguments.now)) }
    ensures small { IfOk result (λ text. length text ≤ most_bytes) }
{
    let text = generated_text(alloc, size_given(line))?;
    Ok(Items::from_vec(text.into_bytes()))
}
