//! What the files of a line come to.
ghost use Rattle.std.specs.Prelude.{◌≡◌, ◌-◌, ◌≤◌, [], get_or, map, length, string_bytes, IfOk};
ghost use Rattle.std.specs.List.{sum_by};
ghost use Rattle.pst_files_read.specs.Limits.{most_bytes, most_trace};
ghost use Rattle.pst_files_read.specs.Files.{AreRead, given_name, sources_in};
ghost use Rattle.pst_outcome.specs.Outcome.{bytes_of};
ghost use Rattle.pst_line_parts.specs.Lines.{AreBehind, ComesTo};
ghost use Rattle.pst_front.specs.Stages.{IsStage, SaysEnd, OfLine};

use crate::front::LineFront;
use crate::replies::{large, no_file, read_fault};
use crate::sources::stage_of_texts;
use crate::stage::Stage;
use pst_base::{Items, NoMemory};
use pst_files_read::{FileEnd, MOST_BYTES, MOST_TRACE, name_given, read_sources, read_trace};
use pst_io::Shelf;
use pst_line_parts::{is_gen, root_of, source_of};
use pst_outcome::What;
use pst_words::Line;
use std::alloc::Global;
use std::slice;

// The name of the file that a word names; the command is word 0.
fn name_of(arguments: &[String], word: u32) -> &str
    ensures { result.now ≡ given_name (get_or (map string_bytes arguments.now) (word - 1) []) }
{
    let number = word.saturating_sub(1) as usize;
    if number < arguments.len() {
        name_given(arguments[number].as_str())
    } else {
        ""
    }
}

// The stage of a reading of files that ended so. The number is the limit on the bytes, plus 1.
fn stage_at_end(
    alloc: Global,
    arguments: &[String],
    what: What,
    number: u64,
    end: FileEnd,
) -> Result<Stage, NoMemory>
    ensures { IfOk result (SaysEnd (map string_bytes arguments.now) what number end) }
{
    match end {
        FileEnd::Missing { word } => no_file(alloc, word, name_of(arguments, word)),
        FileEnd::Failed { word } => read_fault(alloc, word, name_of(arguments, word)),
        FileEnd::TooLarge => large(alloc, what, number),
        FileEnd::NoMemory => Err(NoMemory),
    }
}

// What a line comes to whose files weren't all read.
fn front_at_end(
    alloc: Global,
    arguments: &[String],
    what: What,
    number: u64,
    end: FileEnd,
) -> Result<LineFront, NoMemory>
    ensures says { IfOk result (λ front. SaysEnd (map string_bytes arguments.now) what number end front.stage) }
    ensures small { IfOk result (λ front. length (bytes_of front.trace) ≤ most_trace) }
{
    let stage = stage_at_end(alloc, arguments, what, number, end)?;
    Ok(LineFront { stage, trace: None })
}

// What the sources of a line come to: its files, or the source of a generated model.
fn stage_of_sources(alloc: Global, line: &Line<'_>, texts: &[Items<u8>]) -> Result<Stage, NoMemory>
    requires behind { AreBehind line.now.command (map string_bytes line.now.arguments.now) }
    requires small { sum_by length texts.now ≤ most_bytes }
    ensures { IfOk result (IsStage (ComesTo line.now.command (map string_bytes line.now.arguments.now) texts.now)) }
{
    let root = root_of(line);
    if is_gen(line.command) {
        let text = source_of(alloc, line)?;
        return stage_of_texts(alloc, line.arguments, &root, slice::from_ref(&text));
    }
    stage_of_texts(alloc, line.arguments, &root, texts)
}

// What a line comes to whose files are read.
fn front_of_files(
    alloc: Global,
    line: &Line<'_>,
    texts: &[Items<u8>],
    trace: Option<Items<u8>>,
) -> Result<LineFront, NoMemory>
    requires behind { AreBehind line.now.command (map string_bytes line.now.arguments.now) }
    requires small { sum_by length texts.now ≤ most_bytes }
    ensures comes_to { IfOk result (λ front. IsStage (ComesTo line.now.command (map string_bytes line.now.arguments.now) texts.now) front.stage) }
    ensures same_trace { IfOk result (λ front. front.trace ≡ trace) }
{
    let stage = stage_of_sources(alloc, line, texts)?;
    Ok(LineFront { stage, trace })
}

// What a line comes to whose sources are read.
fn front_behind_sources<S: Shelf>(
    alloc: Global,
    line: &Line<'_>,
    shelf: &mut S,
    texts: &[Items<u8>],
) -> Result<LineFront, NoMemory>
    requires behind { AreBehind line.now.command (map string_bytes line.now.arguments.now) }
    requires read { AreRead (S.files shelf.old) (sources_in (map string_bytes line.now.arguments.now)) texts.now }
    ensures same_files { S.files shelf.new ≡ S.files shelf.old }
    ensures right { IfOk result (λ front. IsStage (OfLine (S.files shelf.old) (S.faults shelf.old) (S.faults shelf.new) line.now.command (map string_bytes line.now.arguments.now) front.trace) front.stage) }
    ensures small { IfOk result (λ front. length (bytes_of front.trace) ≤ most_trace) }
{
    match read_trace(alloc, shelf, line.arguments) {
        Ok(trace) => front_of_files(alloc, line, texts, trace),
        Err(end) => {
            let number = MOST_TRACE as u64 + 1;
            front_at_end(alloc, line.arguments, What::Trace, number, end)
        }
    }
}

/// Reads the files of a line, and makes the model of its sources, or the answer where there is none.
///
/// The sources are read one after another and then the trace file, before any is judged. All of them are
/// cut into tokens in one table of names, then parsed, then elaborated. The source of a line of `gen` is
/// the generated model. A model is sound, and its root no abstract action type.
pub fn front_of_line<S: Shelf>(
    alloc: Global,
    line: &Line<'_>,
    shelf: &mut S,
) -> Result<LineFront, NoMemory>
    requires { AreBehind line.now.command (map string_bytes line.now.arguments.now) }
    ensures same_files { S.files shelf.new ≡ S.files shelf.old }
    ensures right { IfOk result (λ front. IsStage (OfLine (S.files shelf.old) (S.faults shelf.old) (S.faults shelf.new) line.now.command (map string_bytes line.now.arguments.now) front.trace) front.stage) }
    ensures small { IfOk result (λ front. length (bytes_of front.trace) ≤ most_trace) }
{
    match read_sources(alloc, shelf, line.arguments) {
        Ok(texts) => front_behind_sources(alloc, line, shelf, texts.as_slice()),
        Err(end) => {
            let number = MOST_BYTES as u64 + 1;
            front_at_end(alloc, line.arguments, What::Bytes, number, end)
        }
    }
}
