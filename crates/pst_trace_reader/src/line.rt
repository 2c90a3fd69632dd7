//! One line behind the counts of a text.
ghost use Rattle.std.specs.Prelude.{◌≡◌, ◌≤◌, ◌++◌, ◌∷◌, [], ℕ, List, true, map, string_bytes, IfOk, OnOk, MatchBool};
ghost use Rattle.std.specs.List.{list_all};
ghost use Rattle.pst_trace_lines.specs.declared.header.HeaderLine.{HeaderLine as AnyLine};
ghost use Rattle.pst_trace_lines.specs.declared.last.LastLine.{LastLine as AnyLast};
ghost use Rattle.pst_trace_lines.specs.Last.{IsLastLine};
ghost use Rattle.pst_trace_lines.specs.Headers.{rank, is_printed, IsHeaderLine};
ghost use Rattle.pst_trace_reader.specs.Going.{Steps};

use pst_base::NoMemory;
use pst_scen::Event;
use pst_trace_lines::{HeaderLine, LastLine, read_block, read_header_line, read_last};
use std::alloc::Global;

/// What was read so far.
#[derive(Drop)]
pub(crate) struct Reading {
    /// The format.
    pub(crate) format: u8,
    /// How many sorts of header lines are passed.
    pub(crate) passed: u8,
    /// The lines of the header.
    pub(crate) header: Vec<String>,
    /// The events of the blocks.
    pub(crate) events: Vec<Event>,
}

/// What a line does.
#[derive(Clone, Copy, Debug)]
pub(crate) enum Step {
    /// It goes on.
    Goes,
    /// It is the last one.
    Ends(LastLine),
    /// It may not stand there.
    Bad,
}

/// A line of printed bytes as a text.
fn printed(line: &[u8]) -> &str
    requires { list_all is_printed line.now ≡ true }
    ensures { result.now ≡ line.now }
{
    match str::from_utf8(line) {
        Ok(text) => text,
        Err(_) => unreachable!(),
    }
}

/// Adds a line of printed bytes.
fn keep_line(alloc: Global, header: &mut Vec<String>, line: &[u8]) -> Result<(), NoMemory>
    requires { list_all is_printed line.now ≡ true }
    ensures { OnOk result (map string_bytes header.new.items ≡ map string_bytes header.old.items ++ line.now ∷ []) }
{
    let text = String::from_str(alloc, printed(line))?;
    header.push(text)?;
    Ok(())
}

/// Whether a line of that sort may stand where so many sorts are passed.
fn may_stand(format: u8, passed: u8, sort: HeaderLine) -> bool
    ensures { MatchBool result ((passed ≤ rank sort) × (sort ≡ AnyLine.Join → format ≡ 2)) ((passed ≤ rank sort) → (sort ≡ AnyLine.Join → format ≡ 2) → ⊥) }
{
    if passed > sort.rank() {
        return false;
    }
    sort != HeaderLine::Join || format == 2
}

/// Reads a line of the header, which may stand there or not.
fn read_of_header(
    alloc: Global,
    reading: &mut Reading,
    line: &[u8],
    sort: HeaderLine,
) -> Result<Step, NoMemory>
    requires { IsHeaderLine sort line.now }
    ensures { IfOk result (λ step. Steps reading.old reading.new line.now step) }
{
    if !may_stand(reading.format, reading.passed, sort) {
        return Ok(Step::Bad);
    }
    keep_line(alloc, &mut reading.header, line)?;
    reading.passed = sort.rank();
    Ok(Step::Goes)
}

/// Reads a line of a block.
fn read_of_block(reading: &mut Reading, line: &[u8]) -> Result<Step, NoMemory>
    requires header { (sort : AnyLine) → IsHeaderLine sort line.now → ⊥ }
    requires last { (last : AnyLast) → IsLastLine line.now last → ⊥ }
    ensures { IfOk result (λ step. Steps reading.old reading.new line.now step) }
{
    if read_block(line, &mut reading.events)? {
        reading.passed = 4;
        return Ok(Step::Goes);
    }
    Ok(Step::Bad)
}

/// Reads one line behind the counts of a text.
pub(crate) fn read_line(alloc: Global, reading: &mut Reading, line: &[u8]) -> Result<Step, NoMemory>
    ensures { IfOk result (λ step. Steps reading.old reading.new line.now step) }
{
    if let Some(sort) = read_header_line(line) {
        return read_of_header(alloc, reading, line, sort);
    }
    if let Some(last) = read_last(line) {
        return Ok(Step::Ends(last));
    }
    read_of_block(reading, line)
}
