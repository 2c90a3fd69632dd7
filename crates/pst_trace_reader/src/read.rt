//! Reading a trace from a text.
ghost use Rattle.std.specs.Prelude.{◌≡◌, ◌<◌, ◌+◌, ◌-◌, ◌^◌, ℕ, ◌++◌, ◌∷◌, [], map, string_bytes, codes, decimal, nat_eq, IfOk, OnOk, MatchOption};
ghost use Rattle.std.specs.List.{count_by};
ghost use Rattle.pst_trace_reader.specs.Traces.{IsFormatLine};
ghost use Rattle.pst_trace_reader.specs.Top.{RestEnds, CountedEnds, TextEnds};

pub use crate::body::TraceEnd;
use crate::body::read_body;
use crate::line::Reading;
use crate::text::TraceText;
use pst_base::NoMemory;
use pst_trace_lines::{cut, read_counts};
use pst_words::number_in;
use std::alloc::Global;

/// What stands behind the word of a format.
fn behind_word(line: &[u8]) -> Option<&[u8]>
    ensures { MatchOption result ((format : ℕ) → IsFormatLine line.now format → ⊥) (λ rest. line.now ≡ codes "pst " ++ rest.now) }
{
    line.strip_prefix(b"pst ".as_slice())
}

/// The format that a line names.
fn format_of(line: &[u8]) -> Option<u8>
    ensures { MatchOption result ((format : ℕ) → IsFormatLine line.now format → ⊥) (λ format. IsFormatLine line.now format) }
{
    let rest = behind_word(line)?;
    let format = number_in(rest)?;
    if format == 1 {
        return Some(1);
    }
    if format == 2 {
        return Some(2);
    }
    None
}

/// Adds a line.
fn add_line(lines: &mut Vec<String>, text: String) -> Result<(), NoMemory>
    ensures { OnOk result (map string_bytes lines.new.items ≡ map string_bytes lines.old.items ++ string_bytes text ∷ []) }
{
    lines.push(text)?;
    Ok(())
}

/// The line of a format.
fn format_line(alloc: Global, format: u8) -> Result<String, NoMemory>
    ensures { IfOk result (λ line. string_bytes line ≡ codes "pst " ++ decimal format) }
{
    Ok(format!(in alloc; "pst {format}")?)
}

/// The line of counts.
fn counts_line(alloc: Global, actions: u32, inferred: u32) -> Result<String, NoMemory>
    ensures { IfOk result (λ line. string_bytes line ≡ codes "scenario " ++ decimal actions ++ codes " " ++ decimal inferred) }
{
    Ok(format!(in alloc; "scenario {actions} {inferred}")?)
}

/// The lines of a format and of counts.
fn first_lines(
    alloc: Global,
    format: u8,
    actions: u32,
    inferred: u32,
) -> Result<Vec<String>, NoMemory>
    ensures { IfOk result (λ lines. map string_bytes lines.items ≡ (codes "pst " ++ decimal format) ∷ (codes "scenario " ++ decimal actions ++ codes " " ++ decimal inferred) ∷ []) }
{
    let mut lines = Vec::new(alloc);
    add_line(&mut lines, format_line(alloc, format)?)?;
    add_line(&mut lines, counts_line(alloc, actions, inferred)?)?;
    Ok(lines)
}

/// Reads what stands behind a format and counts.
fn read_rest(
    alloc: Global,
    format: u8,
    actions: u32,
    inferred: u32,
    text: &[u8],
) -> Result<TraceText, TraceEnd>
    requires { count_by (nat_eq 10) text.now + 3 < 2 ^ 32 }
    ensures { RestEnds format actions inferred text.now result }
{
    let header = first_lines(alloc, format, actions, inferred)?;
    let mut reading = Reading {
        format,
        passed: 0,
        header,
        events: Vec::new(alloc),
    };
    match read_body(alloc, &mut reading, text) {
        Ok(last) => {
            let Reading { header, events, .. } = reading;
            Ok(TraceText {
                format,
                header,
                events,
                last,
            })
        }
        Err(end) => Err(end),
    }
}

/// Reads what stands behind a format.
fn read_counted(alloc: Global, format: u8, text: &[u8]) -> Result<TraceText, TraceEnd>
    requires { count_by (nat_eq 10) text.now + 3 < 2 ^ 32 }
    ensures { CountedEnds format text.now result }
{
    let Some((counts, rest)) = cut(text, b'\n') else {
        return Err(TraceEnd::Bad { line: 2 });
    };
    let Some((actions, inferred)) = read_counts(counts) else {
        return Err(TraceEnd::Bad { line: 2 });
    };
    read_rest(alloc, format, actions, inferred, rest)
}

/// Reads a trace from a text, in either format.
///
/// The text has fewer than 2^32 - 2 line feeds. Where it is that of a trace, the answer is what it
/// stands for; else the number of the first bad line, counted from 1: some trace begins with the
/// lines before it, and none with it too. Where a line is missing, or the last one has no line feed,
/// it is the line behind those that have one.
pub fn read_trace(alloc: Global, text: &[u8]) -> Result<TraceText, TraceEnd>
    requires { count_by (nat_eq 10) text.now < 2 ^ 32 - 2 }
    ensures { TextEnds text.now result }
{
    let Some((first, rest)) = cut(text, b'\n') else {
        return Err(TraceEnd::Bad { line: 1 });
    };
    let Some(format) = format_of(first) else {
        return Err(TraceEnd::Bad { line: 1 });
    };
    read_counted(alloc, format, rest)
}
