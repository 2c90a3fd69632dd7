//! Reading a trace file.
ghost use Rattle.std.specs.Prelude.{◌≡◌, ◌++◌, map, string_bytes, true, false, MatchOption, IfOk, IfErr, OnOk, Some, Ok};
ghost use Rattle.std.specs.List.{list_any};
ghost use Rattle.pst_words.specs.Table.{key_start};
ghost use Rattle.pst_words.specs.Lines.{is_of};
ghost use Rattle.pst_words.specs.declared.key.Key.TheVariants.{Trace};
ghost use Rattle.pst_files_read.specs.Files.{given_name, IsTraceWord, IsTraceRead, IsTraceEnd};

use crate::files::{FileEnd, read_file};
use pst_base::Items;
use pst_io::Shelf;
use std::alloc::Global;

/// The most bytes of a trace file.
pub const MOST_TRACE: usize = 4_194_304;

// The name of a trace file that the word gives.
fn trace_in(word: &str) -> Option<&str>
    ensures { MatchOption result (is_of Trace word.now ≡ false) (λ name. (is_of Trace word.now ≡ true) × (word.now ≡ key_start Trace ++ name.now)) }
{
    word.strip_prefix("trace=")
}

/// The name of the file that a word names, as a trace file or else as a source.
pub fn name_given(word: &str) -> &str
    ensures { result.now ≡ given_name word.now }
{
    match trace_in(word) {
        Some(name) => name,
        None => word,
    }
}

// Reads the trace file that a word names.
fn read_named<S: Shelf>(
    alloc: Global,
    shelf: &mut S,
    arguments: &[String],
    word: usize,
    name: &str,
) -> Result<Option<Items<u8>>, FileEnd>
    requires { IsTraceWord (map string_bytes arguments.now) word name.now }
    ensures same_files { S.files shelf.new ≡ S.files shelf.old }
    ensures count { OnOk result (S.faults shelf.new ≡ S.faults shelf.old) }
    ensures read { IfOk result (IsTraceRead (S.files shelf.old) (map string_bytes arguments.now)) }
    ensures end { IfErr result (IsTraceEnd (S.files shelf.old) (S.faults shelf.old) (S.faults shelf.new) (map string_bytes arguments.now)) }
{
    let _arguments = arguments;
    match read_file(alloc, shelf, name, MOST_TRACE) {
        Ok(text) => Ok(Some(text)),
        Err(fault) => Err(fault.of_word(word)),
    }
}

/// Reads the trace file that one of the words behind a command names, where one does so. It may have
/// 4,194,304 bytes.
pub fn read_trace<S: Shelf>(
    alloc: Global,
    shelf: &mut S,
    arguments: &[String],
) -> Result<Option<Items<u8>>, FileEnd>
    ensures same_files { S.files shelf.new ≡ S.files shelf.old }
    ensures count { OnOk result (S.faults shelf.new ≡ S.faults shelf.old) }
    ensures read { IfOk result (IsTraceRead (S.files shelf.old) (map string_bytes arguments.now)) }
    ensures end { IfErr result (IsTraceEnd (S.files shelf.old) (S.faults shelf.old) (S.faults shelf.new) (map string_bytes arguments.now)) }
{
    for number in 0..arguments.len() {
        if let Some(name) = trace_in(arguments[number].as_str()) {
            return read_named(alloc, shelf, arguments, number + 1, name);
        }
    }
    Ok(None)
}
