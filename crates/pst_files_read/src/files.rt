//! Reading the files of sources.
ghost use Rattle.std.specs.Prelude.{◌≡◌, ◌+◌, ◌-◌, ◌<◌, ◌≤◌, ◌++◌, ◌∷◌, ◌⊎◌, [], map, length, string_bytes, IfOk, IfErr, OnOk};
ghost use Rattle.pst_files_read.specs.Files.{AreRead, Finds, IsSourcesEnd, sources_in};
ghost use Rattle.pst_files_read.specs.FilesRead.{AreReadSoFar, IsOpen, end_of};

use pst_base::Items;
use pst_io::{ReadEnd, Shelf, read_all};
use pst_words::is_file_name;
use std::alloc::Global;

/// The most bytes of all sources together.
pub const MOST_BYTES: usize = 1_048_576;

/// Why files weren't read.
#[derive(Clone, Copy, Debug, PartialEq, Eq)]
pub enum FileEnd {
    /// The shelf has no file of the name that this word gives.
    Missing {
        /// The number of the word; the command is word 0.
        word: u32,
    },
    /// The shelf's count of faults rose as the file of this word was opened or read.
    Failed {
        /// The number of the word.
        word: u32,
    },
    /// There are more bytes than the limit.
    TooLarge,
    /// Memory ran out.
    NoMemory,
}

/// Why a file wasn't read.
#[derive(Clone, Copy, Debug, PartialEq, Eq)]
pub enum FileFault {
    /// There is none of that name.
    Missing,
    /// The shelf's count of faults rose.
    Failed,
    /// It has more bytes than allowed.
    TooLong,
    /// Memory ran out.
    NoMemory,
}

impl FileFault {
    /// The same of the file that the word of this number names.
    pub(crate) fn of_word(self, word: usize) -> FileEnd
        ensures { (result ≡ FileEnd.NoMemory) ⊎ (result ≡ end_of self word) }
    {
        let Ok(word) = u32::try_from(word) else {
            return FileEnd::NoMemory;
        };
        match self {
            FileFault::Missing => FileEnd::Missing { word },
            FileFault::Failed => FileEnd::Failed { word },
            FileFault::TooLong => FileEnd::TooLarge,
            FileFault::NoMemory => FileEnd::NoMemory,
        }
    }
}

// Reads the open file.
fn read_open<S: Shelf>(
    alloc: Global,
    shelf: &mut S,
    name: &str,
    most: usize,
) -> Result<Items<u8>, FileFault>
    requires open { IsOpen (S.files shelf.old) name.now (S.rest shelf.old) }
    ensures same_files { S.files shelf.new ≡ S.files shelf.old }
    ensures finds { Finds (S.files shelf.old) (S.faults shelf.old) (S.faults shelf.new) name.now most result }
{
    let _name = name;
    let mut text = Vec::new(alloc);
    match read_all(shelf, &mut text, most) {
        Ok(()) => Ok(Items::from_vec(text)),
        Err(ReadEnd::Failed) => Err(FileFault::Failed),
        Err(ReadEnd::TooLong) => Err(FileFault::TooLong),
        Err(ReadEnd::NoMemory) => Err(FileFault::NoMemory),
    }
}

/// Reads the file of this name, which may have so many bytes.
pub(crate) fn read_file<S: Shelf>(
    alloc: Global,
    shelf: &mut S,
    name: &str,
    most: usize,
) -> Result<Items<u8>, FileFault>
    ensures same_files { S.files shelf.new ≡ S.files shelf.old }
    ensures finds { Finds (S.files shelf.old) (S.faults shelf.old) (S.faults shelf.new) name.now most result }
{
    match shelf.open(name) {
        Err(_) => Err(FileFault::Failed),
        Ok(false) => Err(FileFault::Missing),
        Ok(true) => read_open(alloc, shelf, name, most),
    }
}

// Adds a text, and answers how many bytes more the sources may have.
fn add_text(texts: &mut Vec<Items<u8>>, left: usize, text: Items<u8>) -> Result<usize, FileEnd>
    requires { length text ≤ left }
    ensures added { OnOk result (texts.new.items ≡ texts.old.items ++ text ∷ []) }
    ensures more { IfOk result (λ more. more ≡ left - length text) }
    ensures end { IfErr result (λ end. end ≡ FileEnd.NoMemory) }
{
    let more = left - text.as_slice().len();
    match texts.push(text) {
        Ok(()) => Ok(more),
        Err(_) => Err(FileEnd::NoMemory),
    }
}

// Reads the source that an argument names, where it names one, and answers how many bytes more the
// sources may have.
fn read_argument<S: Shelf>(
    alloc: Global,
    shelf: &mut S,
    arguments: &[String],
    number: usize,
    left: usize,
    texts: &mut Vec<Items<u8>>,
) -> Result<usize, FileEnd>
    requires inside { number < length arguments.now }
    requires before { AreReadSoFar (S.files shelf.old) (map string_bytes arguments.now) number texts.old.items left }
    ensures same_files { S.files shelf.new ≡ S.files shelf.old }
    ensures count { OnOk result (S.faults shelf.new ≡ S.faults shelf.old) }
    ensures read { IfOk result (AreReadSoFar (S.files shelf.old) (map string_bytes arguments.now) (number + 1) texts.new.items) }
    ensures end { IfErr result (IsSourcesEnd (S.files shelf.old) (S.faults shelf.old) (S.faults shelf.new) (map string_bytes arguments.now)) }
{
    let name = arguments[number].as_str();
    if !is_file_name(name.as_bytes()) {
        return Ok(left);
    }
    match read_file(alloc, shelf, name, left) {
        Ok(text) => add_text(texts, left, text),
        Err(fault) => Err(fault.of_word(number + 1)),
    }
}

/// Reads the files that the words behind a command name as sources, one after another.
///
/// It stops at the first file that isn't there or can't be read, or with which there are more than
/// 1,048,576 bytes. `NoMemory` comes where memory ran out, and where the number of a word is beyond
/// 2^32.
pub fn read_sources<S: Shelf>(
    alloc: Global,
    shelf: &mut S,
    arguments: &[String],
) -> Result<Vec<Items<u8>>, FileEnd>
    ensures same_files { S.files shelf.new ≡ S.files shelf.old }
    ensures count { OnOk result (S.faults shelf.new ≡ S.faults shelf.old) }
    ensures read { IfOk result (λ texts. AreRead (S.files shelf.old) (sources_in (map string_bytes arguments.now)) texts.items) }
    ensures end { IfErr result (IsSourcesEnd (S.files shelf.old) (S.faults shelf.old) (S.faults shelf.new) (map string_bytes arguments.now)) }
{
    let mut texts = Vec::new(alloc);
    let mut left = MOST_BYTES;
    for number in 0..arguments.len() {
        match read_argument(alloc, shelf, arguments, number, left, &mut texts) {
            Ok(more) => left = more,
            Err(end) => return Err(end),
        }
    }
    Ok(texts)
}
