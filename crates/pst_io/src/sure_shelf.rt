ghost use Rattle.std.specs.Prelude.{◌≡◌, ℕ, ◌≤◌, ◌<◌, [], ◌++◌, min, Ok, None, Some, List, length, take, drop, Option, MatchOption, slice_get, position, string_bytes};
ghost use Rattle.std.specs.Option.{is_some, unwrap_or, option_map};
ghost use Rattle.std.specs.Str.{bytes_eq};
ghost use Rattle.pst_io.specs.Named.{file_of};
ghost use Rattle.pst_io.specs.SureShelf.{named};

use crate::fault::Failed;
use crate::shelf::Shelf;
use std::marker::Model;

/// A shelf in memory that never fails.
///
/// Of two files with one name the first one counts. Before the first file is opened nothing is left to read.
#[derive(Drop)]
pub struct SureShelf {
    files: Vec<(String, Vec<u8>)>,
    reading: Option<Reading>,
}

/// The file that is open, by its index, and how many of its bytes were read.
#[derive(Clone, Copy)]
struct Reading {
    file: usize,
    at: usize,
}

impl Model for SureShelf {
    ghost use Rattle.pst_io.specs.Named.{OpenFiles};

    ghost Value = { OpenFiles };

    ghost use Rattle.pst_io.specs.SureShelf.{open_files, IsWithin};

    ghost view = { open_files };

    ghost invariant = { IsWithin };
}

impl SureShelf {
    /// A shelf with these files, none of which is open.
    pub fn new(files: Vec<(String, Vec<u8>)>) -> SureShelf
        ensures { result ≡ record { files = named files.items; rest = [] } }
    {
        SureShelf {
            files,
            reading: None,
        }
    }
}

impl Shelf for SureShelf {
    ghost files = { λ shelf. Some (file_of shelf.files) };

    ghost rest = { λ shelf. Some shelf.rest };

    ghost faults = { λ _. 0 };

    fn open(&mut self, name: &str) -> Result<bool, Failed>
        ensures answer { result ≡ Ok (is_some (file_of self.old.files name.now)) }
        ensures shelf { self.new ≡ record self.old { rest = unwrap_or (file_of self.old.files name.now) self.old.rest } }
    {
        match index_of(self.files.as_slice(), name) {
            None => Ok(false),
            Some(file) => {
                self.reading = Some(Reading { file, at: 0 });
                Ok(true)
            }
        }
    }

    fn read(&mut self, into: &mut [u8]) -> Result<usize, Failed>
        ensures answer { result ≡ Ok (min (length into.old) (length self.old.rest)) }
        ensures piece { into.new ≡ take (length into.old) self.old.rest ++ drop (length self.old.rest) into.old }
        ensures shelf { self.new ≡ record self.old { rest = drop (length into.old) self.old.rest } }
    {
        let Some(reading) = self.reading else {
            return Ok(0);
        };
        let left = &self.files[reading.file].1[reading.at..];
        let n = into.len().min(left.len());
        into[..n].copy_from_slice(&left[..n]);
        self.reading = Some(Reading {
            file: reading.file,
            at: reading.at + n,
        });
        Ok(n)
    }
}

/// The index of the first file of this name.
fn index_of(files: &[(String, Vec<u8>)], name: &str) -> Option<usize>
    ensures { result ≡ position (λ file. bytes_eq (string_bytes file.0) name.now) files.now }
{
    files.iter().position(|(file, _)| file.as_str() == name)
}
