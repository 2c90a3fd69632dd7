ghost use Rattle.std.specs.Prelude.{◌≡◌, None};
ghost use Rattle.pst_base.specs.Fault.{HasRisen};

use crate::fault::Failed;
use crate::shelf::Shelf;
use std::fs;
use std::io::{ErrorKind, Read};
use std::marker::Model;
use std::rt::Files;

/// A shelf over the system's files, named by their paths. It tells neither its files nor what is left of one.
///
/// There is no file of a name exactly where the system answers that it finds none; whatever else goes wrong is a failure,
/// an interrupted call too. Contracts see the count of failures alone.
#[derive(Drop)]
pub struct FileShelf<'a, R: Files> {
    rt: &'a R,
    file: Option<R::File>,
    faults: u64,
}

impl<'a, R: Files> Model for FileShelf<'a, R> {
    ghost use Rattle.std.specs.Prelude.{ℕ};

    ghost Value = { ℕ };

    ghost view = { λ shelf. shelf.faults };
}

impl<'a, R: Files> FileShelf<'a, R> {
    /// A shelf without an open file.
    pub fn new(rt: &'a R) -> FileShelf<'a, R>
        ensures { result ≡ 0 }
    {
        FileShelf {
            rt,
            file: None,
            faults: 0,
        }
    }

    /// Counts a failure.
    fn failure(&mut self) -> Failed
        ensures { HasRisen self.old self.new }
    {
        self.faults = self.faults.saturating_add(1);
        Failed
    }
}

impl<R: Files> Shelf for FileShelf<'_, R> {
    ghost files = { λ _. None };

    ghost rest = { λ _. None };

    ghost faults = { λ count. count };

    fn open(&mut self, name: &str) -> Result<bool, Failed> {
        match fs::open(self.rt, name) {
            Ok(file) => {
                self.file = Some(file);
                Ok(true)
            }
            Err(error) if error.kind() == ErrorKind::NotFound => Ok(false),
            Err(_) => Err(self.failure()),
        }
    }

    fn read(&mut self, into: &mut [u8]) -> Result<usize, Failed> {
        let Some(file) = &mut self.file else {
            return Ok(0);
        };
        match file.read(into) {
            Ok(n) => Ok(n),
            Err(_) => Err(self.failure()),
        }
    }
}
