//! Files of a system that refuses access, or whose reads fail in the middle.
use crate::shelves::taken;
use pst_io::FileShelf;
use std::alloc::{AllocError, Allocator, Global};
use std::fs::{File, Metadata, OpenFile, OpenOptions};
use std::io;
use std::io::{ErrorKind, Read, Seek, SeekFrom, Write};
use std::rt::Files;

// What no case asks for.
fn unasked() -> io::Error {
    io::Error::from(ErrorKind::Unsupported)
}

/// A file of letters, of which a read behind the first `left` fails.
#[derive(Drop)]
struct Broken {
    left: usize,
}

impl Read for Broken {
    fn read(&mut self, buf: &mut [u8]) -> io::Result<usize> {
        if self.left == 0 {
            return Err(io::Error::from(ErrorKind::Other));
        }
        let n = self.left.min(buf.len());
        buf[..n].fill(b'x');
        self.left -= n;
        Ok(n)
    }
}

impl Write for Broken {
    fn write(&mut self, _buf: &[u8]) -> io::Result<usize> {
        Err(unasked())
    }

    fn flush(&mut self) -> io::Result<()> {
        Err(unasked())
    }
}

impl Seek for Broken {
    fn seek(&mut self, _to: SeekFrom) -> io::Result<u64> {
        Err(unasked())
    }
}

impl OpenFile for Broken {
    fn metadata(&self) -> io::Result<Metadata> {
        Err(unasked())
    }

    fn set_len(&self, _size: u64) -> io::Result<()> {
        Err(unasked())
    }

    fn sync_all(&self) -> io::Result<()> {
        Err(unasked())
    }

    fn sync_data(&self) -> io::Result<()> {
        Err(unasked())
    }
}

/// A system whose files are all broken behind so many bytes; without such a number it refuses access.
#[derive(Drop)]
struct BrokenFiles {
    whole: Option<usize>,
}

impl Files for BrokenFiles {
    type File = Broken;

    type Dir = File;

    fn open_file(&self, _how: &OpenOptions, _path: &str) -> io::Result<Broken> {
        match self.whole {
            Some(left) => Ok(Broken { left }),
            None => Err(io::Error::from(ErrorKind::PermissionDenied)),
        }
    }

    fn open_dir(&self, _path: &str) -> io::Result<File> {
        Err(unasked())
    }

    fn metadata(&self, _path: &str) -> io::Result<Metadata> {
        Err(unasked())
    }

    fn symlink_metadata(&self, _path: &str) -> io::Result<Metadata> {
        Err(unasked())
    }

    fn copy(&self, _from: &str, _to: &str) -> io::Result<u64> {
        Err(unasked())
    }

    fn rename(&self, _from: &str, _to: &str) -> io::Result<()> {
        Err(unasked())
    }

    fn remove_file(&self, _path: &str) -> io::Result<()> {
        Err(unasked())
    }

    fn create_dir(&self, _path: &str) -> io::Result<()> {
        Err(unasked())
    }

    fn remove_dir(&self, _path: &str) -> io::Result<()> {
        Err(unasked())
    }

    fn remove_dir_all<B: Allocator>(&self, _alloc: B, _path: &str) -> io::Result<()> {
        Err(unasked())
    }
}

/// What a shelf of such files answers. The text is how many bytes each file has before its reads
/// fail, or `-` where access is refused; ` | ` and commands.
pub fn answer(alloc: Global, text: &str) -> Result<String, AllocError> {
    let (whole, commands) = text.split_once(" | ").unwrap_or((text, ""));
    let files = BrokenFiles {
        whole: whole.parse::<usize>().ok(),
    };
    let mut shelf = FileShelf::new(&files);
    taken(alloc, &mut shelf, commands)
}
