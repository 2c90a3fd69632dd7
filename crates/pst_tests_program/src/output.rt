//! Standard output, and one that takes few bytes at a time.
use pst_io::{Failed, OutSink, Sink, write_all};
use std::alloc::{AllocError, Global};
use std::fmt::Display;
use std::fs::{File, OpenOptions};
use std::io;
use std::io::{ErrorKind, Write};

// Standard output that leads into a file, and takes at most so many bytes at a time.
#[derive(Drop)]
struct Narrow {
    file: File,
    most: usize,
}

impl Print for Narrow {
    fn print<D: Display + Drop>(&self, _value: D) -> io::Result<()> {
        Err(io::Error::from(ErrorKind::Unsupported))
    }

    fn println<D: Display + Drop>(&self, _value: D) -> io::Result<()> {
        Err(io::Error::from(ErrorKind::Unsupported))
    }

    fn write_all(&self, _bytes: &[u8]) -> io::Result<()> {
        Err(io::Error::from(ErrorKind::Unsupported))
    }

    fn write_some(&self, bytes: &[u8]) -> io::Result<usize> {
        let n = self.most.min(bytes.len());
        let mut file = &self.file;
        file.write(&bytes[..n])
    }
}

// What a sink answers that is asked to write a text, and then the whole of another.
fn written<K: Sink>(
    alloc: Global,
    sink: &mut K,
    first: &str,
    second: &str,
) -> Result<String, AllocError> {
    if sink
        .reserve(first.len().saturating_add(second.len()))
        .is_err()
    {
        return String::from_str(alloc, "no memory");
    }
    let mut answer = match sink.write(first.as_bytes()) {
        Ok(count) => format!(in alloc; "{count} ")?,
        Err(Failed) => String::from_str(alloc, "failed ")?,
    };
    if sink.reserve(second.len()).is_err() {
        return String::from_str(alloc, "no memory");
    }
    match write_all(sink, second.as_bytes()) {
        Ok(()) => answer.push_str("done")?,
        Err(Failed) => answer.push_str("failed")?,
    }
    Ok(answer)
}

/// What standard output answers to a write of nothing and then of a line.
pub fn standard(rt: &HostRuntime, line: &str) -> Result<String, AllocError> {
    let alloc = rt.alloc();
    let mut sink = OutSink::new(rt);
    let whole = format!(in alloc; "{line}\n")?;
    written(alloc, &mut sink, "", whole.as_str())
}

/// What an output that leads into a file answers to writes of `some` and ` bytes`. The text is the
/// most bytes that it takes at a time, and the name of the file.
pub fn through_narrow(rt: &HostRuntime, text: &str) -> Result<String, AllocError> {
    let alloc = rt.alloc();
    let (most, name) = text.split_once(' ').unwrap_or(("0", text));
    let most = most.parse::<usize>().unwrap_or(0);
    let Ok(file) = OpenOptions::new().write(true).open(rt, name) else {
        return String::from_str(alloc, "not opened");
    };
    let out = Narrow { file, most };
    let mut sink = OutSink::new(&out);
    written(alloc, &mut sink, "some", " bytes")
}
