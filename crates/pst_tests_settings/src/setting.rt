//! The words, the shelf and the sink of a case.
use pst_cases::read_marked;
use pst_io::{MemoryShelf, MemorySink};
use std::alloc::{AllocError, Global};

/// The words of a case, and the shelf and the sink that they are answered with.
#[derive(Drop)]
pub struct Setting {
    /// The words.
    pub words: Vec<String>,
    /// The shelf.
    pub shelf: MemoryShelf,
    /// The sink.
    pub sink: MemorySink,
}

// The parts of a case, as they are written.
#[derive(Clone, Copy)]
struct Parts<'a> {
    words: &'a str,
    names: &'a str,
    shelf: &'a str,
    sink: &'a str,
    texts: &'a str,
}

// The numbers that stand in a text.
fn numbers(alloc: Global, text: &str) -> Result<Vec<u64>, AllocError> {
    let mut numbers = Vec::new(alloc);
    for word in text.split(' ') {
        if let Ok(number) = word.parse::<u64>() {
            numbers.push(number)?;
        }
    }
    Ok(numbers)
}

impl<'a> Parts<'a> {
    // The parts of a case.
    fn of(text: &'a str) -> Parts<'a> {
        let (words, text) = text.split_once(" => ").unwrap_or((text, ""));
        let (names, text) = text.split_once(" => ").unwrap_or((text, ""));
        let (shelf, text) = text.split_once(" => ").unwrap_or((text, ""));
        let (sink, texts) = text.split_once(" => ").unwrap_or((text, ""));
        Parts {
            words,
            names,
            shelf,
            sink,
            texts,
        }
    }

    // The words.
    fn words(&self, alloc: Global) -> Result<Vec<String>, AllocError> {
        let mut words = Vec::new(alloc);
        for word in self.words.split(' ') {
            if word == "''" {
                words.push(String::new(alloc))?;
            } else if !word.is_empty() {
                words.push(String::from_str(alloc, word)?)?;
            }
        }
        Ok(words)
    }

    // The words with `check` for their command, without `lanes=`, and with a trace file behind.
    fn judging_words(&self, alloc: Global) -> Result<Vec<String>, AllocError> {
        let mut words = Vec::new(alloc);
        words.push(String::from_str(alloc, "check")?)?;
        let (_command, arguments) = self.words.split_once(' ').unwrap_or((self.words, ""));
        for word in arguments.split(' ') {
            if !word.starts_with("lanes=") {
                words.push(String::from_str(alloc, word)?)?;
            }
        }
        words.push(String::from_str(alloc, "trace=t.txt")?)?;
        Ok(words)
    }

    // The files.
    fn files(&self, alloc: Global) -> Result<Vec<(String, Vec<u8>)>, AllocError> {
        let mut names = self.names.split(' ');
        let mut files = Vec::new(alloc);
        for file in read_marked(alloc, self.texts)?.files {
            let name = names.next().unwrap_or("");
            files.push((String::from_str(alloc, name)?, file))?;
        }
        Ok(files)
    }

    // How many bytes the sink takes a write, and the numbers of the writes that fail.
    fn writes(&self) -> (usize, &'a str) {
        let (most, failing) = self.sink.split_once(' ').unwrap_or((self.sink, ""));
        (most.parse::<usize>().unwrap_or(4096).max(1), failing)
    }

    // The sink.
    fn sink(&self, alloc: Global) -> Result<MemorySink, AllocError> {
        let (most, failing) = self.writes();
        Ok(MemorySink::new(alloc, most.max(1), numbers(alloc, failing)?))
    }
}

/// The setting of a case, `WORDS => NAMES => SHELF => SINK => TEXTS`: `''` is a word without letters; the
/// names and texts are those of the files; the shelf's calls with these numbers fail; the sink takes so
/// many bytes a write, and the writes with the numbers behind fail.
pub fn setting_of(alloc: Global, text: &str) -> Result<Setting, AllocError> {
    let parts = Parts::of(text);
    let words = parts.words(alloc)?;
    let shelf = MemoryShelf::new(parts.files(alloc)?, numbers(alloc, parts.shelf)?);
    let sink = parts.sink(alloc)?;
    Ok(Setting { words, shelf, sink })
}

/// The setting in which a trace is judged in a file `t.txt`, against what the words of a case ask for.
/// Nothing fails in it.
pub fn judging_of(alloc: Global, text: &str, trace: &[u8]) -> Result<Setting, AllocError> {
    let parts = Parts::of(text);
    let words = parts.judging_words(alloc)?;
    let mut files = parts.files(alloc)?;
    files.push((
        String::from_str(alloc, "t.txt")?,
        Vec::from_slice(alloc, trace)?,
    ))?;
    let shelf = MemoryShelf::new(files, Vec::new(alloc));
    let sink = MemorySink::new(alloc, 4096, Vec::new(alloc));
    Ok(Setting { words, shelf, sink })
}

/// How many bytes the sink of a case takes a write.
pub fn bytes_a_write(text: &str) -> usize {
    let (most, _failing) = Parts::of(text).writes();
    most
}

/// The setting of a case, but that the sink's write of that number alone fails.
pub fn failing_of(alloc: Global, text: &str, write: u64) -> Result<Setting, AllocError> {
    let mut failing = Vec::new(alloc);
    failing.push(write)?;
    let Setting { words, shelf, .. } = setting_of(alloc, text)?;
    let sink = MemorySink::new(alloc, bytes_a_write(text).max(1), failing);
    Ok(Setting { words, shelf, sink })
}
