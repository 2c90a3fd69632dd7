//! Texts of files, and the places that are marked in them.
use pst_base::Place;
use std::alloc::{AllocError, Global};

/// A place that is marked.
#[derive(Drop)]
pub struct Mark {
    /// The place.
    pub place: Place,
    /// Its label; empty behind `@`.
    pub label: String,
}

/// Some files, and the marks in them.
#[derive(Drop)]
pub struct Marked {
    /// The texts.
    pub files: Vec<Vec<u8>>,
    /// The marks, in order.
    pub marks: Vec<Mark>,
}

/// Writes that a place belongs to an answer, with a label.
pub fn write_mark(answer: &mut String, label: &str, place: Place) -> Result<(), AllocError> {
    let Place { file, line, column } = place;
    answer.push_str(" ")?;
    answer.push_str(label)?;
    write!(answer, "@{file}:{line}:{column}")
}

impl Marked {
    /// The answer that must come: a text, and all marks.
    pub fn wanted(&self, alloc: Global, answer: &str) -> Result<String, AllocError> {
        let mut wanted = String::from_str(alloc, answer)?;
        for mark in &self.marks {
            write_mark(&mut wanted, mark.label.as_str(), mark.place)?;
        }
        Ok(wanted)
    }
}

// What the next letter is read as.
#[derive(Clone, Copy, PartialEq, Eq)]
enum Within {
    Text,
    Label,
    Escape,
    High,
    Low(u8),
}

// A text that is being read.
#[derive(Drop)]
struct Reading {
    alloc: Global,
    read: Marked,
    file: Vec<u8>,
    label: String,
    place: Place,
    within: Within,
}

// The value of a digit of base 16, or 0.
fn digit(letter: u8) -> u8 {
    match letter {
        b'0'..=b'9' => letter - b'0',
        b'a'..=b'f' => letter - b'a' + 10,
        _ => 0,
    }
}

impl Reading {
    fn new(alloc: Global) -> Reading {
        Reading {
            alloc,
            read: Marked {
                files: Vec::new(alloc),
                marks: Vec::new(alloc),
            },
            file: Vec::new(alloc),
            label: String::new(alloc),
            place: Place {
                file: 0,
                line: 1,
                column: 1,
            },
            within: Within::Text,
        }
    }

    // Ends a file.
    fn end_file(&mut self) -> Result<(), AllocError> {
        let next = Vec::new(self.alloc);
        let file = std::mem::replace(&mut self.file, next);
        self.read.files.push(file)?;
        self.place = Place {
            file: self.place.file.wrapping_add(1),
            line: 1,
            column: 1,
        };
        Ok(())
    }

    // Marks this place with the label that was read.
    fn mark(&mut self) -> Result<(), AllocError> {
        let next = String::new(self.alloc);
        let label = std::mem::replace(&mut self.label, next);
        let place = self.place;
        self.within = Within::Text;
        self.read.marks.push(Mark { place, label })?;
        Ok(())
    }

    // Takes a byte of the file.
    fn push(&mut self, byte: u8) -> Result<(), AllocError> {
        self.within = Within::Text;
        self.file.push(byte)?;
        if byte == b'\n' {
            self.place.line = self.place.line.wrapping_add(1);
            self.place.column = 1;
        } else {
            self.place.column = self.place.column.wrapping_add(1);
        }
        Ok(())
    }

    // Takes a letter outside labels and escapes.
    fn take_text(&mut self, letter: u8) -> Result<(), AllocError> {
        match letter {
            b'#' => self.end_file(),
            b'@' => self.mark(),
            b'`' => {
                self.within = Within::Label;
                Ok(())
            }
            b'\\' => {
                self.within = Within::Escape;
                Ok(())
            }
            _ => self.push(letter),
        }
    }

    // Takes the letter behind a `\`.
    fn take_escape(&mut self, letter: u8) -> Result<(), AllocError> {
        match letter {
            b'n' => self.push(b'\n'),
            b'r' => self.push(b'\r'),
            b't' => self.push(b'\t'),
            b'x' => {
                self.within = Within::High;
                Ok(())
            }
            _ => self.push(letter),
        }
    }

    // Takes a letter.
    fn take(&mut self, letter: u8) -> Result<(), AllocError> {
        match self.within {
            Within::Text => self.take_text(letter),
            Within::Label if letter == b'`' => self.mark(),
            Within::Label => self.label.push(char::from(letter)),
            Within::Escape => self.take_escape(letter),
            Within::High => {
                self.within = Within::Low(digit(letter));
                Ok(())
            }
            Within::Low(high) => self.push(u8::wrapping_add(high.wrapping_mul(16), digit(letter))),
        }
    }
}

/// Reads the text of a case: its files, and its marks.
pub fn read_marked(alloc: Global, text: &str) -> Result<Marked, AllocError> {
    let mut reading = Reading::new(alloc);
    for letter in text.as_bytes() {
        reading.take(*letter)?;
    }
    reading.end_file()?;
    Ok(reading.read)
}
