//! What the lines of a table say of the cases below them.
use std::alloc::{AllocError, Global};

/// What is said of the cases that follow.
#[derive(Drop)]
pub struct Heading {
    alloc: Global,
    /// What is asked of them.
    pub call: String,
    /// The text in which theirs stand, at each `$`.
    pub frame: String,
    /// A number that the call needs, or 0.
    pub number: u32,
}

impl Heading {
    /// That of a table at its beginning: nothing is asked.
    pub fn new(alloc: Global) -> Heading {
        Heading {
            alloc,
            call: String::new(alloc),
            frame: String::new(alloc),
            number: 0,
        }
    }

    // Begins the cases of another call.
    fn begin(&mut self, call: &str) -> Result<(), AllocError> {
        self.call = String::from_str(self.alloc, call)?;
        self.frame = String::from_str(self.alloc, "$")?;
        self.number = 0;
        Ok(())
    }

    /// Takes a line, and says whether it is no case.
    pub fn take(&mut self, line: &str) -> Result<bool, AllocError> {
        if let Some(call) = line.strip_prefix("call ") {
            self.begin(call)?;
            return Ok(true);
        }
        if let Some(frame) = line.strip_prefix("frame ") {
            self.frame = String::from_str(self.alloc, frame)?;
            return Ok(true);
        }
        if let Some(number) = line.strip_prefix("number ") {
            self.number = number.parse::<u32>().unwrap_or(u32::MAX);
            return Ok(true);
        }
        Ok(line.is_empty() || line.starts_with("//"))
    }
}

/// The lines of a table, in which those that begin with a blank are joined to the ones above them.
pub fn joined_lines(alloc: Global, table: &str) -> Result<Vec<String>, AllocError> {
    let mut lines = Vec::new(alloc);
    let mut current = String::new(alloc);
    for line in table.lines() {
        if line.starts_with(' ') {
            current.push(' ')?;
            current.push_str(line.trim_start())?;
        } else {
            let next = String::from_str(alloc, line)?;
            lines.push(std::mem::replace(&mut current, next))?;
        }
    }
    lines.push(current)?;
    Ok(lines)
}
