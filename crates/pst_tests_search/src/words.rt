//! Texts of words.

/// What is left to read of a text.
#[derive(Clone, Copy)]
pub struct Words<'a> {
    pub left: &'a str,
}

impl<'a> Words<'a> {
    /// The next word, an empty one where none is left.
    pub fn next(&mut self) -> &'a str {
        let text = self.left.trim_start();
        let (word, rest) = text.split_once(' ').unwrap_or((text, ""));
        self.left = rest;
        word
    }

    /// The next word as a number, 0 where it is none.
    pub fn number(&mut self) -> i64 {
        self.next().parse::<i64>().unwrap_or(0)
    }

    /// The next word as a number of 32 bits.
    pub fn index(&mut self) -> u32 {
        self.next().parse::<u32>().unwrap_or(0)
    }

    /// The next word as a number of 64 bits.
    pub fn large(&mut self) -> u64 {
        self.next().parse::<u64>().unwrap_or(0)
    }

    /// Whether the next word isn't `0`.
    pub fn flag(&mut self) -> bool {
        self.next() != "0"
    }
}
