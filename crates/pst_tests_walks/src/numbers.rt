//! Texts of numbers.
use pst_base::NoMemory;
use std::alloc::Global;

/// What is left to read of a list of numbers.
#[derive(Clone, Copy)]
pub struct Numbers<'a> {
    pub left: &'a [i64],
}

impl Numbers<'_> {
    /// The next number, 0 where none is left.
    pub fn next(&mut self) -> i64 {
        match self.left.split_first() {
            Some((first, rest)) => {
                self.left = rest;
                *first
            }
            None => 0,
        }
    }

    /// The next number, as one of 32 bits.
    pub fn index(&mut self) -> u32 {
        u32::try_from(self.next()).unwrap_or(0)
    }

    /// Whether the next number isn't 0.
    pub fn flag(&mut self) -> bool {
        self.next() != 0
    }
}

/// The numbers of a text. Words that are no numbers say nothing.
pub fn numbers_of(alloc: Global, text: &str) -> Result<Vec<i64>, NoMemory> {
    let mut numbers = Vec::new(alloc);
    for word in text.split_whitespace() {
        if let Ok(number) = word.parse::<i64>() {
            numbers.push(number)?;
        }
    }
    Ok(numbers)
}

/// The digits of a text.
pub fn digits_of(alloc: Global, text: &str) -> Result<Vec<u64>, NoMemory> {
    let mut digits = Vec::new(alloc);
    for word in text.split_whitespace() {
        if let Ok(digit) = word.parse::<u64>() {
            digits.push(digit)?;
        }
    }
    Ok(digits)
}
