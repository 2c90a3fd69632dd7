//! Texts that are being written.
use std::alloc::{AllocError, Global};

/// A text that is being written. Where memory runs out the rest is left out, and the text isn't given.
#[derive(Drop)]
pub struct Page {
    text: String,
    is_whole: bool,
}

impl Page {
    /// An empty page.
    pub fn new(alloc: Global) -> Page {
        Page {
            text: String::new(alloc),
            is_whole: true,
        }
    }

    /// Writes a text.
    pub fn put(&mut self, text: &str) {
        if self.text.push_str(text).is_err() {
            self.is_whole = false;
        }
    }

    /// Writes a text, and a number behind it.
    pub fn number(&mut self, text: &str, number: u32) {
        self.value(text, i64::from(number));
    }

    /// Writes a text, and a value behind it.
    pub fn value(&mut self, text: &str, value: i64) {
        self.put(text);
        if write!(self.text, "{value}").is_err() {
            self.is_whole = false;
        }
    }

    /// Writes a text, and bits as a number behind it.
    pub fn bits(&mut self, text: &str, bits: u64) {
        self.put(text);
        if write!(self.text, "{bits}").is_err() {
            self.is_whole = false;
        }
    }

    /// The text.
    pub fn text(self) -> Result<String, AllocError> {
        let Page { text, is_whole } = self;
        if is_whole { Ok(text) } else { Err(AllocError) }
    }
}
