//! Texts as the table spells them.

use pst_base::NoMemory;
use std::alloc::Global;

// The byte that two hexadecimal digits spell.
fn byte_of(digits: &str) -> u8 {
    u8::from_str_radix(digits, 16).unwrap_or(b'?')
}

// Adds a line, in which `{XX}` stands for a byte.
fn add_line(bytes: &mut Vec<u8>, line: &str) -> Result<(), NoMemory> {
    let mut parts = line.split('{');
    if let Some(first) = parts.next() {
        bytes.extend_from_slice(first.as_bytes())?;
    }
    for part in parts {
        let (digits, rest) = part.split_once('}').unwrap_or((part, ""));
        bytes.push(byte_of(digits))?;
        bytes.extend_from_slice(rest.as_bytes())?;
    }
    Ok(())
}

/// The bytes of a text: ` / ` stands for a line feed, and `{XX}` for a byte; behind the last line
/// stands a line feed, too, unless the text ends with `~`.
pub fn bytes_of(alloc: Global, text: &str) -> Result<Vec<u8>, NoMemory> {
    let (lines, is_open) = match text.strip_suffix('~') {
        Some(lines) => (lines, true),
        None => (text, false),
    };
    let mut bytes = Vec::new(alloc);
    let mut is_first = true;
    for line in lines.split(" / ") {
        if !is_first {
            bytes.push(b'\n')?;
        }
        add_line(&mut bytes, line)?;
        is_first = false;
    }
    if !is_open {
        bytes.push(b'\n')?;
    }
    Ok(bytes)
}
