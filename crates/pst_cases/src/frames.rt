//! Texts in frames, and texts that stand many times.
use std::alloc::{AllocError, Global};

/// A frame with a text in it at each `$`.
pub fn framed(alloc: Global, frame: &str, text: &str) -> Result<String, AllocError> {
    let mut whole = String::new(alloc);
    for letter in frame.chars() {
        if letter == '$' {
            whole.push_str(text)?;
        } else {
            whole.push(letter)?;
        }
    }
    Ok(whole)
}

// Writes a piece, with a number at each `?` and one more at each `%`.
fn write_piece(whole: &mut String, piece: &str, number: u32) -> Result<(), AllocError> {
    for letter in piece.chars() {
        match letter {
            '?' => write!(whole, "{number}")?,
            '%' => write!(whole, "{}", number.wrapping_add(1))?,
            _ => whole.push(letter)?,
        }
    }
    Ok(())
}

// Writes a piece so many times.
fn write_pieces(whole: &mut String, piece: &str, times: u32) -> Result<(), AllocError> {
    for number in 0..times {
        write_piece(whole, piece, number)?;
    }
    Ok(())
}

// Writes a part of a text that begins with a number of times, a piece and `*]`.
fn write_part(whole: &mut String, part: &str) -> Result<(), AllocError> {
    let (before, behind) = part.split_once("*]").unwrap_or((part, ""));
    let (times, piece) = before.split_once(' ').unwrap_or((before, ""));
    write_pieces(whole, piece, times.parse::<u32>().unwrap_or(0))?;
    whole.push_str(behind)?;
    Ok(())
}

/// A text with each `[*N PIECE*]` written out.
pub fn repeated(alloc: Global, text: &str) -> Result<String, AllocError> {
    let mut whole = String::new(alloc);
    let mut is_first = true;
    for part in text.split("[*") {
        if is_first {
            whole.push_str(part)?;
        } else {
            write_part(&mut whole, part)?;
        }
        is_first = false;
    }
    Ok(whole)
}
