//! What the other texts are made of.
use pst_base::NoMemory;

/// Adds what stands before a part: the first behind `|`, the others behind a comma.
pub fn separate(text: &mut String, is_first: bool) -> Result<(), NoMemory> {
    text.push_str(if is_first { " | " } else { ", " })?;
    Ok(())
}

/// Adds numbers, each behind a blank.
pub fn show_numbers(text: &mut String, numbers: &[i64]) -> Result<(), NoMemory> {
    for number in numbers {
        write!(text, " {number}")?;
    }
    Ok(())
}
