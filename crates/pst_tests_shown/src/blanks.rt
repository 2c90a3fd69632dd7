//! Blanks as texts.
use pst_base::NoMemory;
use pst_blanks::Blank;

/// Adds a blank: the numbers of what it belongs to, and that of its field, if it is one.
pub fn show_blank(text: &mut String, blank: Option<Blank>) -> Result<(), NoMemory> {
    match blank {
        None => text.push_str(" no blank")?,
        Some(Blank::Instance { act, claim }) => write!(text, " instance {act}.{claim}")?,
        Some(Blank::OfFirst { pool, field }) => write!(text, " first {pool}.{field}")?,
        Some(Blank::OfAct { act, field }) => write!(text, " field {act}.{field}")?,
        Some(
            Blank::OfOutput {
                act,
                reference,
                field,
            },
        ) => write!(text, " output {act}.{reference}.{field}")?,
        Some(Blank::OfClaim { act, claim, field }) => {
            write!(text, " claim {act}.{claim}.{field}")?;
        }
    }
    Ok(())
}
