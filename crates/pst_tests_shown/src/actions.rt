//! Actions with their links as texts.
use crate::parts::separate;
use pst_base::NoMemory;
use pst_scen::{Act, Filled, Link};

fn show_link(text: &mut String, link: Link) -> Result<(), NoMemory> {
    match link {
        Link::Nothing => text.push_str(" -")?,
        Link::Initial => text.push_str(" initial")?,
        Link::Act { act, reference } => write!(text, " {act}.{reference}")?,
    }
    Ok(())
}

fn show_links(text: &mut String, references: &[Filled]) -> Result<(), NoMemory> {
    for filled in references {
        show_link(text, filled.link)?;
    }
    Ok(())
}

/// Adds the actions, each with its type, its instance, and the links of its references: `-` for none,
/// `initial`, or an action and a reference. In brief, how many there are.
pub fn show_actions(text: &mut String, acts: &[Act], brief: bool) -> Result<(), NoMemory> {
    if brief {
        write!(text, " | {} actions", acts.len())?;
        return Ok(());
    }
    let mut is_first = true;
    for act in acts {
        separate(text, is_first)?;
        write!(text, "{} {}", act.action, act.instance)?;
        show_links(text, act.references.as_slice())?;
        is_first = false;
    }
    Ok(())
}
