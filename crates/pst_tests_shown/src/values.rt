//! Values as texts.
use crate::parts::{separate, show_numbers};
use pst_base::NoMemory;
use pst_scen::{Act, Claimed, Filled, First};

fn show_firsts(text: &mut String, firsts: &[First]) -> Result<(), NoMemory> {
    let mut is_first = true;
    for first in firsts {
        separate(text, is_first)?;
        write!(text, "first {}", first.pool)?;
        show_numbers(text, first.values.as_slice())?;
        is_first = false;
    }
    Ok(())
}

// The values of the objects, for each reference in brackets.
fn show_objects(text: &mut String, references: &[Filled]) -> Result<(), NoMemory> {
    for filled in references {
        text.push_str(" [")?;
        show_numbers(text, filled.values.as_slice())?;
        text.push_str(" ]")?;
    }
    Ok(())
}

fn show_claims(text: &mut String, claims: &[Claimed]) -> Result<(), NoMemory> {
    for claim in claims {
        text.push_str(if claim.lock { " lock" } else { " share" })?;
        write!(text, " {}.{}", claim.pool, claim.instance)?;
        show_numbers(text, claim.values.as_slice())?;
    }
    Ok(())
}

fn show_acts(text: &mut String, acts: &[Act]) -> Result<(), NoMemory> {
    let mut is_first = true;
    for act in acts {
        separate(text, is_first)?;
        text.push_str("values")?;
        show_numbers(text, act.fields.as_slice())?;
        show_objects(text, act.references.as_slice())?;
        show_claims(text, act.claims.as_slice())?;
        is_first = false;
    }
    Ok(())
}

/// Adds the first objects and, for each action, the values of its fields, those of its references'
/// objects, and its claims with their pools, instances and values.
pub fn show_values(text: &mut String, firsts: &[First], acts: &[Act]) -> Result<(), NoMemory> {
    show_firsts(text, firsts)?;
    show_acts(text, acts)
}
