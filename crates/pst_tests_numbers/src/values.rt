//! Narrowed bounds, and solutions in the order of a seed.

use crate::systems::{read_bounds, read_constraints, read_domains};
use pst_base::NoMemory;
use pst_domain::Bounds;
use pst_expr::Span;
use pst_narrow::{Trail, narrow};
use pst_values::ValueSearch;
use std::alloc::Global;

// Adds a span to a text.
fn show_span(alloc: Global, text: &mut String, span: Option<Span>) -> Result<(), NoMemory> {
    if !text.is_empty() {
        text.push(' ')?;
    }
    let word = match span {
        Some(Span { low, high }) => format!(in alloc; "{low}..{high}")?,
        None => String::from_str(alloc, "-")?,
    };
    text.push_str(word.as_str())?;
    Ok(())
}

fn shown(alloc: Global, bounds: &Bounds) -> Result<String, NoMemory> {
    let mut text = String::new(alloc);
    for span in bounds.spans() {
        show_span(alloc, &mut text, *span)?;
    }
    Ok(text)
}

/// The bounds that are left where a system is narrowed, or `false`.
pub fn narrowed(alloc: Global, text: &str) -> Result<String, NoMemory> {
    let (described, rest) = text.split_once(" | ").unwrap_or((text, ""));
    let mut bounds = read_bounds(alloc, described)?;
    let constraints = read_constraints(alloc, rest, bounds.spans().len())?;
    let mut trail = Trail::new(alloc);
    if narrow(&constraints, &mut bounds, &mut trail)? {
        shown(alloc, &bounds)
    } else {
        Ok(String::from_str(alloc, "false")?)
    }
}

// Numbers with a blank between each two.
fn show_values(alloc: Global, text: &mut String, values: &[i64]) -> Result<(), NoMemory> {
    if !text.is_empty() {
        text.push(';')?;
    }
    for (at, value) in values.iter().enumerate() {
        if at > 0 {
            text.push(' ')?;
        }
        let word = format!(in alloc; "{value}")?;
        text.push_str(word.as_str())?;
    }
    Ok(())
}

// What a step of a search comes to.
enum Reached {
    // A variable that isn't the last was given a value.
    On(i64),
    // The last one was.
    Solved(i64),
    // The current variable has no value left, and the one before is the current one.
    Back,
    // The first variable has none left.
    Ended,
}

// The next value of the current variable; and on to the next variable, or back to the one before.
fn step(search: &mut ValueSearch) -> Result<Reached, NoMemory> {
    match search.next_value()? {
        None => {
            if search.undo() {
                Ok(Reached::Back)
            } else {
                Ok(Reached::Ended)
            }
        }
        Some(value) => {
            if search.advance() {
                Ok(Reached::On(value))
            } else {
                Ok(Reached::Solved(value))
            }
        }
    }
}

// The first solutions, in the order in which they come, where no more values are given than may be.
fn enumerated(
    alloc: Global,
    search: &mut ValueSearch,
    wanted: u32,
    most: u32,
) -> Result<String, NoMemory> {
    let mut text = String::new(alloc);
    let mut values = Vec::new(alloc);
    let mut given = 0_u32;
    let mut found = 0_u32;
    for _turn in 0..u64::MAX {
        match step(search)? {
            Reached::Ended => return Ok(text),
            Reached::Back => {
                let _value = values.pop();
            }
            Reached::On(value) => {
                values.push(value)?;
                given = given.saturating_add(1);
            }
            Reached::Solved(value) => {
                values.push(value)?;
                show_values(alloc, &mut text, &values)?;
                let _value = values.pop();
                given = given.saturating_add(1);
                found = found.saturating_add(1);
            }
        }
        if given > most {
            return Ok(format!(in alloc; "more than {most} values, {found} solutions")?);
        }
        if found == wanted {
            return Ok(text);
        }
    }
    Ok(text)
}

/// The solutions of a system, each as its values with blanks, with `;` between them. Before the system stand the seed,
/// the place of the first variable, how many solutions are wanted, and ` | `. Where more values are given on the way
/// than the table's number, the answer says so.
pub fn solutions(alloc: Global, most: u32, text: &str) -> Result<String, NoMemory> {
    let (asked, system) = text.split_once(" | ").unwrap_or((text, ""));
    let (described, rest) = system.split_once(" | ").unwrap_or((system, ""));
    let mut words = asked.split(' ');
    let seed = words.next().unwrap_or("").parse::<u64>().unwrap_or(0);
    let place = words.next().unwrap_or("").parse::<u32>().unwrap_or(0);
    let wanted = words.next().unwrap_or("").parse::<u32>().unwrap_or(0);
    let domains = read_domains(alloc, described)?;
    if domains.is_empty() || domains.len() > 1_000_000 {
        return Err(NoMemory);
    }
    let constraints = read_constraints(alloc, rest, domains.len())?;
    let mut search = ValueSearch::new(alloc, domains, constraints, seed, u64::from(place))?;
    enumerated(alloc, &mut search, wanted, most)
}
