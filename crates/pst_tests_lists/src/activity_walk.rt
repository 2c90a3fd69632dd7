//! What a list of choices reads of an activity, and then of the sources.
use crate::source_walk::read_sources;
use pst_base::NoMemory;
use pst_scen::Next;
use pst_shape::Walk;
use pst_tests_shown::{Task, show_nodes};
use std::alloc::Global;

// Makes the last choice of the place where the walk stands, if it stands at one, and takes it back.
fn detour(walk: &mut Walk<'_>) -> Result<(), NoMemory> {
    if let Next::Options(n) = walk.next() {
        if n > 0 {
            walk.choose(n - 1)?;
            walk.back();
        }
    }
    Ok(())
}

// Makes the choice, if it names an option.
fn choose(walk: &mut Walk<'_>, digit: u64) -> Result<bool, NoMemory> {
    if let Next::Options(n) = walk.next() {
        if digit < n {
            walk.choose(digit)?;
            return Ok(true);
        }
    }
    Ok(false)
}

// Makes choices as long as they name options, and returns those that are left. Each comes behind
// another one that is taken back.
fn choose_all<'d>(walk: &mut Walk<'_>, digits: &'d [u64]) -> Result<&'d [u64], NoMemory> {
    for (at, digit) in digits.iter().enumerate() {
        detour(walk)?;
        if !choose(walk, *digit)? {
            return Ok(&digits[at..]);
        }
    }
    Ok(&digits[digits.len()..])
}

// What choices read from where the walk stands on.
fn read_on(
    alloc: Global,
    task: &Task<'_>,
    walk: &mut Walk<'_>,
    digits: &[u64],
) -> Result<String, NoMemory> {
    let left = choose_all(walk, digits)?;
    let mut shown = String::new(alloc);
    if left.is_empty() {
        show_nodes(&mut shown, walk.nodes(), task.brief)?;
    }
    match walk.next() {
        Next::Whole => read_sources(alloc, task, walk, digits.len(), left, shown.as_str()),
        Next::Options(n) if left.is_empty() => Ok(format!(in alloc; "{n}{shown}")?),
        _ => Ok(String::from_str(alloc, "dead")?),
    }
}

/// What a list of choices reads: `dead`; or how many options the next place has, with the need whose
/// turn it is, in the sources, or the blank that is filled, behind them; or `whole`. Behind it stands
/// what is read, each part behind `|`: the nodes, if no choice is left behind the activity; the
/// actions with their links, if none is left behind the sources; first objects and values.
pub fn read_list(alloc: Global, task: &Task<'_>, digits: &[u64]) -> Result<String, NoMemory> {
    let mut walk = Walk::new(alloc, task.model, 0, task.seed)?;
    read_on(alloc, task, &mut walk, digits)
}
