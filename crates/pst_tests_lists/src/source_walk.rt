//! What a list of choices reads of the sources, and then of claims and values.
use pst_base::NoMemory;
use pst_open_ends::Spot;
use pst_scen::Next;
use pst_shape::Walk;
use pst_supply::SupplyWalk;
use pst_tests_shown::{Task, read_values, show_actions};
use std::alloc::Global;

// Makes the last choice of the place where the walk stands, if it stands at one, and takes it back.
fn detour(walk: &mut SupplyWalk<'_>) -> Result<(), NoMemory> {
    if let Next::Options(n) = walk.next() {
        if n > 0 {
            walk.choose(n - 1)?;
            walk.back();
        }
    }
    Ok(())
}

// Makes the choice, if it names an option.
fn choose(walk: &mut SupplyWalk<'_>, digit: u64) -> Result<bool, NoMemory> {
    if let Next::Options(n) = walk.next() {
        if digit < n {
            walk.choose(digit)?;
            return Ok(true);
        }
    }
    Ok(false)
}

// Makes choices as long as they name options, and returns those that are left. Each comes behind
// another one that is taken back.
fn choose_all<'d>(walk: &mut SupplyWalk<'_>, digits: &'d [u64]) -> Result<&'d [u64], NoMemory> {
    for (at, digit) in digits.iter().enumerate() {
        detour(walk)?;
        if !choose(walk, *digit)? {
            return Ok(&digits[at..]);
        }
    }
    Ok(&digits[digits.len()..])
}

// How many options there are, the need whose turn it is, its action and its reference, and what stands before.
fn show_place(
    alloc: Global,
    count: u64,
    need: Option<Spot>,
    before: &str,
) -> Result<String, NoMemory> {
    match need {
        None => Ok(format!(in alloc; "{count} no need{before}")?),
        Some(Spot { act, reference, .. }) => {
            Ok(format!(in alloc; "{count} need {act}.{reference}{before}")?)
        }
    }
}

// What choices read from where the walk stands on.
fn read_on(
    alloc: Global,
    task: &Task<'_>,
    tree: &Walk<'_>,
    walk: &mut SupplyWalk<'_>,
    count: usize,
    digits: &[u64],
    before: &str,
) -> Result<String, NoMemory> {
    let left = choose_all(walk, digits)?;
    let mut shown = String::from_str(alloc, before)?;
    if left.is_empty() {
        show_actions(&mut shown, walk.actions(), task.brief)?;
    }
    match walk.next() {
        Next::Whole => {
            let (nodes, actions) = (tree.nodes(), walk.actions());
            read_values(alloc, task, nodes, actions, count, left, shown.as_str())
        }
        Next::Options(n) if left.is_empty() => show_place(alloc, n, walk.need(), shown.as_str()),
        _ => Ok(String::from_str(alloc, "dead")?),
    }
}

/// What choices read behind an activity that is read whole. So many choices there are in all.
pub fn read_sources(
    alloc: Global,
    task: &Task<'_>,
    tree: &Walk<'_>,
    count: usize,
    digits: &[u64],
    before: &str,
) -> Result<String, NoMemory> {
    let mut walk = SupplyWalk::new(
        alloc,
        task.model,
        tree.nodes(),
        tree.leaves(),
        task.seed,
        count.saturating_sub(digits.len()) as u64,
        task.level,
    )?;
    read_on(alloc, task, tree, &mut walk, count, digits, before)
}
