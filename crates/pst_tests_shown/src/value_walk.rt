//! What a list of choices reads of claims and values.
use crate::blanks::show_blank;
use crate::task::Task;
use crate::values::show_values;
use pst_base::{Items, NoMemory};
use pst_copies::{copy_acts, copy_nodes};
use pst_scen::{Act, Next, Node, Scenario};
use pst_value_walk::ValueWalk;
use std::alloc::Global;

// Makes the last choice of the place where the walk stands, if it stands at one, and takes it back.
fn detour(walk: &mut ValueWalk<'_>) -> Result<(), NoMemory> {
    if let Next::Options(n) = walk.next() {
        if n > 0 {
            walk.choose(n - 1)?;
            walk.back();
        }
    }
    Ok(())
}

// Makes the choice, if it names an option.
fn choose(walk: &mut ValueWalk<'_>, digit: u64) -> Result<bool, NoMemory> {
    if let Next::Options(n) = walk.next() {
        if digit < n {
            walk.choose(digit)?;
            return Ok(true);
        }
    }
    Ok(false)
}

// Makes choices as long as they name options, and returns those that are left. Each comes behind
// another one that is taken back.
fn choose_all<'d>(walk: &mut ValueWalk<'_>, digits: &'d [u64]) -> Result<&'d [u64], NoMemory> {
    for (at, digit) in digits.iter().enumerate() {
        detour(walk)?;
        if !choose(walk, *digit)? {
            return Ok(&digits[at..]);
        }
    }
    Ok(&digits[digits.len()..])
}

// The scenario to which activity and sources have come.
fn linked(
    alloc: Global,
    level: u32,
    nodes: &[Node],
    actions: &[Act],
) -> Result<Scenario, NoMemory> {
    let nodes = Items::from_vec(copy_nodes(alloc, nodes)?);
    let actions = Items::from_vec(copy_acts(alloc, actions)?);
    Ok(Scenario {
        level,
        nodes,
        actions,
        firsts: Items::empty(alloc),
    })
}

// What choices read from where the walk stands on.
fn read_on(
    alloc: Global,
    task: &Task<'_>,
    walk: &mut ValueWalk<'_>,
    digits: &[u64],
    before: &str,
) -> Result<String, NoMemory> {
    let left = choose_all(walk, digits)?;
    let mut shown = String::new(alloc);
    show_blank(&mut shown, walk.blank())?;
    shown.push_str(before)?;
    if !task.brief {
        let scenario = walk.scenario();
        show_values(
            &mut shown,
            scenario.firsts.as_slice(),
            scenario.actions.as_slice(),
        )?;
    }
    match walk.next() {
        Next::Whole if left.is_empty() => Ok(format!(in alloc; "whole{shown}")?),
        Next::Options(n) if left.is_empty() => Ok(format!(in alloc; "{n}{shown}")?),
        _ => Ok(String::from_str(alloc, "dead")?),
    }
}

/// What choices read of claims and values, behind an activity and sources that are read whole and came
/// to these nodes and actions. So many choices there are in all.
pub fn read_values(
    alloc: Global,
    task: &Task<'_>,
    nodes: &[Node],
    actions: &[Act],
    count: usize,
    digits: &[u64],
    before: &str,
) -> Result<String, NoMemory> {
    let place = count.saturating_sub(digits.len()) as u64;
    let linked = linked(alloc, task.level, nodes, actions)?;
    let mut walk = ValueWalk::new(alloc, task.model, linked, task.seed, place)?;
    read_on(alloc, task, &mut walk, digits, before)
}
