//! Nodes as texts.
use crate::parts::{separate, show_numbers};
use pst_base::NoMemory;
use pst_scen::{Fill, Node};

// What runs its parts in turn or side by side.
fn show_block(text: &mut String, fill: &Fill) -> Result<(), NoMemory> {
    match fill {
        Fill::Sequence => text.push_str("sequence")?,
        Fill::Parallel => text.push_str("parallel")?,
        Fill::Schedule => text.push_str("schedule")?,
        Fill::Repeat => text.push_str("repeat")?,
        Fill::Joined { parallel, joined } => {
            text.push_str(if *parallel { "parallel" } else { "schedule" })?;
            write!(text, " joins {joined}")?;
        }
        _ => {}
    }
    Ok(())
}

fn show_arm(text: &mut String, arm: Option<u32>) -> Result<(), NoMemory> {
    match arm {
        Some(arm) => write!(text, "match {arm}")?,
        None => text.push_str("match default")?,
    }
    Ok(())
}

fn show_fill(text: &mut String, fill: &Fill) -> Result<(), NoMemory> {
    match fill {
        Fill::Compound {
            action,
            instance,
            fields,
        } => {
            write!(text, "compound {action} {instance}")?;
            show_numbers(text, fields.as_slice())?;
        }
        Fill::Leaf { act } => write!(text, "leaf {act}")?,
        Fill::Select { branch } => write!(text, "select {branch}")?,
        Fill::Turn { index } => write!(text, "turn {index}")?,
        Fill::If { yes } => text.push_str(if *yes { "if yes" } else { "if no" })?,
        Fill::Match { arm } => show_arm(text, *arm)?,
        block => show_block(text, block)?,
    }
    Ok(())
}

/// Adds the nodes, each the number of its parent, if it has one, and what it is: a compound action
/// with its type, its instance and its values; a leaf with its action; and so on. In brief, how many
/// there are.
pub fn show_nodes(text: &mut String, nodes: &[Node], brief: bool) -> Result<(), NoMemory> {
    if brief {
        write!(text, " | {} nodes", nodes.len())?;
        return Ok(());
    }
    let mut is_first = true;
    for node in nodes {
        separate(text, is_first)?;
        if let Some(parent) = node.parent {
            write!(text, "{parent} ")?;
        }
        show_fill(text, &node.fill)?;
        is_first = false;
    }
    Ok(())
}
