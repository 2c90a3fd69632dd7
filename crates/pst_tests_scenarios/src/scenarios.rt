//! Scenarios that are written as texts, and their plans.
ghost use Rattle.std.specs.Prelude.{IfSome};
ghost use Rattle.pst_scen.specs.Plans.{IsPlanOf};
ghost use Rattle.pst_order.specs.Built.{IsBuilt};

use crate::built::is_built;
use pst_base::{Items, NoMemory};
use pst_graph::{PlanEnd, plan_of};
use pst_scen::{Act, Claimed, Fill, Filled, Flow, Link, Node, Plan, Scenario};
use std::alloc::{AllocError, Global};

/// The number of a word, or 0.
pub fn number(word: &str) -> u32 {
    word.parse::<u32>().unwrap_or(0)
}

// The flow of a reference, where a word stands for one.
fn flow_of(word: &str) -> Option<Flow> {
    match word {
        "buffer-in" => Some(Flow::BufferIn),
        "buffer-out" => Some(Flow::BufferOut),
        "stream-in" => Some(Flow::StreamIn),
        "stream-out" => Some(Flow::StreamOut),
        "state-in" => Some(Flow::StateIn),
        "state-out" => Some(Flow::StateOut),
        _ => None,
    }
}

// The link of a reference: `initial`, nothing, or the number of an action, to whose first reference
// it leads.
fn link_of(word: &str) -> Link {
    match word {
        "" => Link::Nothing,
        "initial" => Link::Initial,
        _ => Link::Act {
            act: number(word),
            reference: 0,
        },
    }
}

// The reference that a part of an action is: `FLOW POOL LINK`.
fn reference(alloc: Global, part: &str) -> Option<Filled> {
    let mut words = part.split_whitespace();
    let flow = flow_of(words.next()?)?;
    let pool = number(words.next().unwrap_or(""));
    Some(Filled {
        pool,
        flow,
        values: Items::empty(alloc),
        link: link_of(words.next().unwrap_or("")),
    })
}

// The claim that a part of an action is: `lock POOL INSTANCE` or `share POOL INSTANCE`.
fn claim(alloc: Global, part: &str) -> Option<Claimed> {
    let mut words = part.split_whitespace();
    let lock = match words.next()? {
        "lock" => true,
        "share" => false,
        _ => return None,
    };
    let pool = number(words.next().unwrap_or(""));
    Some(Claimed {
        pool,
        lock,
        instance: number(words.next().unwrap_or("")),
        values: Items::empty(alloc),
    })
}

fn references_of(alloc: Global, parts: &str) -> Result<Vec<Filled>, NoMemory> {
    let mut references = Vec::new(alloc);
    for part in parts.split(',') {
        if let Some(found) = reference(alloc, part) {
            references.push(found)?;
        }
    }
    Ok(references)
}

fn claims_of(alloc: Global, parts: &str) -> Result<Vec<Claimed>, NoMemory> {
    let mut claims = Vec::new(alloc);
    for part in parts.split(',') {
        if let Some(found) = claim(alloc, part) {
            claims.push(found)?;
        }
    }
    Ok(claims)
}

// The action of that number; its type has the number behind it.
fn act_of(alloc: Global, number: usize, node: Option<u32>, parts: &str) -> Result<Act, NoMemory> {
    let references = Items::from_vec(references_of(alloc, parts)?);
    let claims = Items::from_vec(claims_of(alloc, parts)?);
    Ok(Act {
        action: u32::try_from(number).unwrap_or(0).saturating_add(1),
        instance: 0,
        node,
        fields: Items::empty(alloc),
        references,
        claims,
    })
}

fn root(alloc: Global) -> Node {
    Node {
        parent: None,
        fill: Fill::Compound {
            action: 0,
            instance: 0,
            fields: Items::empty(alloc),
        },
    }
}

// The fill of a node, where so many leaves stand before it. `joined-N` is a parallel block that waits
// for the branches of the bits of the number.
fn fill_of(kind: &str, leaves: u32) -> Fill {
    match kind {
        "leaf" => Fill::Leaf { act: leaves },
        "parallel" => Fill::Parallel,
        "schedule" => Fill::Schedule,
        _ => Fill::Joined {
            parallel: true,
            joined: kind
                .strip_prefix("joined-")
                .unwrap_or("")
                .parse::<u64>()
                .unwrap_or(0),
        },
    }
}

// The kind of a node, and its parent.
fn row_of(word: &str) -> Option<(&str, u32)> {
    let (kind, parent) = word.trim().split_once(' ')?;
    Some((kind, number(parent)))
}

fn nodes_of(alloc: Global, rows: &str) -> Result<Vec<Node>, NoMemory> {
    let mut nodes = Vec::new(alloc);
    nodes.push(root(alloc))?;
    let mut leaves: u32 = 0;
    for word in rows.split(',') {
        if let Some((kind, parent)) = row_of(word) {
            nodes.push(Node {
                parent: Some(parent),
                fill: fill_of(kind, leaves),
            })?;
            if kind == "leaf" {
                leaves = leaves.saturating_add(1);
            }
        }
    }
    Ok(nodes)
}

// The nodes that are leaves.
fn leaves_of(alloc: Global, rows: &str) -> Result<Vec<u32>, NoMemory> {
    let mut leaves = Vec::new(alloc);
    let mut node: u32 = 0;
    for word in rows.split(',') {
        if let Some((kind, _)) = row_of(word) {
            node = node.saturating_add(1);
            if kind == "leaf" {
                leaves.push(node)?;
            }
        }
    }
    Ok(leaves)
}

fn acts_of(alloc: Global, leaves: &[u32], actions: &str) -> Result<Vec<Act>, NoMemory> {
    let mut acts = Vec::new(alloc);
    for parts in actions.split(';') {
        let node = leaves.get(acts.len()).copied();
        acts.push(act_of(alloc, acts.len(), node, parts)?)?;
    }
    Ok(acts)
}

/// The scenario of a text: the nodes behind the root, each with its kind and its parent; ` | `, and
/// the actions, each by its references and claims. The leaves have the first actions, in order, and
/// those behind them are inferred.
pub fn scenario_of(alloc: Global, text: &str) -> Result<Scenario, NoMemory> {
    let (rows, actions) = text.split_once('|').unwrap_or((text, ""));
    let leaves = leaves_of(alloc, rows)?;
    let nodes = Items::from_vec(nodes_of(alloc, rows)?);
    let acts = acts_of(alloc, leaves.as_slice(), actions)?;
    let level = acts.len().saturating_sub(leaves.len());
    Ok(Scenario {
        level: u32::try_from(level).unwrap_or(0),
        nodes,
        actions: Items::from_vec(acts),
        firsts: Items::empty(alloc),
    })
}

/// The plan of the scenario; none where the scenario is not as those are that are read whole, or has
/// no plan.
pub fn planned(alloc: Global, scenario: &Scenario) -> Option<Plan>
    ensures built { IfSome result (λ _. IsBuilt scenario.now) }
    ensures plan { IfSome result (IsPlanOf scenario.now) }
{
    if !is_built(scenario) {
        return None;
    }
    match plan_of(alloc, scenario) {
        Ok(plan) => Some(plan),
        Err(_) => None,
    }
}

// Why a scenario has no plan.
fn told(alloc: Global, end: PlanEnd) -> Result<String, AllocError> {
    match end {
        PlanEnd::Cycle { a } => format!(in alloc; "cycle {a}"),
        PlanEnd::GroupClash { a, b } => format!(in alloc; "group clash {a} {b}"),
        PlanEnd::ParallelOrder { a, b } => format!(in alloc; "parallel order {a} {b}"),
        PlanEnd::ParallelClash { a, b } => format!(in alloc; "parallel clash {a} {b}"),
        PlanEnd::NoMemory => String::from_str(alloc, "no memory"),
    }
}

/// Answers `end`: why the scenario has no plan, or `plan`.
pub fn end_of(alloc: Global, scenario: &Scenario) -> Result<String, AllocError> {
    if !is_built(scenario) {
        return String::from_str(alloc, "not built");
    }
    match plan_of(alloc, scenario) {
        Ok(_) => String::from_str(alloc, "plan"),
        Err(end) => told(alloc, end),
    }
}
