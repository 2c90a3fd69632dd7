//! Levels of the vertices of a graph.
use std::alloc::{AllocError, Global};

// A vertex that is to be looked at: before those to which it leads, or again after them.
#[derive(Clone, Copy)]
struct Step {
    vertex: u32,
    again: bool,
}

/// A level for each vertex, from 1: no edge leads to a lower one, and two vertices have the same
/// just where walks lead from each to the other. No contract says so: who uses the levels looks.
pub fn levels_of(alloc: Global, edges: &[Vec<u32>]) -> Result<Vec<u32>, AllocError> {
    let order = in_order_of_end(alloc, edges)?;
    let turned = turned_round(alloc, edges)?;
    let mut levels = vec![in alloc; 0; edges.len()]?;
    let mut stack = Vec::new(alloc);
    let mut level: u32 = 1;
    for vertex in order.iter().rev() {
        stack.push(*vertex)?;
        if spread(&turned, level, &mut levels, &mut stack)? {
            level = level.saturating_add(1);
        }
    }
    Ok(levels)
}

/// The vertices of a graph, each behind all to which it leads, but for those that lead back to it.
/// No contract says so: who uses the order looks.
pub fn in_order_of_end(alloc: Global, edges: &[Vec<u32>]) -> Result<Vec<u32>, AllocError> {
    let mut seen = vec![in alloc; false; edges.len()]?;
    let mut order = Vec::new(alloc);
    let mut stack = Vec::new(alloc);
    for from in 0..edges.len() {
        let Ok(vertex) = u32::try_from(from) else {
            return Ok(order);
        };
        stack.push(Step {
            vertex,
            again: false,
        })?;
        go_through(edges, &mut seen, &mut stack, &mut order)?;
    }
    Ok(order)
}

// Looks at what is on the stack, and at all to which it leads. Each vertex is looked at twice, and
// comes next in the order the second time.
fn go_through(
    edges: &[Vec<u32>],
    seen: &mut [bool],
    stack: &mut Vec<Step>,
    order: &mut Vec<u32>,
) -> Result<(), AllocError> {
    for _turn in 0..u64::MAX {
        let Some(step) = stack.pop() else {
            return Ok(());
        };
        if step.again {
            order.push(step.vertex)?;
        } else {
            open(edges, step.vertex, seen, stack)?;
        }
    }
    Ok(())
}

// Puts a vertex that is new on the stack again, and over it all to which it leads.
fn open(
    edges: &[Vec<u32>],
    vertex: u32,
    seen: &mut [bool],
    stack: &mut Vec<Step>,
) -> Result<(), AllocError> {
    let at = vertex as usize;
    if at >= seen.len() || at >= edges.len() || seen[at] {
        return Ok(());
    }
    seen[at] = true;
    stack.push(Step {
        vertex,
        again: true,
    })?;
    for next in &edges[at] {
        stack.push(Step {
            vertex: *next,
            again: false,
        })?;
    }
    Ok(())
}

// The same graph with each edge turned round.
fn turned_round(alloc: Global, edges: &[Vec<u32>]) -> Result<Vec<Vec<u32>>, AllocError> {
    let mut turned = Vec::new(alloc);
    for _row in edges {
        turned.push(Vec::new(alloc))?;
    }
    for from in 0..edges.len() {
        if let Ok(vertex) = u32::try_from(from) {
            turn_row(&edges[from], vertex, turned.as_mut_slice())?;
        }
    }
    Ok(turned)
}

// Adds the edges of a vertex, each turned round.
fn turn_row(row: &[u32], from: u32, turned: &mut [Vec<u32>]) -> Result<(), AllocError> {
    for next in row {
        let at = *next as usize;
        if at < turned.len() {
            turned[at].push(from)?;
        }
    }
    Ok(())
}

// Puts what is on the stack, and all from which it is reached, on a level, where they have none
// yet, and says whether there were any.
fn spread(
    turned: &[Vec<u32>],
    level: u32,
    levels: &mut [u32],
    stack: &mut Vec<u32>,
) -> Result<bool, AllocError> {
    let mut any = false;
    for _turn in 0..u64::MAX {
        let Some(vertex) = stack.pop() else {
            return Ok(any);
        };
        let at = vertex as usize;
        if at < levels.len() && at < turned.len() && levels[at] == 0 {
            any = true;
            levels[at] = level;
            stack.extend_from_slice(&turned[at])?;
        }
    }
    Ok(any)
}
