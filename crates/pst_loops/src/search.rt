ghost use Rattle.std.specs.Prelude.{◌≡◌, ◌<◌, ◌≤◌, ◌+◌, ◌^◌, ◌↔◌, ◌++◌, [], ◌∷◌, length, slice_get, IfOk, IsTrue, MatchBool};
ghost use Rattle.pst_loops.specs.Graph.{HasWalk, AreEdges};
ghost use Rattle.pst_loops.specs.Search.{IsSearch, IsReached, IsGone, EachGone, work};

use std::alloc::{AllocError, Global};

/// Whether a walk of one or more edges leads from one vertex to the other.
pub fn reaches(alloc: Global, edges: &[Vec<u32>], from: u32, to: u32) -> Result<bool, AllocError>
    requires edges { AreEdges edges.now }
    requires from { from < length edges.now }
    ensures { IfOk result (λ yes. IsTrue yes ↔ HasWalk edges.now from to) }
{
    let mut marks = vec![in alloc; false; edges.len()]?;
    search(alloc, edges, from, to, &mut marks)
}

fn search(
    alloc: Global,
    edges: &[Vec<u32>],
    from: u32,
    to: u32,
    marks: &mut [bool],
) -> Result<bool, AllocError>
    requires edges { AreEdges edges.now }
    requires from { from < length edges.now }
    requires start { IsSearch edges.now from to marks.old (from ∷ []) EachGone }
    ensures { IfOk result (λ yes. IsTrue yes ↔ HasWalk edges.now from to) }
{
    let mut stack = Vec::new(alloc);
    stack.push(from)?;
    while let Some(top) = stack.pop() {
        if expand(edges, from, to, marks, &mut stack, top)? {
            return Ok(true);
        }
    }
    Ok(false)
}

/// Marks the vertices to which there is an edge, and puts the new ones on the stack; or comes to the end.
fn expand(
    edges: &[Vec<u32>],
    from: u32,
    to: u32,
    marks: &mut [bool],
    stack: &mut Vec<u32>,
    top: u32,
) -> Result<bool, AllocError>
    requires edges { AreEdges edges.now }
    requires search { IsSearch edges.now from to marks.old stack.old.items (IsGone top []) }
    requires within { top < length edges.now }
    requires reached { IsReached from marks.old top }
    ensures yes { IfOk result (λ yes. MatchBool yes (HasWalk edges.now from to) (IsSearch edges.now from to marks.new stack.new.items EachGone)) }
    ensures falls { IfOk result (λ yes. work marks.new + length stack.new.items ≤ work marks.old + length stack.old.items) }
{
    for next in &edges[top as usize] {
        if *next == to {
            return Ok(true);
        }
        if !marks[*next as usize] {
            marks[*next as usize] = true;
            stack.push(*next)?;
        }
    }
    Ok(false)
}
