//! Vertices of a graph that are on no loop.
ghost use Rattle.std.specs.Prelude.{◌≡◌, length, IfOk, IsTrue};
ghost use Rattle.pst_loops.specs.Apart.{AreApart, AreFrom, AreRising, NeverFalls, level};

use crate::levels::levels_of;
use std::alloc::{AllocError, Global};

/// Marks vertices from which no walk leads back. That is each of them, where the levels are right.
pub fn apart(alloc: Global, edges: &[Vec<u32>]) -> Result<Vec<bool>, AllocError>
    ensures { IfOk result (λ marks. AreApart edges.now marks.items) }
{
    let levels = levels_of(alloc, edges)?;
    if !never_falls(edges, &levels) {
        return Ok(Vec::new(alloc));
    }
    rising(alloc, edges, &levels)
}

// The level of a vertex.
fn level_of(levels: &[u32], vertex: usize) -> u32
    ensures { result ≡ level levels.now vertex }
{
    if vertex < levels.len() {
        levels[vertex]
    } else {
        0
    }
}

// Whether none of a row is on a lower level than that.
fn are_from(least: u64, levels: &[u32], row: &[u32]) -> bool
    ensures { IsTrue result → AreFrom least levels.now row.now }
{
    for next in row {
        if u64::from(level_of(levels, *next as usize)) < least {
            return false;
        }
    }
    true
}

// Whether no edge leads to a lower level.
fn never_falls(edges: &[Vec<u32>], levels: &[u32]) -> bool
    ensures { IsTrue result → NeverFalls edges.now levels.now }
{
    for at in 0..edges.len() {
        let level = level_of(levels, at);
        if !are_from(u64::from(level), levels, &edges[at]) {
            return false;
        }
    }
    true
}

// Marks the vertices of which each edge leads to a higher level.
fn rising(alloc: Global, edges: &[Vec<u32>], levels: &[u32]) -> Result<Vec<bool>, AllocError>
    ensures { IfOk result (λ marks. AreRising edges.now levels.now marks.items) }
{
    let mut marks = Vec::new(alloc);
    for at in 0..edges.len() {
        let level = level_of(levels, at);
        marks.push(are_from(u64::from(level) + 1, levels, &edges[at]))?;
    }
    Ok(marks)
}
