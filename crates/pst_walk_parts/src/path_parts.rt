//! The names of paths as parts.
ghost use Rattle.std.specs.Prelude.{◌≡◌, IfOk, map};
ghost use Rattle.pst_ast.specs.ExpressionView.{view_next_part, view_part};
ghost use Rattle.pst_ast.specs.Uses.{part_of, plain_part};
ghost use Rattle.pst_walk_parts.specs.Shown.{dotted_part};

use pst_ast::{DotName, NextPart, PartNode, PathPart};
use pst_base::NoMemory;
use std::alloc::Global;

/// A name of a path with its index.
pub fn part_of(part: &PartNode) -> PathPart
    ensures { result ≡ part_of (view_part part.now) }
{
    PathPart {
        name: part.name,
        index: part.index.is_some(),
    }
}

/// The names behind the dots of a path.
pub fn parts_of(alloc: Global, rest: &[NextPart]) -> Result<Vec<PathPart>, NoMemory>
    ensures { IfOk result (λ parts. parts.items ≡ map (λ n. dotted_part (view_next_part n)) rest.now) }
{
    let mut parts = Vec::new(alloc);
    for next in rest {
        parts.push(part_of(&next.part))?;
    }
    Ok(parts)
}

/// The names behind the dots of the path of a `foreach`.
pub fn plain_parts(alloc: Global, rest: &[DotName]) -> Result<Vec<PathPart>, NoMemory>
    ensures { IfOk result (λ parts. parts.items ≡ map (λ d. plain_part d.name) rest.now) }
{
    let mut parts = Vec::new(alloc);
    for next in rest {
        parts.push(PathPart {
            name: next.name,
            index: false,
        })?;
    }
    Ok(parts)
}
