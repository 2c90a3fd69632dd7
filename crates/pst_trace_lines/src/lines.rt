//! Lines of counts and of ends.
ghost use Rattle.std.specs.Prelude.{◌≡◌, ℕ, MatchOption};
ghost use Rattle.pst_trace_lines.specs.Forms.{IsCounts, IsEnd};

use crate::numbers::{number, two};

/// The counts of actions and of inferred ones, where the line says them.
pub fn read_counts(line: &[u8]) -> Option<(u32, u32)>
    ensures { MatchOption result ((n k : ℕ) → IsCounts line.now n k → ⊥) (λ p. IsCounts line.now p.0 p.1) }
{
    let rest = line.strip_prefix(b"scenario ")?;
    two(rest)
}

/// The action that ends, where the line says so.
pub fn read_end(line: &[u8]) -> Option<u32>
    ensures { MatchOption result ((act : ℕ) → IsEnd line.now act → ⊥) (IsEnd line.now) }
{
    let rest = line.strip_prefix(b"end ")?;
    number(rest)
}
