//! Last lines.
ghost use Rattle.std.specs.Prelude.{◌≡◌, ◌++◌, ℕ, codes, MatchOption};
ghost use Rattle.pst_trace_lines.specs.declared.last.LastLine.{LastLine as AnyLast};
ghost use Rattle.pst_trace_lines.specs.Forms.{IsDone, IsFault, IsTrap};
ghost use Rattle.pst_trace_lines.specs.Last.{IsLastLine};

use crate::numbers::{number, three};

/// What the last line of a trace says.
#[derive(Clone, Copy, Debug, PartialEq, Eq)]
pub enum LastLine {
    /// So many actions have ended, and they are all.
    Done {
        /// How many.
        actions: u32,
    },
    /// A lane failed in the body of an action.
    Fault {
        /// The lane, at most 15.
        lane: u32,
        /// The action.
        action: u32,
        /// The number of the call that failed.
        call: u32,
    },
    /// The body of an action trapped.
    Trap {
        /// The lane, at most 15.
        lane: u32,
        /// The action.
        action: u32,
        /// The kind of the trap, from 1 to 3.
        kind: u8,
    },
}

/// The count of a `done` line.
fn read_done(line: &[u8]) -> Option<u32>
    ensures { MatchOption result ((n : ℕ) → IsDone line.now n → ⊥) (IsDone line.now) }
{
    let rest = line.strip_prefix(b"done ")?;
    number(rest)
}

/// What stands behind `fault`.
fn behind_fault(line: &[u8]) -> Option<&[u8]>
    ensures { MatchOption result ((lane act call : ℕ) → IsFault line.now lane act call → ⊥) (λ rest. line.now ≡ codes "fault " ++ rest.now) }
{
    line.strip_prefix(b"fault ".as_slice())
}

/// What stands behind `trap`.
fn behind_trap(line: &[u8]) -> Option<&[u8]>
    ensures { MatchOption result ((lane act kind : ℕ) → IsTrap line.now lane act kind → ⊥) (λ rest. line.now ≡ codes "trap " ++ rest.now) }
{
    line.strip_prefix(b"trap ".as_slice())
}

/// The numbers of a `fault` line.
fn read_fault(line: &[u8]) -> Option<(u32, u32, u32)>
    ensures { MatchOption result ((lane act call : ℕ) → IsFault line.now lane act call → ⊥) (λ p. IsFault line.now p.0 p.1 p.2) }
{
    let rest = behind_fault(line)?;
    let (lane, action, call) = three(rest)?;
    if lane > 15 {
        return None;
    }
    Some((lane, action, call))
}

/// The numbers of a `trap` line.
fn read_trap(line: &[u8]) -> Option<(u32, u32, u32)>
    ensures { MatchOption result ((lane act kind : ℕ) → IsTrap line.now lane act kind → ⊥) (λ p. IsTrap line.now p.0 p.1 p.2) }
{
    let rest = behind_trap(line)?;
    let (lane, action, kind) = three(rest)?;
    if lane > 15 {
        return None;
    }
    if kind < 1 {
        return None;
    }
    if kind > 3 {
        return None;
    }
    Some((lane, action, kind))
}

/// What the line says, where it is a last line but `solved`.
pub fn read_last(line: &[u8]) -> Option<LastLine>
    ensures { MatchOption result ((last : AnyLast) → IsLastLine line.now last → ⊥) (IsLastLine line.now) }
{
    if let Some(actions) = read_done(line) {
        return Some(LastLine::Done { actions });
    }
    if let Some((lane, action, call)) = read_fault(line) {
        return Some(LastLine::Fault { lane, action, call });
    }
    let (lane, action, kind) = read_trap(line)?;
    Some(LastLine::Trap {
        lane,
        action,
        kind: kind as u8,
    })
}
