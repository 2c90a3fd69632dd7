//! Verdicts on traces.

/// A verdict on a trace.
#[derive(Clone, Copy, Debug, PartialEq, Eq)]
pub enum Verdict {
    /// It is legal, and every action has ended.
    Whole,
    /// It begins a whole legal trace.
    Prefix,
    /// The block of that number, counted from 0, is the first that doesn't with those before it, and
    /// that is the least rule that it breaks.
    Illegal { block: u32, rule: u8 },
}
