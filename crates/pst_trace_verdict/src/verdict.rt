//! Verdicts on the texts of traces.

/// A verdict on the text of a trace.
#[derive(Clone, Copy, Debug, PartialEq, Eq)]
pub enum TraceVerdict {
    /// It is that of a whole legal trace of the scenario.
    Whole,
    /// It begins that of one, up to an action that failed or trapped.
    Prefix,
    /// A line breaks a rule.
    Illegal {
        /// The number of the first such line, counted from 1.
        line: u32,
        /// The least rule that it breaks.
        rule: u8,
    },
}
