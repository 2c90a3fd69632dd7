//! The events of a run.

/// An event of a run. A block of starts is a run of `Start` whose last has `more` false.
#[derive(Clone, Copy, Debug, PartialEq, Eq)]
pub enum Event {
    /// The action starts on the lane; `more` says that the next event belongs to the same block.
    Start { act: u32, lane: u32, more: bool },
    /// The action ends.
    End { act: u32 },
}
