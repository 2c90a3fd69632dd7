//! Rows.
use crate::uses::Uses;

/// The rows of a sweep, one for each seed, in the order of the seeds.
#[derive(Debug, Drop)]
pub struct Table {
    /// The rows.
    pub rows: Vec<SweepRow>,
}

/// The row of a seed.
#[derive(Debug, Drop)]
pub struct SweepRow {
    /// The seed.
    pub seed: u64,
    /// What its search comes to.
    pub outcome: Outcome,
    /// How many atomic actions of the scenario are of each type; all 0 where there is none.
    pub uses: Uses,
}

/// What the search of a seed comes to.
#[derive(Clone, Copy, Debug, PartialEq, Eq)]
pub enum Outcome {
    /// There is a first legal scenario.
    Found {
        /// The number of its atomic actions.
        actions: u32,
        /// The number of those that are inferred.
        inferred: u32,
    },
    /// No legal scenario infers so few actions.
    NoScenario,
    /// The budget was spent in that level.
    Budget {
        /// The number of inferred actions.
        level: u32,
    },
}
