//! What a line asks for.
use pst_place_answers::Space;

/// What is done with the first legal scenario.
#[derive(Clone, Copy, Debug, PartialEq, Eq)]
pub enum Work {
    /// It is run, and its trace is printed.
    Run {
        /// On how many lanes.
        lanes: u32,
    },
    /// Its header is printed.
    Solve,
    /// A trace is judged against it.
    Check,
    /// What its actions ask for is placed in a space.
    Place {
        /// The space.
        space: Space,
    },
    /// Programs of lanes are made for it, and printed.
    Static {
        /// Over how many lanes.
        over: u32,
    },
    /// It is one of a generated model: it is run, and counts are printed.
    Generate {
        /// The size of the model.
        size: u32,
        /// On how many lanes.
        lanes: u32,
    },
    /// Nothing: many seeds are searched instead, in their order.
    Sweep {
        /// The first of them.
        first: u64,
        /// How many there are.
        count: u32,
    },
}

/// How the first legal scenario is sought, and what is done with it.
#[derive(Clone, Copy, Debug, PartialEq, Eq)]
pub struct Task {
    /// What is done with it.
    pub work: Work,
    /// The seed of the order in which scenarios are tried.
    pub seed: u64,
    /// The most inferred actions.
    pub infer: u32,
    /// The most live lists of choices.
    pub budget: u64,
}
