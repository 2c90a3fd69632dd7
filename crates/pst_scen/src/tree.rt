//! The filled-in activity of a scenario.
use pst_base::Items;

/// A node of a filled-in activity. Nodes stand in preorder and are named by their places in the
/// list, from 0.
#[derive(Debug, Drop)]
pub struct Node {
    /// The node that contains this one; none for the root.
    pub parent: Option<u32>,
    /// What the node is.
    pub fill: Fill,
}

/// What a node of a filled-in activity is.
#[derive(Debug, Drop)]
pub enum Fill {
    /// An action with an activity: its type, the component instance in which it runs, and the
    /// values of its fields.
    Compound {
        action: u32,
        instance: u32,
        fields: Items<i64>,
    },
    /// An action without an activity, by its number among the scenario's actions.
    Leaf {
        act: u32,
    },
    /// A block whose statements run one after another.
    Sequence,
    /// A block whose statements run in parallel.
    Parallel,
    /// A block whose statements run in any order that the rest of the scenario allows.
    Schedule,
    /// A parallel or scheduled block that waits for some of its branches alone: bit k of `joined`
    /// stands for branch k.
    Joined {
        parallel: bool,
        joined: u64,
    },
    /// A choice among branches, and the branch that was taken.
    Select {
        branch: u32,
    },
    /// A repetition, whose turns run one after another.
    Repeat,
    /// One turn of a repetition, counted from 0.
    Turn {
        index: u32,
    },
    /// A conditional statement, and whether its condition held.
    If {
        yes: bool,
    },
    /// A choice by value, and the arm that was taken; none for the default.
    Match {
        arm: Option<u32>,
    },
}
