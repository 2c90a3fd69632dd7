//! What is still to be read.
ghost use Rattle.std.specs.Prelude.{◌+◌, ◌<◌, ◌^◌};

use pst_model::{ActionType, Field, Step};
use pst_shape_parts::{Branches, Frame};
use std::rc::Rc;

/// The turns of a statement that are left.
#[derive(Clone, Copy)]
pub struct Turns<'a> {
    /// The statement.
    pub body: &'a Step,
    /// The number of the next turn, from 0.
    pub index: u64,
    /// How many turns are left.
    pub count: u64,
    ghost in_range: { index + count < 2 ^ 64 },
}

/// What stands side by side below a node.
#[derive(Clone, Copy)]
pub enum Parts<'a> {
    /// Statements.
    Steps(&'a [Step]),
    /// Turns of one statement.
    Turns(Turns<'a>),
}

/// What stands below a node, in at most so many levels, and then what comes after it.
#[derive(Drop)]
pub enum Stack<'a> {
    /// Nothing more.
    Empty,
    /// Some parts, and then what comes after their node.
    Over {
        /// How many levels of nodes there may be.
        levels: u32,
        /// The node.
        parent: u32,
        /// The values that names have there.
        frame: Rc<Frame>,
        /// The parts that are left.
        parts: Parts<'a>,
        /// What comes after the node.
        below: Rc<Stack<'a>>,
    },
}

/// The branches of a block of which some are to be chosen: those chosen so far, how many more are
/// to be, and how many are still to be looked at.
#[derive(Drop)]
pub struct Chosen<'a> {
    /// Whether the block is a `parallel`; otherwise it is a `schedule`.
    pub parallel: bool,
    /// The values that names have there.
    pub frame: Rc<Frame>,
    /// All branches.
    pub steps: &'a [Step],
    /// How many more are to be chosen.
    pub more: u32,
    /// How many are still to be looked at.
    pub left: u32,
    /// Of those looked at, whether each is chosen.
    pub joined: Vec<bool>,
}

/// A place.
#[derive(Drop)]
pub enum Spot<'a> {
    /// The component instance of an action.
    Instance {
        /// The number of the action type.
        action: u32,
        /// The action type.
        kind: &'a ActionType,
        /// The instances.
        options: Vec<u32>,
    },
    /// The branch of a `select`.
    Branch {
        /// The values that names have there.
        frame: Rc<Frame>,
        /// The branches whose guards hold, with their weights.
        branches: Branches<'a>,
    },
    /// Whether the next branch of a block is waited for.
    Join(Chosen<'a>),
}

/// The fields of a compound action whose values are still to be read, and its activity.
#[derive(Clone, Copy)]
pub struct Fields<'a> {
    /// The action's node.
    pub node: u32,
    /// Its component instance.
    pub instance: u32,
    /// The fields that are left.
    pub fields: &'a [Field],
    /// The statements of its activity.
    pub steps: &'a [Step],
}

/// Where reading stands.
#[derive(Drop)]
pub enum At<'a> {
    /// Between two places, with this still to be read.
    Going(Rc<Stack<'a>>),
    /// At a place of an instance, a branch or a join.
    Place {
        /// The place.
        spot: Spot<'a>,
        /// How many levels of nodes there may be.
        levels: u32,
        /// The node above; none at the root.
        parent: Option<u32>,
        /// What comes after it.
        below: Rc<Stack<'a>>,
    },
    /// At the value of the first of some fields.
    Value {
        /// The fields.
        fields: Fields<'a>,
        /// How many levels of nodes there may be below the action.
        levels: u32,
        /// What comes after the action.
        below: Rc<Stack<'a>>,
    },
    /// All is read.
    Whole,
    /// At a dead end.
    Dead,
}
