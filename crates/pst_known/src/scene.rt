//! A scenario that is looked at.
ghost use Rattle.pst_handle_nodes.specs.Children.{StandEarlier};

use pst_model::Model;
use pst_scen::{Act, First, Node};

/// A scenario that is read, or is still being read, and its model. Each node's parent stands before it, so that what a
/// handle leads to is looked for behind the node of its activity.
#[derive(Clone, Copy)]
pub struct Scene<'a> {
    pub model: &'a Model,
    /// The number of inferred actions that was asked for.
    pub level: u32,
    pub nodes: &'a [Node],
    pub actions: &'a [Act],
    pub firsts: &'a [First],
    pub ghost earlier: { StandEarlier nodes.now },
}
