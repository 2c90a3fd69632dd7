//! Scenarios of actions, the events of their runs, and the definitions of legal traces.
//!
//! A scenario is a filled-in activity with its atomic actions. Its types carry no behaviour: what
//! they mean stands in `specs/`, for every part of the product to cite.
#![tactic(auto)]

mod act;
mod event;
mod laws;
mod next;
mod plan;
mod rows;
mod scenario;
mod tree;

pub use act::{Act, Claimed, Filled, Flow, Link};
pub use event::Event;
pub use laws::{
    before_is_never_itself, prefixes_are_legal, whole_traces_are_prefixes, wider_traces_are_legal,
};
pub use next::Next;
pub use plan::Plan;
pub use rows::Rows;
pub use scenario::{First, Scenario};
pub use tree::{Fill, Node};
