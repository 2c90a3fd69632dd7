//! Workers, one for each lane of a run.
//!
//! A worker owns its lane and the lane's seat at the mailboxes. It waits until an action is posted to the lane, passes the gate,
//! runs the action's body, and hands the action back; under the lock it records the end, and opens what can start then. It holds
//! the lock for no body. Once nothing more comes it gives back the lane and the seat, with one fact: the new calls of the lane are
//! the whole runs of the actions that the seat handed back, in order, and then the part of a body that didn't end. It leaves only
//! a desk that is stopped or over, and where a body didn't end, a stopped one.
#![tactic(auto)]

mod crew;
mod leave;
mod shared;
mod signals;
mod worker;

pub use crew::{Begun, SeatedLane, run_workers};
pub use leave::Leave;
pub use shared::SharedDesk;
pub use worker::{Broken, Job, Returned};
