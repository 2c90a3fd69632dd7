//! Which nodes a choice touches: those that it made new, those of the actions that it made or linked,
//! and all that stand above one of these. Below any other node all is as it was, and so is what belongs
//! to its action, behind its handles too.
#![tactic(auto)]

mod upward;

pub use upward::touched;
