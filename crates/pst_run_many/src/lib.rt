//! Runs scenarios on several lanes.
//!
//! Each lane has a worker, which owns it while the run goes on. The book of the run stands in a desk behind one lock, and actions
//! go to the workers by mailboxes. Once the workers have come to their ends the caller takes the lanes back, and goes on alone
//! where work is left that couldn't be handed over.
#![tactic(auto)]

mod alone;
mod gathering;
mod many;
mod seats;
mod stop;

pub use many::run_many;
