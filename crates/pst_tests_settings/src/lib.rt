//! What cases of the program are answered with: the words, the shelf, the sink, the lanes and the gate
//! that a line of a table names, and texts of what came of it.
#![tactic(auto)]

mod gate;
mod lanes;
mod setting;
mod texts;

pub use gate::Meeting;
pub use lanes::{add_lanes, count_astray, lanes_of};
pub use setting::{Setting, bytes_a_write, failing_of, judging_of, setting_of};
pub use texts::{add_calls, ends_of, shown};
