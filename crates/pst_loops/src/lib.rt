//! The first declaration on a loop of bases or of instances, and orders of vertices.
#![tactic(auto)]

mod apart;
mod edges;
mod least;
mod levels;
mod numbers;
mod search;

pub use least::first_on_loop;
pub use levels::in_order_of_end;
