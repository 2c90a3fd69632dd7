//! What is answered of the model of sources: its first legal scenario is sought, and run, printed, or
//! compared with a trace.
#![tactic(auto)]

mod counts;
mod found;
mod model;
mod run;

pub use counts::reply_to_whole;
pub use model::{answer_model, reply_to_search_end};
pub use pst_search::search;
pub use run::{reply_of, reply_to_end};
