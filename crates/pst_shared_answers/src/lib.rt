//! What is answered of the model of sources where its scenario is run on several lanes.
#![tactic(auto)]

mod found;
mod model;
mod run;

pub use model::answer_shared;
pub use pst_model_answers::answer_model;
