//! Requests.
use pst_base::{Items, Names};
use pst_model::Model;
use pst_outcome::{Reply, Task};

/// What is asked about the model of sources.
#[derive(Drop)]
pub struct Question {
    /// The names of the sources.
    pub names: Names,
    /// The model.
    pub model: Model,
    /// The number of the root's action type.
    pub root: u32,
    /// What is asked.
    pub task: Task,
    /// The bytes of the trace file, where there is one.
    pub trace: Option<Items<u8>>,
}

/// What words come to before any lane is called.
#[derive(Drop)]
pub enum Request {
    /// They are answered.
    Answered(Reply),
    /// They ask about a model.
    Asked(Question),
}
