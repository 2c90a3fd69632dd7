//! Stages.
use pst_base::Names;
use pst_model::Model;
use pst_outcome::Reply;

/// What the sources of a line come to.
#[derive(Drop)]
pub enum Stage {
    /// They have no model: the answer.
    Ended(Reply),
    /// They have one.
    Elaborated {
        /// The names of the sources.
        names: Names,
        /// The model.
        model: Model,
        /// The number of the root's action type.
        root: u32,
    },
}
