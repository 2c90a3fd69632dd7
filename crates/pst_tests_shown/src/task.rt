//! Tasks.
use pst_model::Model;

/// What lists of choices are read for.
#[derive(Drop)]
pub struct Task<'a> {
    /// The model, whose first action is the root.
    pub model: &'a Model,
    /// The seed.
    pub seed: u64,
    /// How many actions are to be inferred.
    pub level: u32,
    /// Whether nodes and actions are counted, and not written out.
    pub brief: bool,
}
