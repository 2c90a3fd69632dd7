//! What is known of the sources.
use pst_base::Names;
use pst_index::Index;
use pst_sites::Sites;
use std::alloc::Global;

/// What is known of the sources where a use is judged.
#[derive(Clone, Copy)]
pub struct Facts<'a> {
    /// Where memory comes from.
    pub alloc: Global,
    /// What the sources declare.
    pub index: &'a Index,
    /// The texts of names.
    pub names: &'a Names,
    /// The sources, by places.
    pub sites: &'a Sites<'a>,
}
