//! The enum items of sources, and what is asked about them.
use crate::item::ListedItem;
use pst_ast::Unit;
use pst_base::Names;
use pst_index::Index;
use pst_places::PlaceList;
use std::alloc::Global;

/// The enum items of sources, and what names stand for there.
#[derive(Clone, Copy)]
pub struct ItemSources<'a> {
    /// Where memory comes from.
    pub alloc: Global,
    /// The sources.
    pub units: &'a [Unit],
    /// What they declare.
    pub index: &'a Index,
    /// The texts of names.
    pub names: &'a Names,
    /// The places of the items' names.
    pub places: &'a PlaceList,
    /// The items.
    pub items: &'a [ListedItem<'a>],
}
