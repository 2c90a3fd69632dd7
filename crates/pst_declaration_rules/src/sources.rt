//! What is known of the sources while declarations are judged.
use crate::grouped::PlaceKey;
use crate::member::Member;
use pst_base::Names;
use pst_evaluate::ItemValues;
use pst_index::Index;
use pst_places::PlaceList;
use pst_sites::Sites;
use std::alloc::Global;
use std::collections::HashMap;

/// What is known of the sources.
#[derive(Clone, Copy)]
pub struct TypeSources<'s, 'a> {
    /// Where memory comes from.
    pub alloc: Global,
    /// The sources.
    pub sites: &'s Sites<'a>,
    /// What they declare.
    pub index: &'s Index,
    /// The texts of names.
    pub names: &'s Names,
    /// The values of items.
    pub values: &'s ItemValues,
    /// What is declared, with the number of fields that each adds.
    pub members: &'s [Member],
    /// The places of the names of declarations.
    pub places: &'s PlaceList,
    /// The declarations of each scope.
    pub scopes: &'s HashMap<PlaceKey, Vec<Member>>,
    /// The locals in the text of each action.
    pub texts: &'s HashMap<PlaceKey, Vec<Member>>,
}
