//! Where a name is used.
use crate::{Inner, Owner, Traversal};
use pst_base::Place;

/// Where a name is used.
#[derive(Drop)]
pub struct Environment {
    /// The place of the name of the component in whose text it is; none at file level.
    pub component: Option<Place>,
    /// The action or object in whose text it is.
    pub owner: Owner,
    /// The indices and locals whose scopes it is in, the innermost first.
    pub inner: Inner,
    /// The traversal of the inline constraint that it stands in.
    pub traversal: Option<Traversal>,
}
