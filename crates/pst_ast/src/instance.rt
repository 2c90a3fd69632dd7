//! Component instances.
use pst_base::NameId;

/// A component instance. Instances are numbered in preorder.
#[derive(Clone, Copy, Debug, PartialEq, Eq)]
pub struct Instance {
    /// Its name.
    pub name: NameId,
    /// The name of its component type.
    pub component: NameId,
    /// The number of the instance that it stands in, and nothing for the first.
    pub parent: Option<u32>,
    /// The number of the last instance in its subtree, itself included.
    pub last: u32,
}
