//! A place of a compound action's field.

use pst_model::Field;

/// A place at which a field of a compound action is given its value, while the activity is being read. The values of
/// the fields before it stand at the node.
#[derive(Clone, Copy)]
pub struct FieldPlace<'a> {
    /// The action's node.
    pub node: u32,
    /// The fields that have no value yet. The first is the one at hand.
    pub fields: &'a [Field],
}
