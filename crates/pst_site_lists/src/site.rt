//! Fields and enums, with where they stand.
use pst_ast::{EnumNode, Environment, ExprNode, Name, TypeNode};
use pst_base::Place;

/// A field of the sources.
#[derive(Drop)]
pub struct FieldSite<'a> {
    /// Where its type and the size of an array stand.
    pub at: Environment,
    /// Its type, or that of the elements of an array.
    pub field_type: &'a TypeNode,
    /// Its name.
    pub name: Name,
    /// The size, where it is an array.
    pub size: Option<&'a ExprNode>,
}

/// An enum of the sources.
#[derive(Clone, Copy)]
pub struct EnumSite<'a> {
    /// The place of the name of the component in whose text it is; none at file level.
    pub component: Option<Place>,
    /// The enum.
    pub node: &'a EnumNode,
}
