//! The values of the constant expressions of the sources.
use pst_base::{Items, Place};

/// The value of a constant expression.
#[derive(Clone, Copy, PartialEq, Eq)]
pub struct ConstantValue {
    /// The place of the expression's first token.
    pub at: Place,
    /// Its value.
    pub value: i64,
}

/// The value of each constant expression of the sources, in order of place.
///
/// Constant are widths, the ends of ranges of domains and of a `match`, the values that enum items
/// are given, the sizes of pools and arrays, weights, and the counts of `join_select`.
#[derive(Drop)]
pub struct Typed {
    /// The values.
    pub constants: Items<ConstantValue>,
}
