//! What is declared, with the number of fields that it adds to its type.
use pst_ast::Declaration;

/// A declaration, with the number of fields that it adds to its type.
#[derive(Clone, Copy)]
pub struct Member {
    /// The declaration.
    pub declaration: Declaration,
    /// How many fields it adds; none where it declares a field that isn't in the sources.
    pub adds: Option<u32>,
}
