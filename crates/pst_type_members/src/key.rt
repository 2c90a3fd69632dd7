//! Keys of places.
ghost use Rattle.std.specs.Prelude.{◌≡◌};
ghost use Rattle.pst_type_members.specs.Keyed;

use pst_base::Place;

/// A place.
#[derive(Clone, Copy, PartialEq, Eq, Hash)]
pub struct ScopeKey {
    /// The file.
    pub file: u32,
    /// The line.
    pub line: u32,
    /// The column.
    pub column: u32,
}

/// The key of a place.
pub fn scope_key(place: Place) -> ScopeKey
    ensures { result ≡ Keyed.scope_key place }
{
    ScopeKey {
        file: place.file,
        line: place.line,
        column: place.column,
    }
}
