//! Keys of places.
ghost use Rattle.std.specs.Prelude.{◌≡◌};
ghost use Rattle.pst_tree.specs.Members;

use pst_base::Place;

/// A place.
#[derive(Clone, Copy, PartialEq, Eq, Hash)]
pub struct PlaceKey {
    /// The file.
    pub file: u32,
    /// The line.
    pub line: u32,
    /// The column.
    pub column: u32,
}

/// The key of a place.
pub fn place_key(place: Place) -> PlaceKey
    ensures { result ≡ Members.place_key place }
{
    PlaceKey {
        file: place.file,
        line: place.line,
        column: place.column,
    }
}
