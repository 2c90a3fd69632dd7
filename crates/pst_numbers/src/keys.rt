//! Keys of numbers.
ghost use Rattle.std.specs.Prelude.{◌≡◌};
ghost use Rattle.pst_numbers.specs.NumberKeys;

use pst_base::Place;

/// A place.
#[derive(Clone, Copy, PartialEq, Eq, Hash)]
pub struct PlaceKey {
    /// The file.
    pub file: u32,
    /// The line.
    pub line: u32,
    /// The column.
    pub column: u32,
}

/// The place of a type, and that of a name which is declared in its text.
#[derive(Clone, Copy, PartialEq, Eq, Hash)]
pub struct MemberKey {
    /// The type.
    pub inside: PlaceKey,
    /// The name.
    pub name: PlaceKey,
}

/// The key of a place.
pub fn place_key(place: Place) -> PlaceKey
    ensures { result ≡ NumberKeys.place_key place }
{
    PlaceKey {
        file: place.file,
        line: place.line,
        column: place.column,
    }
}

/// The key of a name in the text of a type.
pub fn member_key(inside: Place, name: Place) -> MemberKey
    ensures { result ≡ NumberKeys.member_key inside name }
{
    MemberKey {
        inside: place_key(inside),
        name: place_key(name),
    }
}
