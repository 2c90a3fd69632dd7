//! Keys of look-ups.
ghost use Rattle.std.specs.Prelude.{◌≡◌};
ghost use Rattle.pst_index.specs.Keys;

use pst_ast::{Declaration, Scope, Sort};
use pst_base::{NameId, Place};

/// A place or the scope of all files, and a name or none.
#[derive(Clone, Copy, PartialEq, Eq, Hash)]
pub struct Key {
    /// Whether there is a place.
    pub part: bool,
    /// The file of the place.
    pub file: u32,
    /// Its line.
    pub line: u32,
    /// Its column.
    pub column: u32,
    /// The number of the name, or 0.
    pub name: u32,
}

/// What a declaration is found by.
#[derive(Clone, Copy, PartialEq, Eq)]
pub enum By {
    /// Its scope and its name.
    Name,
    /// The place of its name.
    Place,
    /// The level of its enum, and its name: an item.
    Item,
    /// Its scope and its name: a field.
    Field,
}

/// The key of a place.
pub fn place_key(place: Place) -> Key
    ensures { result ≡ Keys.place_key place }
{
    Key {
        part: true,
        file: place.file,
        line: place.line,
        column: place.column,
        name: 0,
    }
}

/// The key of a name in a scope.
pub fn name_key(scope: Scope, name: NameId) -> Key
    ensures { result ≡ Keys.name_key scope name }
{
    match scope {
        Scope::Files => Key {
            part: false,
            file: 0,
            line: 0,
            column: 0,
            name: name.0,
        },
        Scope::Part(place) => Key {
            part: true,
            file: place.file,
            line: place.line,
            column: place.column,
            name: name.0,
        },
    }
}

/// The key by which a declaration is found; none where it isn't found so.
pub fn key_of(by: By, declaration: &Declaration) -> Option<Key>
    ensures { result ≡ Keys.key_of by declaration.now }
{
    match by {
        By::Name => Some(name_key(declaration.scope, declaration.name.id)),
        By::Place => Some(place_key(declaration.name.place)),
        By::Item => match declaration.sort {
            Sort::Item { level } => Some(name_key(level, declaration.name.id)),
            _ => None,
        },
        By::Field => match declaration.sort {
            Sort::Field { .. } => Some(name_key(declaration.scope, declaration.name.id)),
            _ => None,
        },
    }
}
