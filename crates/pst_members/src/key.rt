//! Scopes as keys.
ghost use Rattle.std.specs.Prelude.{◌≡◌};
ghost use Rattle.pst_members.specs.Keys;

use pst_ast::Scope;

/// The scope of all files, or a place.
#[derive(Clone, Copy, PartialEq, Eq, Hash)]
pub struct ScopeKey {
    /// Whether there is a place.
    pub part: bool,
    /// The file of the place.
    pub file: u32,
    /// Its line.
    pub line: u32,
    /// Its column.
    pub column: u32,
}

/// The key of a scope.
pub fn scope_key(scope: Scope) -> ScopeKey
    ensures { result ≡ Keys.scope_key scope }
{
    match scope {
        Scope::Files => ScopeKey {
            part: false,
            file: 0,
            line: 0,
            column: 0,
        },
        Scope::Part(place) => ScopeKey {
            part: true,
            file: place.file,
            line: place.line,
            column: place.column,
        },
    }
}
