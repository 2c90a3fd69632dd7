//! Whether two declarations are one action.
ghost use Rattle.std.specs.Prelude.{◌≡◌, ◌↔◌, IsTrue};
ghost use Rattle.pst_ast.specs.Sorts.{is_action};

use pst_ast::{Declaration, Name, Scope, Sort, TypeName};
use pst_base::Place;

// Whether two places are one.
fn is_same_place(a: Place, b: Place) -> bool
    ensures { IsTrue result ↔ (a ≡ b) }
{
    a == b
}

// Whether two names are one, at one place.
fn is_same_name(a: Name, b: Name) -> bool
    ensures { IsTrue result ↔ (a ≡ b) }
{
    a == b
}

// Whether two places are one, or none.
fn is_same_inside(a: Option<Place>, b: Option<Place>) -> bool
    ensures { IsTrue result ↔ (a ≡ b) }
{
    a == b
}

// Whether two names of bases are one, at one place, or none.
fn is_same_base(a: Option<TypeName>, b: Option<TypeName>) -> bool
    ensures { IsTrue result ↔ (a ≡ b) }
{
    a == b
}

// Whether two scopes are one.
fn is_same_scope(a: Scope, b: Scope) -> bool
    ensures { IsTrue result ↔ (a ≡ b) }
{
    a == b
}

// Whether two sorts are that of one action.
fn is_same_sort(a: Sort, b: Sort) -> bool
    ensures { IsTrue result ↔ ((a ≡ b) × IsTrue (is_action a)) }
{
    match (a, b) {
        (Sort::Action { base: a }, Sort::Action { base: b }) => is_same_base(a, b),
        _ => false,
    }
}

/// Whether two declarations are one action.
pub fn is_same_action(a: &Declaration, b: &Declaration) -> bool
    ensures { IsTrue result ↔ ((a.now ≡ b.now) × IsTrue (is_action a.now.sort)) }
{
    is_same_name(a.name, b.name)
        && is_same_scope(a.scope, b.scope)
        && is_same_inside(a.inside, b.inside)
        && is_same_sort(a.sort, b.sort)
}
