//! Whether two owners are one.
ghost use Rattle.std.specs.Prelude.{◌≡◌, ◌↔◌, IsTrue};

use pst_ast::{Declaration, Owner, Sort};

// Whether two sorts are one.
fn is_same_sort(a: Sort, b: Sort) -> bool
    ensures { IsTrue result ↔ (a ≡ b) }
{
    a == b
}

// Whether two declarations are one.
fn is_same_declaration(a: Declaration, b: Declaration) -> bool
    ensures { IsTrue result ↔ (a ≡ b) }
{
    a.name == b.name && a.scope == b.scope && a.inside == b.inside && is_same_sort(a.sort, b.sort)
}

/// Whether two owners are one.
pub fn is_same_owner(a: Owner, b: Owner) -> bool
    ensures { IsTrue result ↔ (a ≡ b) }
{
    match (a, b) {
        (Owner::Nobody, Owner::Nobody) => true,
        (Owner::OfAction(a), Owner::OfAction(b)) => is_same_declaration(a, b),
        (Owner::OfObject(a), Owner::OfObject(b)) => is_same_declaration(a, b),
        _ => false,
    }
}
