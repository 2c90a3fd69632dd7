//! The pairs of actions that a use of each keeps apart.
ghost use Rattle.std.specs.Prelude.{◌≡◌, ◌≤◌, ◌<◌, ◌↔◌, ℕ, length, slice_get, Some, IsTrue};
ghost use Rattle.pst_graph.specs.declared.uses.Use.{Use};
ghost use Rattle.pst_square.specs.Squares.{Adds, IsPair};
ghost use Rattle.pst_graph.specs.Uses.{AreExclusive, AreApart, IsApartFromAny, AreApartIn};

use crate::uses::Use;
use pst_square::Square;

/// Whether both are of one instance or one state pool, and one of them excludes the other.
pub(crate) fn are_exclusive(u: Use, v: Use) -> bool
    ensures { IsTrue result ↔ AreExclusive u v }
{
    if u.pool != v.pool || u.instance != v.instance {
        return false;
    }
    u.state == v.state && (u.alone || v.alone)
}

/// Adds the pair of the actions of the two uses, where they are two and exclude each other.
fn add_apart(square: &mut Square, u: Use, v: Use)
    requires u_in { u.act < square.old.size }
    requires v_in { v.act < square.old.size }
    ensures { Adds square.old square.new (AreApart u v) }
{
    if !are_exclusive(u, v) {
        return;
    }
    if u.act != v.act {
        square.add(u.act, v.act);
    }
}

/// Adds the pairs of the use's action with those from which one of the uses keeps it apart.
fn add_apart_from(square: &mut Square, u: Use, uses: &[Use])
    requires inside { (i : ℕ) (v : Use) → slice_get uses.now i ≡ Some v → v.act < square.old.size }
    requires u_in { u.act < square.old.size }
    ensures { Adds square.old square.new (IsApartFromAny u uses.now) }
{
    for i in 0..uses.len() {
        add_apart(square, u, uses[i]);
    }
}

/// Adds the pairs of actions that two of the uses keep apart.
pub(crate) fn add_all_apart(square: &mut Square, uses: &[Use])
    requires { (i : ℕ) (v : Use) → slice_get uses.now i ≡ Some v → v.act < square.old.size }
    ensures { Adds square.old square.new (AreApartIn uses.now) }
{
    for i in 0..uses.len() {
        add_apart_from(square, uses[i], uses);
    }
}
