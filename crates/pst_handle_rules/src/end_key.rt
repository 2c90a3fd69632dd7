//! Keys of ends.
ghost use Rattle.std.specs.Prelude.{◌≡◌, ◌↔◌, IsTrue};
ghost use Rattle.pst_type_rules.specs.Binds.{IsSameEnd};
ghost use Rattle.pst_handle_rules.specs.EndKeys;

use pst_ast::{EndNode, Owner};
use pst_base::Place;
use pst_handle_uses::Tied;

/// One of two ends that are tied.
#[derive(Clone, Copy, PartialEq, Eq)]
pub enum Side {
    /// The first of its bind.
    First,
    /// The other.
    Other,
}

/// The place of an owner, and the names of a handle and a reference.
#[derive(Clone, Copy, PartialEq, Eq, Hash)]
pub struct EndKey {
    /// The file of the owner's name.
    pub file: u32,
    /// Its line.
    pub line: u32,
    /// Its column.
    pub column: u32,
    /// The number of the handle's name.
    pub handle: u32,
    /// The number of the reference's name.
    pub reference: u32,
}

// The place of an owner's name, or another one.
fn owner_place(owner: Owner) -> Place
    ensures { result ≡ EndKeys.owner_place owner }
{
    match owner {
        Owner::Nobody => Place {
            file: 0,
            line: 0,
            column: 0,
        },
        Owner::OfAction(owner) | Owner::OfObject(owner) => owner.name.place,
    }
}

/// An end that is tied.
pub fn end_of(side: Side, tie: &Tied) -> EndNode
    ensures { result ≡ EndKeys.end_of side tie.now }
{
    match side {
        Side::First => tie.first,
        Side::Other => tie.other,
    }
}

/// The key of an end that is tied.
pub fn key_of(side: Side, tie: &Tied) -> EndKey
    ensures { result ≡ EndKeys.key_of side tie.now }
{
    let place = owner_place(tie.owner);
    let end = end_of(side, tie);
    EndKey {
        file: place.file,
        line: place.line,
        column: place.column,
        handle: end.handle.id.0,
        reference: end.name.id.0,
    }
}

/// Whether two ends are the same reference of the same handle.
pub fn is_same_end(a: EndNode, b: EndNode) -> bool
    ensures { IsTrue result ↔ IsSameEnd a b }
{
    a.handle.id == b.handle.id && a.name.id == b.name.id
}
