//! Counting the members of types with those of their bases.
ghost use Rattle.std.specs.Prelude.{◌≡◌, Some};
ghost use Rattle.pst_declaration_rules.specs.Tallies;
ghost use Rattle.pst_declaration_rules.specs.Tallied.{AreKnown, AreTallied, IsStart, IsTallied};
ghost use Rattle.pst_declaration_rules.specs.declared.tally.Tally.{Tally as ATally};

use crate::counted::{Kind, total};
use crate::grouped::group_at;
use crate::member::Member;
use crate::shape::{Shape, is_compound, is_twofold, shape_at};
use crate::sources::TypeSources;
use pst_ast::Declaration;
use pst_members::is_same_action;

/// How many members a type has with those of its bases, and which activities and bodies.
#[derive(Clone, Copy)]
pub struct Tally {
    /// References.
    pub references: Option<u64>,
    /// Claims.
    pub claims: Option<u64>,
    /// Fields.
    pub fields: Option<u64>,
    /// Whether an action has an activity, its own or that of its base.
    pub compound: bool,
    /// Whether an action has two activities, two bodies, or one of each, its own or those of its
    /// base.
    pub twofold: bool,
}

// No members.
fn nothing() -> Tally
    ensures { result ≡ Tallies.nothing }
{
    Tally {
        references: Some(0),
        claims: Some(0),
        fields: Some(0),
        compound: false,
        twofold: false,
    }
}

/// Those of a base with a type's own.
pub fn with_own(start: &Tally, own: &[Member], shape: Option<Shape>) -> Tally
    ensures { result ≡ Tallies.with_own start.now own.now shape }
{
    Tally {
        references: total(Kind::Reference, start.references, own),
        claims: total(Kind::Claim, start.claims, own),
        fields: total(Kind::Field, start.fields, own),
        compound: is_compound(shape, start.compound),
        twofold: is_twofold(shape, start.twofold),
    }
}

// Those of an action, where they are kept.
fn kept(known: &TypeSources, tallies: &[Option<Tally>], action: &Declaration) -> Option<Tally>
    requires { AreTallied known.now tallies.now }
    ensures { (t : ATally) → result ≡ Some t → IsTallied known.now action.now t }
{
    let number = known.places.number(action.name.place)?;
    if number >= known.members.len() || number >= tallies.len() {
        return None;
    }
    if !is_same_action(&known.members[number].declaration, action) {
        return None;
    }
    tallies[number]
}

/// Those of the base of a type, where they are kept; none where it has no base.
pub fn start_of(
    known: &TypeSources,
    tallies: &[Option<Tally>],
    declaration: &Declaration,
) -> Option<Tally>
    requires known { AreKnown known.now }
    requires tallied { AreTallied known.now tallies.now }
    ensures { (t : ATally) → result ≡ Some t → IsStart known.now declaration.now t }
{
    match known.index.base_of(declaration) {
        None => Some(nothing()),
        Some(base) => kept(known, tallies, &base),
    }
}
