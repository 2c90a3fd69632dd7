//! Handles and all other members, and the types that declare any of them.
ghost use Rattle.std.specs.Prelude.{◌≡◌, ◌++◌, IfOk, OnOk};
ghost use Rattle.pst_type_rules.specs.Members.{those_that};
ghost use Rattle.pst_member_bases.specs.Grouped.{AreBasesWith, is_in_group, places_in, scopes_of};

use pst_ast::{Declaration, Scope, Sort};
use pst_base::{NoMemory, Place};
use pst_index::Index;
use pst_marked_bases::MarkedBases;
use std::alloc::Global;

/// Members that types are marked by.
#[derive(Clone, Copy, PartialEq, Eq)]
pub enum MemberGroup {
    /// Handles, of which a type may have any number.
    Handles,
    /// Fields, references and claims, of which a type has few.
    Others,
}

// Whether a declaration is in that group.
fn is_in(group: MemberGroup, sort: Sort) -> bool
    ensures { result ≡ is_in_group group sort }
{
    match group {
        MemberGroup::Handles => matches!(sort, Sort::Handle { .. }),
        MemberGroup::Others => matches!(
            sort,
            Sort::Field { .. } | Sort::Reference { .. } | Sort::Claim { .. }
        ),
    }
}

// Adds the place in whose scope something is declared.
fn add_place(places: &mut Vec<Place>, declaration: &Declaration) -> Result<(), NoMemory>
    ensures { OnOk result (places.new.items ≡ places.old.items ++ places_in declaration.now.scope) }
{
    match declaration.scope {
        Scope::Files => Ok(()),
        Scope::Part(place) => {
            places.push(place)?;
            Ok(())
        }
    }
}

// The places of the names of the types that declare members of a group.
fn places_with(
    alloc: Global,
    group: MemberGroup,
    declarations: &[Declaration],
) -> Result<Vec<Place>, NoMemory>
    ensures { IfOk result (λ places. places.items ≡ scopes_of (those_that (is_in_group group) declarations.now)) }
{
    let mut places = Vec::new(alloc);
    for declaration in declarations {
        if is_in(group, declaration.sort) {
            add_place(&mut places, declaration)?;
        }
    }
    Ok(places)
}

/// The bases of types, as far as they declare members of a group.
pub(crate) fn bases_with<'a>(
    alloc: Global,
    index: &'a Index,
    group: MemberGroup,
) -> Result<MarkedBases<'a>, NoMemory>
    ensures { IfOk result (AreBasesWith group index.now) }
{
    let places = places_with(alloc, group, index.as_slice())?;
    MarkedBases::new(alloc, index, places)
}
