//! The least of what declarations break.
ghost use Rattle.std.specs.Prelude.{◌≡◌, IfOk, map};
ghost use Rattle.pst_ast.specs.DeclarationView.{view_unit};
ghost use Rattle.pst_ast.specs.Declarations.{declarations};
ghost use Rattle.pst_ast.specs.NameRules.{NameBreach};
ghost use Rattle.pst_ast.specs.declared.referent.Finding.{Finding as AFinding};
ghost use Rattle.pst_evaluate.specs.Kept.{known_in};
ghost use Rattle.pst_evaluate.specs.Settled.{AreItemValues};
ghost use Rattle.pst_name_rules.specs.Leasts.{IsLeastOf};
ghost use Rattle.pst_declaration_rules.specs.Breaches.{IsDeclarationBreach};
ghost use Rattle.pst_declaration_rules.specs.Tallied.{AreKnown, units_of};

use crate::fields::members_of;
use crate::findings::least_of_all;
use crate::grouped::{By, grouped};
use crate::member::Member;
use crate::sources::TypeSources;
use crate::tallies::tallies_of;
use pst_ast::Finding;
use pst_base::{Names, NoMemory};
use pst_evaluate::ItemValues;
use pst_index::Index;
use pst_places::PlaceList;
use pst_sites::Sites;
use std::alloc::Global;

// The places of the names of declarations.
fn places_of(alloc: Global, members: &[Member]) -> Result<PlaceList, NoMemory> {
    let mut places = Vec::new(alloc);
    for member in members {
        places.push(member.declaration.name.place)?;
    }
    PlaceList::new(alloc, places)
}

// The least breach by a declaration, given what is known of the sources.
fn least_known(known: &TypeSources) -> Result<Option<Finding>, NoMemory>
    requires { AreKnown known.now }
    ensures { IfOk result (IsLeastOf (IsDeclarationBreach (units_of known.now) known.now.names.now)) }
{
    pst_base::places_are_ordered();
    pst_evaluate::constants_are_found();
    let tallies = tallies_of(known)?;
    least_of_all(known, tallies.as_slice())
}

/// The least breach of the rules of types by a declaration: too many items, parameters, locals,
/// references, claims or fields; a reference of a resource, or a claim of something else; two
/// activities or bodies, or one of each; or an activity beside references or claims.
///
/// Members are counted with those of bases, each base once. No rule of names may be broken: bases
/// that lead back to one another have no members.
pub fn declarations_finding(
    alloc: Global,
    sites: &Sites,
    index: &Index,
    names: &Names,
    values: &ItemValues,
) -> Result<Option<Finding>, NoMemory>
    requires declared { index.now ≡ declarations (map view_unit sites.now) }
    requires values { AreItemValues (map view_unit sites.now) names.now (known_in values.now) }
    requires named { (f : AFinding) → NameBreach (map view_unit sites.now) names.now f.place f.rule → ⊥ }
    ensures { IfOk result (IsLeastOf (IsDeclarationBreach (map view_unit sites.now) names.now)) }
{
    let members = members_of(alloc, sites, index, names, values)?;
    let places = places_of(alloc, members.as_slice())?;
    let scopes = grouped(alloc, By::OwnScope, members.as_slice())?;
    let texts = grouped(alloc, By::OwnText, members.as_slice())?;
    let known = TypeSources {
        alloc,
        sites,
        index,
        names,
        values,
        members: members.as_slice(),
        places: &places,
        scopes: &scopes,
        texts: &texts,
    };
    least_known(&known)
}
