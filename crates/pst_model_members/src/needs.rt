//! References and claims.
ghost use Rattle.std.specs.Prelude.{◌≡◌, ◌++◌, IfOk, OnOk, map};
ghost use Rattle.pst_elab_rules.specs.Types as tree;
ghost use Rattle.pst_tree.specs.Bases;
ghost use Rattle.pst_sources.specs.Shown.{sources_of};
ghost use Rattle.pst_terms.specs.Sources.{declared_in};
ghost use Rattle.pst_model_members.specs.Listed.{locked_names};

use crate::locks::is_locked;
use pst_ast::{Declaration, Sort};
use pst_base::NoMemory;
use pst_model::{Claim, Reference};
use pst_places::PlaceList;
use pst_type_members::MemberSort;
use pst_type_numbers::Numbered;

/// The number of the object type of a reference, claim or pool.
pub fn object_of(numbered: &Numbered<'_>, declaration: &Declaration) -> Result<u32, NoMemory>
    ensures { IfOk result (λ n. n ≡ tree.object_of (declared_in (sources_of numbered.now)) declaration.now) }
{
    match numbered.sources().known().index().type_of(declaration) {
        None => Ok(0),
        Some(object) => numbered.object_number(&object),
    }
}

// Whether a reference puts out.
fn is_output(sort: Sort) -> bool
    ensures { result ≡ tree.is_output sort }
{
    match sort {
        Sort::Reference { output, .. } => output,
        _ => false,
    }
}

// A reference.
fn reference(numbered: &Numbered<'_>, declaration: &Declaration) -> Result<Reference, NoMemory>
    ensures { IfOk result (λ r. r ≡ tree.reference (declared_in (sources_of numbered.now)) declaration.now) }
{
    let object = object_of(numbered, declaration)?;
    Ok(Reference {
        name: declaration.name.id,
        object,
        output: is_output(declaration.sort),
    })
}

// Adds references.
fn add_references(
    numbered: &Numbered<'_>,
    found: &mut Vec<Reference>,
    declarations: &[Declaration],
) -> Result<(), NoMemory>
    ensures { OnOk result (found.new.items ≡ found.old.items ++ map (tree.reference (declared_in (sources_of numbered.now))) declarations.now) }
{
    for declaration in declarations {
        found.push(reference(numbered, declaration)?)?;
    }
    Ok(())
}

/// The references of an action, its base's first.
pub fn references_of(
    numbered: &Numbered<'_>,
    action: &Declaration,
) -> Result<Vec<Reference>, NoMemory>
    ensures { IfOk result (λ rs. rs.items ≡ map (tree.reference (declared_in (sources_of numbered.now))) (Bases.references_of (declared_in (sources_of numbered.now)) action.now)) }
{
    let known = numbered.sources().known();
    let those = known
        .members()
        .those(known.alloc(), MemberSort::Reference, action)?;
    let mut found = Vec::new(known.alloc());
    add_references(numbered, &mut found, those.as_slice())?;
    Ok(found)
}

// A claim.
fn claim(
    numbered: &Numbered<'_>,
    locked: &PlaceList,
    declaration: &Declaration,
) -> Result<Claim, NoMemory>
    requires { locked.now ≡ locked_names (sources_of numbered.now) }
    ensures { IfOk result (λ c. c ≡ tree.claim (sources_of numbered.now).units (declared_in (sources_of numbered.now)) declaration.now) }
{
    let object = object_of(numbered, declaration)?;
    let lock = is_locked(locked, declaration.name.place);
    Ok(Claim {
        name: declaration.name.id,
        object,
        lock,
    })
}

// Adds claims.
fn add_claims(
    numbered: &Numbered<'_>,
    locked: &PlaceList,
    found: &mut Vec<Claim>,
    declarations: &[Declaration],
) -> Result<(), NoMemory>
    requires { locked.now ≡ locked_names (sources_of numbered.now) }
    ensures { OnOk result (found.new.items ≡ found.old.items ++ map (tree.claim (sources_of numbered.now).units (declared_in (sources_of numbered.now))) declarations.now) }
{
    for declaration in declarations {
        found.push(claim(numbered, locked, declaration)?)?;
    }
    Ok(())
}

/// The claims of an action, its base's first, given the places of the names that are locked.
pub fn claims_of(
    numbered: &Numbered<'_>,
    locked: &PlaceList,
    action: &Declaration,
) -> Result<Vec<Claim>, NoMemory>
    requires { locked.now ≡ locked_names (sources_of numbered.now) }
    ensures { IfOk result (λ cs. cs.items ≡ map (tree.claim (sources_of numbered.now).units (declared_in (sources_of numbered.now))) (Bases.claims_of (declared_in (sources_of numbered.now)) action.now)) }
{
    let known = numbered.sources().known();
    let those = known
        .members()
        .those(known.alloc(), MemberSort::Claim, action)?;
    let mut found = Vec::new(known.alloc());
    add_claims(numbered, locked, &mut found, those.as_slice())?;
    Ok(found)
}
