//! Fields.
ghost use Rattle.std.specs.Prelude.{◌≡◌, ◌++◌, ◌∷◌, [], Some, IfOk, OnOk, map};
ghost use Rattle.std.specs.List.{flat_map};
ghost use Rattle.pst_elab_rules.specs.Spans.{domain_at};
ghost use Rattle.pst_elab_rules.specs.Types as tree;
ghost use Rattle.pst_tree.specs.Bases;
ghost use Rattle.pst_terms.specs.Fields.{counted, size_of};
ghost use Rattle.pst_terms.specs.Sources.{declared_in};
ghost use Rattle.pst_type_rules.specs.Sites.{fields};
ghost use Rattle.pst_sources.specs.Shown.{sources_of};

use pst_ast::{Declaration, Name};
use pst_base::NoMemory;
use pst_expr::Domain;
use pst_field_domains::FieldDomains;
use pst_model::Field;
use pst_sources::Known;
use pst_type_members::MemberSort;
use std::alloc::Global;

// A copy of a domain.
fn copied(alloc: Global, domain: &Domain) -> Result<Domain, NoMemory>
    ensures { IfOk result (λ d. d ≡ domain.now) }
{
    let spans = Vec::from_slice(alloc, domain.spans())?;
    Ok(Domain::new(spans))
}

// Adds a field.
fn add_one(
    alloc: Global,
    found: &mut Vec<Field>,
    name: Name,
    domain: &Domain,
    element: Option<u32>,
) -> Result<(), NoMemory>
    ensures { OnOk result (found.new.items ≡ found.old.items ++ tree.field name domain.now element ∷ []) }
{
    let domain = copied(alloc, domain)?;
    found.push(Field {
        name: name.id,
        domain,
        element,
    })?;
    Ok(())
}

// Adds the elements of an array.
#[tactic(auto, using(crate::proofs::Counting::counted_none))]
fn add_elements(
    alloc: Global,
    found: &mut Vec<Field>,
    name: Name,
    domain: &Domain,
    size: u32,
) -> Result<(), NoMemory>
    ensures { OnOk result (found.new.items ≡ found.old.items ++ map (λ i. tree.field name domain.now (Some i)) (counted 0 size)) }
{
    for element in 0..size {
        add_one(alloc, found, name, domain, Some(element))?;
    }
    Ok(())
}

// Adds a field, or the elements of an array.
fn add_sized(
    alloc: Global,
    found: &mut Vec<Field>,
    field: &Declaration,
    domain: &Domain,
    size: Option<u64>,
) -> Result<(), NoMemory>
    ensures { OnOk result (found.new.items ≡ found.old.items ++ tree.elements_of field.now.name domain.now size) }
{
    let Some(size) = size else {
        return add_one(alloc, found, field.name, domain, None);
    };
    match u32::try_from(size) {
        Ok(size) => add_elements(alloc, found, field.name, domain, size),
        Err(_) => Err(NoMemory),
    }
}

// Adds what a declared field becomes.
fn add_field(
    known: &Known<'_>,
    domains: &FieldDomains,
    found: &mut Vec<Field>,
    field: &Declaration,
) -> Result<(), NoMemory>
    requires { domains.now.places ≡ map (λ f. f.name.place) (fields (sources_of known.now).units) }
    ensures { OnOk result (found.new.items ≡ found.old.items ++ tree.elements_of field.now.name (domain_at (fields (sources_of known.now).units) domains.now.domains field.now.name.place) (size_of (sources_of known.now) field.now)) }
{
    match domains.domain_at(field.name.place) {
        None => Err(NoMemory),
        Some(domain) => add_sized(known.alloc(), found, field, domain, known.size_of(field)),
    }
}

// Adds what declared fields become.
fn add_fields(
    known: &Known<'_>,
    domains: &FieldDomains,
    found: &mut Vec<Field>,
    declared: &[Declaration],
) -> Result<(), NoMemory>
    requires { domains.now.places ≡ map (λ f. f.name.place) (fields (sources_of known.now).units) }
    ensures { OnOk result (found.new.items ≡ found.old.items ++ flat_map (λ d. tree.elements_of d.name (domain_at (fields (sources_of known.now).units) domains.now.domains d.name.place) (size_of (sources_of known.now) d)) declared.now) }
{
    for field in declared {
        add_field(known, domains, found, field)?;
    }
    Ok(())
}

/// The fields of an action or object type, its base's first, given the domains of all fields.
pub fn model_fields(
    known: &Known<'_>,
    domains: &FieldDomains,
    type_: &Declaration,
) -> Result<Vec<Field>, NoMemory>
    requires { domains.now.places ≡ map (λ f. f.name.place) (fields (sources_of known.now).units) }
    ensures { IfOk result (λ found. found.items ≡ tree.model_fields (sources_of known.now) domains.now.domains type_.now) }
{
    let declared = known
        .members()
        .those(known.alloc(), MemberSort::Field, type_)?;
    let mut found = Vec::new(known.alloc());
    add_fields(known, domains, &mut found, declared.as_slice())?;
    Ok(found)
}
