//! The number of fields that declarations add to their types.
ghost use Rattle.std.specs.Prelude.{◌≡◌, IfOk, map};
ghost use Rattle.std.specs.Option.{option_map};
ghost use Rattle.pst_ast.specs.DeclarationView.{view_unit};
ghost use Rattle.pst_ast.specs.Declarations.{declarations};
ghost use Rattle.pst_evaluate.specs.Kept.{known_in};
ghost use Rattle.pst_site_lists.specs.Sited.{view_field_site};
ghost use Rattle.pst_declaration_rules.specs.Fields;

use crate::member::Member;
use pst_ast::{Declaration, Sort};
use pst_base::{Names, NoMemory};
use pst_evaluate::{ItemValues, constant_value};
use pst_index::Index;
use pst_sites::{FieldSite, Sites};
use std::alloc::Global;

// How many elements an array of a size has; none where its size isn't right.
fn elements(size: Option<i64>) -> u32
    ensures { result ≡ Fields.elements size }
{
    match size {
        None => 0,
        Some(size) => match u32::try_from(size) {
            Ok(size) if 1 <= size && size <= 64 => size,
            _ => 0,
        },
    }
}

// How many fields a field is: an array as many as it has elements.
fn fields_of(
    alloc: Global,
    index: &Index,
    names: &Names,
    values: &ItemValues,
    field: &FieldSite,
) -> Result<u32, NoMemory>
    ensures { IfOk result (λ n. n ≡ Fields.fields_of index.now names.now (known_in values.now) (view_field_site field.now)) }
{
    match field.size {
        None => Ok(1),
        Some(size) => {
            let value = constant_value(alloc, index, names, values, &field.at, size)?;
            Ok(elements(value))
        }
    }
}

// How many fields a declaration adds to its type.
fn added_by(
    alloc: Global,
    sites: &Sites,
    index: &Index,
    names: &Names,
    values: &ItemValues,
    declaration: &Declaration,
) -> Result<Option<u32>, NoMemory>
    ensures { IfOk result (λ adds. adds ≡ Fields.added_by (map view_unit sites.now) index.now names.now (known_in values.now) declaration.now) }
{
    match declaration.sort {
        Sort::Field { .. } => match sites.field_at(declaration.name.place) {
            None => Ok(None),
            Some(field) => Ok(Some(fields_of(alloc, index, names, values, field)?)),
        },
        _ => Ok(Some(0)),
    }
}

/// What is declared, with the number of fields that each adds to its type.
pub fn members_of(
    alloc: Global,
    sites: &Sites,
    index: &Index,
    names: &Names,
    values: &ItemValues,
) -> Result<Vec<Member>, NoMemory>
    ensures { IfOk result (λ members. members.items ≡ map (Fields.with_fields (map view_unit sites.now) index.now names.now (known_in values.now)) index.now) }
{
    let mut members = Vec::new(alloc);
    for declaration in index.as_slice() {
        let adds = added_by(alloc, sites, index, names, values, declaration)?;
        members.push(Member {
            declaration: *declaration,
            adds,
        })?;
    }
    Ok(members)
}
