//! What the parts of actions and objects declare.
ghost use Rattle.std.specs.Prelude.{◌≡◌, ◌++◌, ◌∷◌, [], OnOk, map};
ghost use Rattle.pst_ast.specs.ExpressionView.{view_part};
ghost use Rattle.pst_ast.specs.SharedView.{view_names};
ghost use Rattle.pst_ast.specs.DeclarationView.{view_claim, view_field, view_next_field, view_reference};
ghost use Rattle.pst_ast.specs.Declarations;

use crate::single::push_member;
use pst_ast::{
    ClaimNode, Declaration, FieldNode, NamesNode, NextField, NextName, PartNode, ReferenceNode,
    ReferenceWord, Sort,
};
use pst_base::{NoMemory, Place};

// NAME [ index ]
fn add_field_part(
    found: &mut Vec<Declaration>,
    owner: Place,
    part: &PartNode,
) -> Result<(), NoMemory>
    ensures { OnOk result (found.new.items ≡ found.old.items ++ Declarations.field_part owner (view_part part.now) ∷ []) }
{
    match &part.index {
        None => push_member(found, owner, Sort::Field { array: false }, part.name),
        Some(_) => push_member(found, owner, Sort::Field { array: true }, part.name),
    }
}

// What each declares, in order.
fn add_next_field_parts(
    found: &mut Vec<Declaration>,
    owner: Place,
    fields: &[NextField],
) -> Result<(), NoMemory>
    ensures { OnOk result (found.new.items ≡ found.old.items ++ map (Declarations.field_part owner) (map Declarations.next_field_part (map view_next_field fields.now))) }
{
    for next in fields {
        add_field_part(found, owner, &next.part)?;
    }
    Ok(())
}

// field = "rand" type NAME [ index ] { "," NAME [ index ] } ";"
pub fn add_field(
    found: &mut Vec<Declaration>,
    owner: Place,
    field: &FieldNode,
) -> Result<(), NoMemory>
    ensures { OnOk result (found.new.items ≡ found.old.items ++ Declarations.in_field owner (view_field field.now)) }
{
    add_field_part(found, owner, &field.first)?;
    add_next_field_parts(found, owner, field.rest.as_slice())
}

// The names behind the first, as members of a sort.
fn add_next_names(
    found: &mut Vec<Declaration>,
    owner: Place,
    sort: Sort,
    names: &[NextName],
) -> Result<(), NoMemory>
    ensures { OnOk result (found.new.items ≡ found.old.items ++ map (Declarations.member owner sort) (map (λ n. n.name) names.now)) }
{
    for next in names {
        push_member(found, owner, sort, next.name)?;
    }
    Ok(())
}

// NAME { "," NAME }, as members of a sort.
pub fn add_names(
    found: &mut Vec<Declaration>,
    owner: Place,
    sort: Sort,
    names: &NamesNode,
) -> Result<(), NoMemory>
    ensures { OnOk result (found.new.items ≡ found.old.items ++ map (Declarations.member owner sort) (Declarations.names_of (view_names names.now))) }
{
    push_member(found, owner, sort, names.first)?;
    add_next_names(found, owner, sort, names.rest.as_slice())
}

// Whether the action produces the object.
fn is_output(word: ReferenceWord) -> bool
    ensures { result ≡ Declarations.is_output word }
{
    match word {
        ReferenceWord::Input => false,
        ReferenceWord::Output => true,
    }
}

// ref = ("input"|"output") tname NAME { "," NAME } ";"
pub fn add_reference(
    found: &mut Vec<Declaration>,
    owner: Place,
    reference: &ReferenceNode,
) -> Result<(), NoMemory>
    ensures { OnOk result (found.new.items ≡ found.old.items ++ Declarations.in_reference owner (view_reference reference.now)) }
{
    let sort = Sort::Reference {
        of: reference.object,
        output: is_output(reference.word),
    };
    add_names(found, owner, sort, &reference.names)
}

// claim = ("lock"|"share") tname NAME { "," NAME } ";"
pub fn add_claim(
    found: &mut Vec<Declaration>,
    owner: Place,
    claim: &ClaimNode,
) -> Result<(), NoMemory>
    ensures { OnOk result (found.new.items ≡ found.old.items ++ Declarations.in_claim owner (view_claim claim.now)) }
{
    let sort = Sort::Claim { of: claim.object };
    add_names(found, owner, sort, &claim.names)
}
