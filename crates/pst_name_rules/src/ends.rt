//! What traversals, the ends of binds and assignments break.
ghost use Rattle.std.specs.Prelude.{◌≡◌};
ghost use Rattle.std.specs.Option.{option_or};
ghost use Rattle.pst_ast.specs.NameRules;
ghost use Rattle.pst_ast.specs.Sorts.{is_reference};
ghost use Rattle.pst_ast.specs.Lookups;

use crate::types::unless;
use pst_ast::{Declaration, Environment, Finding, Name, Referent, Sort};
use pst_base::{NameId, Names};
use pst_index::{Index, handled, is_ambiguous, stands_for};

// Whether a name stands for a handle.
fn is_handle_name(index: &Index, names: &Names, at: &Environment, name: Name) -> bool
    ensures { result ≡ NameRules.is_handle_name index.now names.now at.now name }
{
    match stands_for(index, names, at, name.id) {
        Some(Referent::Declared(found)) => matches!(found.sort, Sort::Handle { .. }),
        _ => false,
    }
}

/// Rule 3 at the handle of a traversal.
pub fn handle_finding(index: &Index, names: &Names, at: &Environment, name: Name) -> Option<Finding>
    ensures { result ≡ NameRules.unless (NameRules.is_handle_name index.now names.now at.now name) name.place 3 }
{
    unless(is_handle_name(index, names, at, name), name.place, 3)
}

/// What an end of a bind names among the members of its handle's action.
pub fn end_named(
    index: &Index,
    names: &Names,
    at: &Environment,
    handle: Name,
    reference: NameId,
) -> Option<Declaration>
    ensures { result ≡ NameRules.end_named index.now names.now at.now handle reference }
{
    let action = handled(index, stands_for(index, names, at, handle.id))?;
    index.member_of(&action, reference)
}

/// Rule 3 at the handle, or rule 6 at the reference of an end of a bind.
pub fn end_finding(
    index: &Index,
    names: &Names,
    at: &Environment,
    handle: Name,
    reference: Name,
) -> Option<Finding>
    ensures { result ≡ option_or (NameRules.unless (NameRules.is_handle_name index.now names.now at.now handle) handle.place 3) (NameRules.unless (NameRules.is_so is_reference (NameRules.end_named index.now names.now at.now handle reference.id)) reference.place 6) }
{
    let wrong = handle_finding(index, names, at, handle);
    if wrong.is_some() {
        return wrong;
    }
    let good = match end_named(index, names, at, handle, reference.id) {
        Some(found) => matches!(found.sort, Sort::Reference { .. }),
        None => false,
    };
    unless(good, reference.place, 6)
}

/// Rule 3 or 4 at what a value is assigned to.
pub fn assigned_finding(
    index: &Index,
    names: &Names,
    at: &Environment,
    name: Name,
) -> Option<Finding>
    ensures { result ≡ NameRules.assigned_finding index.now name (Lookups.stands_for index.now names.now at.now name.id) }
{
    match stands_for(index, names, at, name.id) {
        None => Some(Finding {
            place: name.place,
            rule: 3,
        }),
        Some(referent) => unless(!is_ambiguous(index, &referent), name.place, 4),
    }
}
