//! What a name in an expression stands for.
ghost use Rattle.std.specs.Prelude.{◌≡◌};
ghost use Rattle.pst_ast.specs.Lookups;
ghost use Rattle.pst_ast.specs.Sorts;

use crate::Index;
use crate::words::word_in;
use pst_ast::{Declaration, Environment, Name, Owner, Referent, Sort, Traversal};
use pst_base::{NameId, Names};

// A member of the action, or a field or word of the object, in whose text a name is used.
fn owned(index: &Index, names: &Names, owner: &Owner, name: NameId) -> Option<Referent>
    ensures { result ≡ Lookups.owned index.now names.now owner.now name }
{
    match owner {
        Owner::Nobody => None,
        Owner::OfAction(action) => index.member_of(action, name).map(Referent::Declared),
        Owner::OfObject(object) => match index.field_of(object, name) {
            Some(field) => Some(Referent::Declared(field)),
            None => word_in(names, object, name),
        },
    }
}

// A name behind the indices and locals, of which one may have that name.
fn value_behind(
    index: &Index,
    names: &Names,
    at: &Environment,
    inner: Option<Name>,
    name: NameId,
) -> Option<Referent>
    ensures { result ≡ Lookups.value_behind index.now names.now at.now inner name }
{
    if let Some(inner) = inner {
        if let Some(found) = index.declared_at(inner.place) {
            return Some(Referent::Declared(found));
        }
    }
    if let Some(found) = owned(index, names, &at.owner, name) {
        return Some(found);
    }
    match index.item_here(at.component, name) {
        Some(item) => Some(Referent::Declared(item)),
        None => None,
    }
}

/// What a name stands for in an expression that is no inline constraint.
#[tactic(auto, unfolding(pst_ast::specs::Lookups::value_named))]
pub fn value_named(index: &Index, names: &Names, at: &Environment, name: NameId) -> Option<Referent>
    ensures { result ≡ Lookups.value_named index.now names.now at.now name }
{
    value_behind(index, names, at, at.inner.find(name), name)
}

/// The action that a handle traverses.
pub fn handled(index: &Index, handle: Option<Referent>) -> Option<Declaration>
    ensures { result ≡ Lookups.handled index.now handle }
{
    match handle {
        Some(Referent::Declared(declaration)) => match declaration.sort {
            Sort::Handle { .. } => index.type_of(&declaration),
            _ => None,
        },
        _ => None,
    }
}

// It, where it is an action.
fn if_action(found: Declaration) -> Option<Declaration>
    ensures { result ≡ Lookups.if_sort Sorts.is_action found }
{
    match found.sort {
        Sort::Action { .. } => Some(found),
        _ => None,
    }
}

/// The type of the action that a traversal is of.
#[tactic(auto, unfolding(pst_ast::specs::Lookups::traversed))]
pub fn traversed(
    index: &Index,
    names: &Names,
    at: &Environment,
    traversal: &Traversal,
) -> Option<Declaration>
    ensures { result ≡ Lookups.traversed index.now names.now at.now traversal.now }
{
    match traversal {
        Traversal::ByType(name) => {
            let found = index.type_named(at.component, name)?;
            if_action(found)
        }
        Traversal::ByHandle { hidden_by, name } => {
            handled(index, value_behind(index, names, at, *hidden_by, name.id))
        }
    }
}

/// The member of the traversed action, in an inline constraint.
pub fn traversed_member(
    index: &Index,
    names: &Names,
    at: &Environment,
    name: NameId,
) -> Option<Declaration>
    ensures { result ≡ Lookups.traversed_member index.now names.now at.now name }
{
    match &at.traversal {
        None => None,
        Some(traversal) => {
            let action = traversed(index, names, at, traversal)?;
            index.member_of(&action, name)
        }
    }
}

/// What a name in an expression stands for: in an inline constraint the members of the traversed
/// action come before all others.
#[tactic(auto, unfolding(pst_ast::specs::Lookups::stands_for))]
pub fn stands_for(index: &Index, names: &Names, at: &Environment, name: NameId) -> Option<Referent>
    ensures { result ≡ Lookups.stands_for index.now names.now at.now name }
{
    if let Some(member) = traversed_member(index, names, at, name) {
        return Some(Referent::Declared(member));
    }
    value_named(index, names, at, name)
}
