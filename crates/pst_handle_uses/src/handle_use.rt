//! A pair of ends, and a handle that is named.
ghost use Rattle.std.specs.Prelude.{◌≡◌};
ghost use Rattle.pst_ast.specs.declared.activity.EndNode.{EndNode as AnEnd};
ghost use Rattle.pst_ast.specs.Lookups;
ghost use Rattle.pst_handle_uses.specs.Handled;

use pst_ast::{
    Declaration, EndNode, Environment, Inner, Name, ObjectWord, Owner, Referent, Sort, Traversal,
};
use pst_base::Names;
use pst_index::{Index, handled, stands_for, value_named};
use pst_name_rules::end_named;
use std::alloc::Global;

/// A pair of ends that a bind of an activity joins.
#[derive(Clone, Copy, PartialEq, Eq)]
pub struct Tied {
    /// In whose text it stands.
    pub owner: Owner,
    /// The first end of the bind.
    pub first: EndNode,
    /// Another one.
    pub other: EndNode,
    /// Whether the first is a reference to a stream.
    pub stream: bool,
}

/// A handle that is named in a constraint, an inline constraint, a body or a bind.
#[derive(Clone, Copy, PartialEq, Eq)]
pub struct Judging {
    /// Its name, where it is named.
    pub name: Name,
    /// The action whose activity must traverse it.
    pub action: Declaration,
    /// Whether the activities of the actions that are derived from that must too.
    pub derived: bool,
}

// Whether an end of a bind is a reference to a stream.
fn is_stream_end(index: &Index, names: &Names, at: &Environment, end: EndNode) -> bool
    ensures { result ≡ Handled.is_stream_end index.now names.now at.now end }
{
    let Some(reference) = end_named(index, names, at, end.handle, end.name.id) else {
        return false;
    };
    match index.type_of(&reference) {
        None => false,
        Some(object) => matches!(
            object.sort,
            Sort::Object {
                word: ObjectWord::Stream
            }
        ),
    }
}

/// A pair of ends of a bind.
pub fn tie_of(
    index: &Index,
    names: &Names,
    at: &Environment,
    first: EndNode,
    other: EndNode,
) -> Tied
    ensures { result ≡ Handled.tied index.now names.now (Handled.pair at.now first other) }
{
    Tied {
        owner: at.owner,
        first,
        other,
        stream: is_stream_end(index, names, at, first),
    }
}

// The action that a handle's traversal is of.
#[tactic(auto, unfolding(pst_ast::specs::Lookups::value_named))]
fn handled_behind(
    alloc: Global,
    index: &Index,
    names: &Names,
    at: &Environment,
    hidden_by: Option<Name>,
    name: Name,
) -> Option<Declaration>
    ensures { result ≡ Lookups.handled index.now (Lookups.value_behind index.now names.now at.now hidden_by name.id) }
{
    if let Some(hidden_by) = hidden_by {
        if let Some(found) = index.declared_at(hidden_by.place) {
            return handled(index, Some(Referent::Declared(found)));
        }
    }
    let outside = Environment {
        component: at.component,
        owner: at.owner,
        inner: Inner::new(alloc),
        traversal: None,
    };
    handled(index, value_named(index, names, &outside, name.id))
}

// The action that a traversal is of.
#[tactic(auto, unfolding(pst_ast::specs::Lookups::traversed))]
fn traversed(
    alloc: Global,
    index: &Index,
    names: &Names,
    at: &Environment,
    traversal: &Traversal,
) -> Option<Declaration>
    ensures { result ≡ Lookups.traversed index.now names.now at.now traversal.now }
{
    match traversal {
        Traversal::ByType(name) => match index.type_named(at.component, name) {
            Some(found) => match found.sort {
                Sort::Action { .. } => Some(found),
                _ => None,
            },
            None => None,
        },
        Traversal::ByHandle { hidden_by, name } => {
            handled_behind(alloc, index, names, at, *hidden_by, *name)
        }
    }
}

// The action that is traversed, where it has a member of that name.
fn traversed_with(
    alloc: Global,
    index: &Index,
    names: &Names,
    at: &Environment,
    name: Name,
) -> Option<Declaration>
    ensures { result ≡ Handled.traversed_with index.now names.now at.now name.id }
{
    match &at.traversal {
        None => None,
        Some(traversal) => {
            let action = traversed(alloc, index, names, at, traversal)?;
            if index.member_of(&action, name.id).is_some() {
                Some(action)
            } else {
                None
            }
        }
    }
}

// The action by which a name is judged.
fn judge_of(
    alloc: Global,
    index: &Index,
    names: &Names,
    at: &Environment,
    name: Name,
) -> Option<Declaration>
    ensures { result ≡ Handled.judge_of index.now names.now at.now name.id }
{
    if let Some(action) = traversed_with(alloc, index, names, at, name) {
        return Some(action);
    }
    match at.owner {
        Owner::OfAction(action) => Some(action),
        _ => None,
    }
}

/// What is asked of a name that may be of a handle.
pub fn judging_of(
    alloc: Global,
    index: &Index,
    names: &Names,
    at: &Environment,
    name: Name,
    derived: bool,
) -> Option<Judging>
    ensures { result ≡ Handled.judging index.now names.now (Handled.naming at.now derived name) }
{
    let Some(Referent::Declared(found)) = stands_for(index, names, at, name.id) else {
        return None;
    };
    match found.sort {
        Sort::Handle { .. } => {
            let action = judge_of(alloc, index, names, at, name)?;
            Some(Judging {
                name,
                action,
                derived,
            })
        }
        _ => None,
    }
}
