//! Which actions traverse a handle exactly once.
ghost use Rattle.std.specs.Prelude.{◌≡◌, ◌↔◌, ◌+◌, ◌<◌, IfOk, IsTrue, Some, length, map, slice_get};
ghost use Rattle.std.specs.HashMap.{get};
ghost use Rattle.pst_ast.specs.DeclarationView.{view_unit};
ghost use Rattle.pst_ast.specs.Declarations.{declarations as the_declarations};
ghost use Rattle.pst_ast.specs.Lookups.{base_of};
ghost use Rattle.pst_type_rules.specs.Handles.{IsSteadyIn};
ghost use Rattle.pst_traversals.specs.Tallied.{same_key};
ghost use Rattle.pst_steady.specs.Lined.{AreLined, AreMarks, HasUnsteady, IsMark, IsUnsteadyAmong, is_once};
ghost use Rattle.pst_steady.specs.Reached.{value_at as the_value};

use crate::number::number_of;
use crate::reach::{Seed, reached, value_at};
use pst_ast::Declaration;
use pst_base::{NameId, NoMemory};
use pst_index::Index;
use pst_members::is_same_action;
use pst_places::PlaceList;
use pst_sites::Sites;
use pst_traversals::{TallyKey, has_body, is_steady, own_activity};
use std::alloc::Global;
use std::collections::HashMap;

/// What is known of the activities of all actions.
#[derive(Clone, Copy)]
pub struct Lineage<'a> {
    /// For memory.
    pub alloc: Global,
    /// What they declare.
    pub index: &'a Index,
    /// The places of the names that they declare.
    pub places: &'a PlaceList,
    /// The number of the base of each declaration.
    pub bases: &'a [Option<usize>],
    /// The number of the action whose activity each has.
    pub values: &'a [Option<usize>],
    /// Whether these traverse each handle exactly once.
    pub tallies: &'a HashMap<TallyKey, bool>,
    /// The numbers of the declarations, bases before what is derived from them.
    pub order: &'a [usize],
}

/// Whether the activity of an action, by its number, traverses a handle exactly once.
pub fn is_once_by(tallies: &HashMap<TallyKey, bool>, action: usize, handle: NameId) -> bool
    ensures { result ≡ is_once (get same_key tallies.now (record { action = action; handle = handle.0 })) }
{
    let key = TallyKey {
        action,
        handle: handle.0,
    };
    match tallies.get(&key) {
        Some(once) => *once,
        None => false,
    }
}

// Whether the action of a number has a steady activity for a handle.
fn is_steady_number(sites: &Sites, lineage: &Lineage, number: usize, handle: NameId) -> bool
    requires lined { AreLined (map view_unit sites.now) lineage.now.bases.now lineage.now.values.now lineage.now.tallies.now }
    ensures { (d : Declaration) → slice_get (the_declarations (map view_unit sites.now)) number ≡ Some d → IsTrue result ↔ IsSteadyIn (map view_unit sites.now) d handle }
{
    match value_at(lineage.values, number) {
        None => false,
        Some(action) => is_once_by(lineage.tallies, action, handle),
    }
}

// Whether the base of an action has a steady activity for a handle.
fn is_steady_base(
    sites: &Sites,
    lineage: &Lineage,
    _action: &Declaration,
    base: &Declaration,
    handle: NameId,
) -> bool
    requires declared { lineage.now.index.now ≡ the_declarations (map view_unit sites.now) }
    requires lined { AreLined (map view_unit sites.now) lineage.now.bases.now lineage.now.values.now lineage.now.tallies.now }
    requires base { base_of (the_declarations (map view_unit sites.now)) _action.now ≡ Some base.now }
    ensures { IsTrue result ↔ IsSteadyIn (map view_unit sites.now) base.now handle }
{
    match number_of(lineage.places, lineage.index.as_slice(), base) {
        None => false,
        Some(number) => is_steady_number(sites, lineage, number, handle),
    }
}

// The same of any declaration, looked up in the sources.
fn is_steady_apart(
    sites: &Sites,
    lineage: &Lineage,
    action: &Declaration,
    handle: NameId,
) -> Result<bool, NoMemory>
    requires declared { lineage.now.index.now ≡ the_declarations (map view_unit sites.now) }
    requires lined { AreLined (map view_unit sites.now) lineage.now.bases.now lineage.now.values.now lineage.now.tallies.now }
    ensures { IfOk result (λ yes. IsTrue yes ↔ IsSteadyIn (map view_unit sites.now) action.now handle) }
{
    let Some(node) = sites.action_at(action.name.place) else {
        return Ok(false);
    };
    match own_activity(node) {
        Some(statements) => is_steady(lineage.alloc, statements, handle),
        None => {
            if has_body(node) {
                return Ok(false);
            }
            match lineage.index.base_of(action) {
                None => Ok(false),
                Some(base) => Ok(is_steady_base(sites, lineage, action, &base, handle)),
            }
        }
    }
}

/// Whether the activity that an action has, its own or that of its base, traverses a handle exactly
/// once, and not within a `select`, `repeat`, `if` or `match`.
pub fn is_steady_in(
    sites: &Sites,
    lineage: &Lineage,
    action: &Declaration,
    handle: NameId,
) -> Result<bool, NoMemory>
    requires declared { lineage.now.index.now ≡ the_declarations (map view_unit sites.now) }
    requires lined { AreLined (map view_unit sites.now) lineage.now.bases.now lineage.now.values.now lineage.now.tallies.now }
    ensures { IfOk result (λ yes. IsTrue yes ↔ IsSteadyIn (map view_unit sites.now) action.now handle) }
{
    match number_of(lineage.places, lineage.index.as_slice(), action) {
        Some(number) => Ok(is_steady_number(sites, lineage, number, handle)),
        None => is_steady_apart(sites, lineage, action, handle),
    }
}

// Whether a declaration is an action, or takes from its base whether it derives from it.
fn mark(declaration: &Declaration, action: &Declaration) -> Seed
    ensures { IsMark action.now declaration.now result }
{
    if is_same_action(declaration, action) {
        Seed::Own(0)
    } else {
        Seed::Inherit
    }
}

// The same of each declaration.
fn marks_of(
    alloc: Global,
    declarations: &[Declaration],
    action: &Declaration,
) -> Result<Vec<Seed>, NoMemory>
    ensures { IfOk result (λ marks. AreMarks declarations.now action.now (length declarations.now) marks.items) }
{
    let mut marks = Vec::new(alloc);
    for at in 0..declarations.len() {
        marks.push(mark(&declarations[at], action))?;
    }
    Ok(marks)
}

// Whether one of those that are marked has no steady activity for a handle.
fn any_unsteady(sites: &Sites, lineage: &Lineage, marked: &[Option<usize>], handle: NameId) -> bool
    requires declared { lineage.now.index.now ≡ the_declarations (map view_unit sites.now) }
    requires lined { AreLined (map view_unit sites.now) lineage.now.bases.now lineage.now.values.now lineage.now.tallies.now }
    ensures { IsTrue result ↔ IsUnsteadyAmong (map view_unit sites.now) marked.now (length (the_declarations (map view_unit sites.now))) handle }
{
    for at in 0..lineage.index.as_slice().len() {
        if value_at(marked, at).is_some() && !is_steady_number(sites, lineage, at, handle) {
            return true;
        }
    }
    false
}

/// Whether an action that is or derives from another has no activity that traverses a handle exactly
/// once, and not within a `select`, `repeat`, `if` or `match`. It looks at each declaration.
pub fn has_unsteady(
    sites: &Sites,
    lineage: &Lineage,
    action: &Declaration,
    handle: NameId,
) -> Result<bool, NoMemory>
    requires declared { lineage.now.index.now ≡ the_declarations (map view_unit sites.now) }
    requires lined { AreLined (map view_unit sites.now) lineage.now.bases.now lineage.now.values.now lineage.now.tallies.now }
    ensures { IfOk result (λ found. IsTrue found ↔ HasUnsteady (map view_unit sites.now) action.now handle) }
{
    let marks = marks_of(lineage.alloc, lineage.index.as_slice(), action)?;
    let marked = reached(
        lineage.alloc,
        marks.as_slice(),
        lineage.bases,
        lineage.order,
    )?;
    Ok(any_unsteady(sites, lineage, marked.as_slice(), handle))
}
