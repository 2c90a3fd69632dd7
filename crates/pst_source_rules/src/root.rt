//! The number of the root's action type.
ghost use Rattle.std.specs.Prelude.{◌≡◌, ◌++◌, IfOk, map};
ghost use Rattle.std.specs.List.{list_any, position_or_len};
ghost use Rattle.std.specs.Option.{option_and_then, option_map_or};
ghost use Rattle.pst_ast.specs.DeclarationView.{view_unit};
ghost use Rattle.pst_bind.specs.Needs as need;
ghost use Rattle.pst_elab_rules.specs.Ends as tree;
ghost use Rattle.pst_ast.specs.Declarations.{declarations as the_declarations};
ghost use Rattle.pst_ast.specs.Lookups;
ghost use Rattle.pst_ast.specs.Sorts;
ghost use Rattle.pst_type_rules.specs.Members.{those_that};
ghost use Rattle.pst_source_rules.specs.Rooted.{has_home_in, is_named_root};

use pst_ast::{Declaration, Instance, Sort};
use pst_base::{NameId, Names, NoMemory};
use pst_bind::component_of;
use pst_index::Index;
use pst_sites::Sites;
use std::alloc::Global;

/// The words that name a root: its component, and its action.
#[derive(Clone, Copy)]
pub struct RootWords<'a> {
    /// The name of the component.
    pub component: &'a [u8],
    /// The name of the action.
    pub action: &'a [u8],
}

// Whether an instance is one of an action's component.
fn is_home(index: &Index, action: &Declaration, instance: &Instance) -> bool
    ensures { result ≡ need.is_home index.now action.now instance.now }
{
    match (action.inside, component_of(index, instance)) {
        (Some(place), Some(component)) => component.name.place == place,
        _ => false,
    }
}

// Whether an action's component has an instance.
fn has_home(index: &Index, instances: &[Instance], action: &Declaration) -> bool
    ensures { result ≡ has_home_in index.now instances.now action.now }
{
    for instance in instances {
        if is_home(index, action, instance) {
            return true;
        }
    }
    false
}

// Whether a name has a text.
fn has_text(names: &Names, text: &[u8], name: NameId) -> bool
    ensures { result ≡ Lookups.is_text names.now text.now name }
{
    name.0 < names.len() && names.text(name).as_bytes() == text
}

// Whether an action has these names of its component and its own.
fn is_named(index: &Index, names: &Names, words: &RootWords<'_>, action: &Declaration) -> bool
    ensures { result ≡ is_named_root index.now names.now words.now.component.now words.now.action.now action.now }
{
    let Some(place) = action.inside else {
        return false;
    };
    match index.declared_at(place) {
        None => false,
        Some(component) => {
            has_text(names, words.component, component.name.id)
                && has_text(names, words.action, action.name.id)
        }
    }
}

// Whether an action is declared there that isn't abstract.
fn is_concrete(sites: &Sites<'_>, action: &Declaration) -> bool
    ensures { result ≡ need.is_concrete (map view_unit sites.now) action.now }
{
    match sites.action_at(action.name.place) {
        None => false,
        Some(action) => action.abstract_.is_none(),
    }
}

// Whether an action is the root.
#[tactic(auto, using(crate::proofs::Rooting::root_is))]
fn is_root(
    sites: &Sites<'_>,
    index: &Index,
    names: &Names,
    instances: &[Instance],
    words: &RootWords<'_>,
    action: &Declaration,
) -> bool
    requires { index.now ≡ the_declarations (map view_unit sites.now) }
    ensures { result ≡ tree.is_root (map view_unit sites.now) names.now instances.now words.now.component.now words.now.action.now action.now }
{
    is_named(index, names, words, action)
        && is_concrete(sites, action)
        && has_home(index, instances, action)
}

// The action types, in order of declaration.
fn actions_in(alloc: Global, declarations: &[Declaration]) -> Result<Vec<Declaration>, NoMemory>
    ensures { IfOk result (λ actions. actions.items ≡ those_that Sorts.is_action declarations.now) }
{
    let mut actions = Vec::new(alloc);
    for declaration in declarations {
        if matches!(declaration.sort, Sort::Action { .. }) {
            actions.push(*declaration)?;
        }
    }
    Ok(actions)
}

// How many action types stand before the root; all, where there is none.
fn before_root(
    sites: &Sites<'_>,
    index: &Index,
    names: &Names,
    instances: &[Instance],
    words: &RootWords<'_>,
    actions: &[Declaration],
) -> usize
    requires { index.now ≡ the_declarations (map view_unit sites.now) }
    ensures { result ≡ position_or_len (tree.is_root (map view_unit sites.now) names.now instances.now words.now.component.now words.now.action.now) actions.now }
{
    for (number, action) in actions.iter().enumerate() {
        if is_root(sites, index, names, instances, words, action) {
            return number;
        }
    }
    actions.len()
}

/// The number of the root's action type, where the words name one.
pub fn root_number(
    alloc: Global,
    sites: &Sites<'_>,
    index: &Index,
    names: &Names,
    instances: &[Instance],
    words: &RootWords<'_>,
) -> Result<Option<u32>, NoMemory>
    requires { index.now ≡ the_declarations (map view_unit sites.now) }
    ensures { IfOk result (λ n. n ≡ tree.root_number (map view_unit sites.now) names.now instances.now words.now.component.now words.now.action.now) }
{
    let actions = actions_in(alloc, index.as_slice())?;
    let number = before_root(sites, index, names, instances, words, actions.as_slice());
    if number >= actions.len() {
        return Ok(None);
    }
    match u32::try_from(number) {
        Ok(number) => Ok(Some(number)),
        Err(_) => Err(NoMemory),
    }
}
