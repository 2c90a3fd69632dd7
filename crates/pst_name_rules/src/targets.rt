//! What pool binds break.
ghost use Rattle.std.specs.Prelude.{◌≡◌, is_some};
ghost use Rattle.pst_ast.specs.NameRules;
ghost use Rattle.pst_ast.specs.Sorts.{is_action, is_instance, is_pool};

use crate::types::unless;
use pst_ast::{Checked, Declaration, Finding, Name, Scope, Sort, Target};
use pst_base::Place;
use pst_index::Index;

/// A pool that is declared in a component.
pub fn pool_in(index: &Index, component: Place, name: Name) -> Option<Declaration>
    ensures { result ≡ NameRules.named_in index.now component is_pool name }
{
    let found = index.look_up(Scope::Part(component), name.id)?;
    match found.sort {
        Sort::Pool { .. } => Some(found),
        _ => None,
    }
}

/// A component instance that is declared in a component, which may be missing.
pub fn instance_within(
    index: &Index,
    component: &Option<Declaration>,
    name: Name,
) -> Option<Declaration>
    ensures { result ≡ NameRules.named_within index.now component.now is_instance name }
{
    match component {
        None => None,
        Some(component) => {
            let found = index.look_up(Scope::Part(component.name.place), name.id)?;
            match found.sort {
                Sort::Instance { .. } => Some(found),
                _ => None,
            }
        }
    }
}

// An action that is declared in a component, which may be missing.
fn action_within(index: &Index, component: &Option<Declaration>, name: Name) -> Option<Declaration>
    ensures { result ≡ NameRules.named_within index.now component.now is_action name }
{
    match component {
        None => None,
        Some(component) => {
            let found = index.look_up(Scope::Part(component.name.place), name.id)?;
            match found.sort {
                Sort::Action { .. } => Some(found),
                _ => None,
            }
        }
    }
}

// The component to which instances lead.
fn along(
    index: &Index,
    component: Option<Declaration>,
    instances: &[Name],
) -> Checked<Option<Declaration>>
    ensures { result ≡ NameRules.along index.now component instances.now }
{
    let mut reached = component;
    for name in instances {
        match instance_within(index, &reached, *name) {
            None => {
                return Checked::Breaks {
                    place: name.place,
                    rule: 3,
                };
            }
            Some(instance) => reached = index.type_of(&instance),
        }
    }
    Checked::Is(reached)
}

/// The action type and the reference or claim that a target names.
pub fn target_of(
    index: &Index,
    component: Place,
    instances: &[Name],
    action: Name,
    reference: Name,
) -> Checked<Target>
    ensures { result ≡ NameRules.target_of index.now component instances.now action reference }
{
    let reached = match along(index, index.declared_at(component), instances) {
        Checked::Breaks { place, rule } => return Checked::Breaks { place, rule },
        Checked::Is(reached) => reached,
    };
    let Some(found) = action_within(index, &reached, action) else {
        return Checked::Breaks {
            place: action.place,
            rule: 3,
        };
    };
    match index.member_of(&found, reference.id) {
        Some(need) if matches!(need.sort, Sort::Reference { .. } | Sort::Claim { .. }) => {
            Checked::Is(Target {
                action: found,
                need,
            })
        }
        _ => Checked::Breaks {
            place: reference.place,
            rule: 3,
        },
    }
}

/// Rule 3 at the pool of a bind.
pub fn binds_finding(index: &Index, component: Place, pool: Name) -> Option<Finding>
    ensures { result ≡ NameRules.unless (is_some (NameRules.named_in index.now component is_pool pool)) pool.place 3 }
{
    unless(pool_in(index, component, pool).is_some(), pool.place, 3)
}

/// Rule 3 at a name of a target.
pub fn targets_finding(
    index: &Index,
    component: Place,
    instances: &[Name],
    action: Name,
    reference: Name,
) -> Option<Finding>
    ensures { result ≡ NameRules.found (NameRules.target_of index.now component instances.now action reference) }
{
    match target_of(index, component, instances, action, reference) {
        Checked::Is(_) => None,
        Checked::Breaks { place, rule } => Some(Finding { place, rule }),
    }
}
