//! What binds and assignments break.
ghost use Rattle.std.specs.Prelude.{◌≡◌, None, map};
ghost use Rattle.pst_ast.specs.ActivityView.{view_other_ends};
ghost use Rattle.pst_ast.specs.Lookups;
ghost use Rattle.pst_ast.specs.Uses.{other_ends};
ghost use Rattle.pst_name_rules.specs.Leasts.{least_at};
ghost use Rattle.pst_type_rules.specs.Binds;
ghost use Rattle.pst_type_rules.specs.TypeRules;
ghost use Rattle.pst_use_rules.specs.Found;

use crate::facts::Facts;
use pst_ast::{
    Checked, Declaration, EndNode, Environment, Finding, Name, NextEnd, OtherEnds, Referent, Sort,
    Target,
};
use pst_base::Place;
use pst_index::{Index, stands_for};
use pst_name_rules::{earlier, end_named, pool_in, target_of, unless};

// The reference that an end names.
fn reference_at(facts: &Facts<'_>, at: &Environment, end: &EndNode) -> Option<Declaration>
    ensures { result ≡ Binds.reference_at facts.now.index.now facts.now.names.now at.now end.now }
{
    end_named(facts.index, facts.names, at, end.handle, end.name.id)
}

// Whether two declarations are there and the same.
fn is_same(one: Option<Declaration>, other: Option<Declaration>) -> bool
    ensures { result ≡ Found.is_same one other }
{
    match (one, other) {
        (Some(one), Some(other)) => one == other,
        _ => false,
    }
}

// Whether two references are an output and an input of one object type, where both are there.
fn are_ends(index: &Index, one: &Option<Declaration>, other: &Option<Declaration>) -> bool
    ensures { result ≡ Found.are_ends index.now one.now other.now }
{
    match (one, other) {
        (Some(one), Some(other)) => {
            matches!(one.sort, Sort::Reference { output: true, .. })
                && matches!(other.sort, Sort::Reference { output: false, .. })
                && is_same(index.type_of(one), index.type_of(other))
        }
        _ => true,
    }
}

// Rule 20 at an end that the first is joined with.
fn end_finding(
    facts: &Facts<'_>,
    at: &Environment,
    first: &EndNode,
    other: &EndNode,
) -> Option<Finding>
    ensures { result ≡ Found.end_found facts.now.index.now facts.now.names.now at.now first.now other.now }
{
    let (one, another) = (
        reference_at(facts, at, first),
        reference_at(facts, at, other),
    );
    let good = are_ends(facts.index, &one, &another) && first.handle.id != other.handle.id;
    unless(good, other.handle.place, 20)
}

// The least of what is found at ends behind others.
fn next_ends_finding(
    facts: &Facts<'_>,
    at: &Environment,
    first: &EndNode,
    before: Option<Finding>,
    rest: &[NextEnd],
) -> Option<Finding>
    ensures { result ≡ least_at (Found.end_found facts.now.index.now facts.now.names.now at.now first.now) (map (λ n. n.end) rest.now) before }
{
    let mut least = before;
    for next in rest {
        least = earlier(least, end_finding(facts, at, first, &next.end));
    }
    least
}

/// Rule 20 at the ends of a bind of an activity, each by itself.
pub fn ties_finding(
    facts: &Facts<'_>,
    at: &Environment,
    first: &EndNode,
    others: &OtherEnds,
) -> Option<Finding>
    ensures { result ≡ Found.ties_found facts.now.index.now facts.now.names.now at.now first.now (other_ends (view_other_ends others.now)) }
{
    match others {
        OtherEnds::One(other) => earlier(None, end_finding(facts, at, first, other)),
        OtherEnds::Several {
            first: other,
            rest,
            ..
        } => {
            let before = earlier(None, end_finding(facts, at, first, other));
            next_ends_finding(facts, at, first, before, rest.as_slice())
        }
    }
}

// Whether two types are the same, where both are there.
fn agree(one: Option<Declaration>, other: Option<Declaration>) -> bool
    ensures { result ≡ Found.agree one other }
{
    match (one, other) {
        (Some(one), Some(other)) => one == other,
        _ => true,
    }
}

// Whether a target is of the objects of a pool, where both are there.
fn target_agrees(index: &Index, pool: &Option<Declaration>, target: &Checked<Target>) -> bool
    ensures { result ≡ Found.target_agrees index.now pool.now target.now }
{
    match (pool, target) {
        (Some(pool), Checked::Is(target)) => {
            agree(index.type_of(pool), index.type_of(&target.need))
        }
        _ => true,
    }
}

// The first name of a target.
fn first_name(instances: &[Name], action: Name) -> Name
    ensures { result ≡ TypeRules.first_name instances.now action }
{
    match instances.first() {
        Some(instance) => *instance,
        None => action,
    }
}

/// Rule 20 at a target that a pool is bound to.
pub fn target_finding(
    index: &Index,
    component: Place,
    pool: Name,
    instances: &[Name],
    action: Name,
    reference: Name,
) -> Option<Finding>
    ensures { result ≡ Found.targets_found index.now component pool instances.now action reference }
{
    let found = pool_in(index, component, pool);
    let target = target_of(index, component, instances, action, reference);
    let good = target_agrees(index, &found, &target);
    unless(good, first_name(instances, action).place, 20)
}

// Whether a name stands for a local, or for nothing.
fn may_be_assigned(found: &Option<Referent>) -> bool
    ensures { result ≡ Found.may_be_assigned found.now }
{
    match found {
        Some(Referent::Declared(found)) => matches!(found.sort, Sort::Local),
        Some(_) => false,
        None => true,
    }
}

/// Rule 21 at what a value is assigned to.
pub fn assigned_finding(facts: &Facts<'_>, at: &Environment, name: Name) -> Option<Finding>
    ensures { result ≡ Found.assigns_found facts.now.index.now facts.now.names.now at.now name }
{
    let found = stands_for(facts.index, facts.names, at, name.id);
    unless(may_be_assigned(&found), name.place, 21)
}
