//! The tree of instances: what stands in what.
ghost use Rattle.std.specs.Prelude.{◌≡◌, IfOk, OnOk};
ghost use Rattle.std.specs.List.{position_from};
ghost use Rattle.std.specs.HashMap.{get};
ghost use Rattle.pst_bound_pools.specs.Serving;
ghost use Rattle.pst_bound_pools.specs.Children.{is_child, or_number, same_child};
ghost use Rattle.pst_bound_pools.specs.Children;

use pst_ast::{Instance, Name};
use pst_base::{NameId, NoMemory};
use std::alloc::Global;
use std::collections::HashMap;
use std::marker::Model;

/// A name in an instance.
#[derive(Clone, Copy, PartialEq, Eq, Hash)]
pub struct ChildKey {
    /// The number of the instance.
    pub parent: u32,
    /// The number of the name.
    pub name: u32,
}

/// Instances in preorder, where the instances in one are found by their names.
///
/// Contracts see the list of the instances.
#[derive(Drop)]
pub struct InstanceTable {
    instances: Vec<Instance>,
    children: HashMap<ChildKey, u32>,
}

impl Model for InstanceTable {
    ghost use Rattle.std.specs.Prelude.{List};
    ghost use Rattle.pst_ast.specs.declared.instance.Instance.{Instance};
    ghost use Rattle.pst_bound_pools.specs.Tables.{IsInstanceTable};

    ghost Value = { List Instance };

    ghost view = { λ t. t.instances.items };

    ghost invariant = { IsInstanceTable };
}

// The key of a name in an instance.
fn child_key(parent: u32, name: NameId) -> ChildKey
    ensures { result ≡ Children.child_key parent name }
{
    ChildKey {
        parent,
        name: name.0,
    }
}

// Keeps a number at its key, where nothing is there yet.
fn keep(children: &mut HashMap<ChildKey, u32>, key: ChildKey, number: u32) -> Result<(), NoMemory>
    ensures { OnOk result ((q : ChildKey) → get same_child children.new q ≡ or_number (get same_child children.old q) (same_child q key) number) }
{
    if !children.contains_key(&key) {
        children.insert(key, number)?;
    }
    Ok(())
}

// Keeps the number of an instance in the one that it stands in.
fn keep_child(
    children: &mut HashMap<ChildKey, u32>,
    instance: &Instance,
    number: u32,
) -> Result<(), NoMemory>
    ensures { OnOk result ((q : ChildKey) → get same_child children.new q ≡ or_number (get same_child children.old q) (is_child q instance.now) number) }
{
    match instance.parent {
        None => Ok(()),
        Some(parent) => keep(children, child_key(parent, instance.name), number),
    }
}

// For each name in an instance the number of the first that has it.
fn children_of(alloc: Global, instances: &[Instance]) -> Result<HashMap<ChildKey, u32>, NoMemory>
    ensures { IfOk result (λ m. (q : ChildKey) → get same_child m q ≡ position_from (is_child q) 0 instances.now) }
{
    let mut children = HashMap::new(alloc);
    for at in 0..instances.len() {
        let Ok(number) = u32::try_from(at) else {
            return Err(NoMemory);
        };
        keep_child(&mut children, &instances[at], number)?;
    }
    Ok(children)
}

// A list of the same instances.
fn copied(alloc: Global, instances: &[Instance]) -> Result<Vec<Instance>, NoMemory>
    ensures { IfOk result (λ found. found.items ≡ instances.now) }
{
    let mut found = Vec::new(alloc);
    for instance in instances {
        found.push(*instance)?;
    }
    Ok(found)
}

impl InstanceTable {
    /// The table of instances. `NoMemory` also comes where there are more than 2^32.
    pub fn new(alloc: Global, instances: &[Instance]) -> Result<InstanceTable, NoMemory>
        ensures { IfOk result (λ table. table ≡ instances.now) }
    {
        let children = children_of(alloc, instances)?;
        Ok(InstanceTable {
            instances: copied(alloc, instances)?,
            children,
        })
    }

    /// The instances.
    pub fn as_slice(&self) -> &[Instance]
        ensures { result.now ≡ self.now }
    {
        self.instances.as_slice()
    }

    /// The number of the instance that one stands in.
    pub fn parent_of(&self, number: u32) -> Option<u32>
        ensures { result ≡ Serving.parent_of self.now number }
    {
        let instance = self.as_slice().get(number as usize)?;
        instance.parent
    }

    /// An instance and those above it, the nearest first.
    pub fn with_those_above(&self, alloc: Global, number: u32) -> Result<Vec<u32>, NoMemory>
        ensures { IfOk result (λ above. above.items ≡ Serving.with_those_above self.now number) }
    {
        let mut above = Vec::new(alloc);
        let mut at = Some(number);
        let mut left = self.as_slice().len();
        while let Some(here) = at {
            if left == 0 {
                return Ok(above);
            }
            above.push(here)?;
            at = self.parent_of(here);
            left -= 1;
        }
        Ok(above)
    }

    /// An instance in another one, by its name: of several the first.
    pub fn child_named(&self, parent: u32, name: NameId) -> Option<u32>
        ensures { result ≡ Serving.child_named self.now parent name }
    {
        self.children.get(&child_key(parent, name)).copied()
    }

    /// The instance to which names lead down.
    pub fn led_to(&self, number: u32, names: &[Name]) -> Option<u32>
        ensures { result ≡ Serving.led_to self.now number names.now }
    {
        let mut reached = number;
        for name in names {
            reached = self.child_named(reached, name.id)?;
        }
        Some(reached)
    }
}
