//! The pools of the component instances, and what they serve.
ghost use Rattle.std.specs.Prelude.{◌≡◌, map, IfOk};
ghost use Rattle.pst_bound_pools.specs.ListedPools.{view_pools};
ghost use Rattle.pst_bind.specs.Pools.{place_of};

use pst_base::{Items, NameId, NoMemory};
use pst_bound_pools::ListedPool;
use std::alloc::Global;

/// A pool of a component instance.
#[derive(Clone, Copy, Debug, PartialEq, Eq)]
pub struct PoolPlace {
    /// The number of the instance.
    pub instance: u32,
    /// The name of the pool.
    pub name: NameId,
}

/// A reference or claim of an action type in an instance of its component, and the pool that
/// serves it.
#[derive(Clone, Copy, Debug, PartialEq, Eq)]
pub struct Served {
    /// The number of the action type.
    pub action: u32,
    /// The number of the instance.
    pub instance: u32,
    /// The number of the reference or claim. The references of an action are numbered first.
    pub reference: u32,
    /// The number of the pool.
    pub pool: u32,
}

/// The pools of the component instances, and what they serve.
#[derive(Drop)]
pub struct PoolMap {
    /// The pools by instance and then in order of declaration. Each is named by its place in this
    /// list, from 0.
    pub pools: Items<PoolPlace>,
    /// The pool of each reference and claim of each atomic action that isn't abstract, in each
    /// instance of its component, by action, instance and reference.
    pub served: Items<Served>,
}

/// The instance and the name of each pool.
pub fn places(alloc: Global, pools: &[ListedPool]) -> Result<Vec<PoolPlace>, NoMemory>
    ensures { IfOk result (λ places. places.items ≡ map place_of (view_pools pools.now)) }
{
    let mut places = Vec::new(alloc);
    for pool in pools {
        places.push(PoolPlace {
            instance: pool.instance,
            name: pool.declaration.name.id,
        })?;
    }
    Ok(places)
}
