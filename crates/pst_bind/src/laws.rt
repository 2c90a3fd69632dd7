//! Laws of the definitions: each function here does nothing, and its contract is a law.
ghost use Rattle.pst_bind.specs.Laws.{PoolBreachesHaveOneLeast, PoolMapsAreOne, NeedsAreServed};
ghost use Rattle.pst_bind.specs.Tried.{PoolsAreTried};

/// Of the breaches of the rules of pools at most one is the least.
pub fn pool_breaches_have_one_least()
    ensures { PoolBreachesHaveOneLeast }
{
    pst_base::places_are_ordered();
}

/// Instances have at most one list of pools, and one of what they serve.
pub fn pool_maps_are_one()
    ensures { PoolMapsAreOne }
{}

/// Where no rule of pools is broken, one pool serves each reference and claim.
pub fn needs_are_served()
    ensures { NeedsAreServed }
{}

/// The pools of small sources, what they serve, and which rules of pools are broken.
pub fn pools_are_tried()
    ensures { PoolsAreTried }
{}
