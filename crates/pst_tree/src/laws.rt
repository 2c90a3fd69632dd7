//! Laws of the definitions: each function here does nothing, and its contract is a law.
ghost use Rattle.pst_tree.specs.Laws.{InstancesAreOne, InstancesAreInPreorder, InstancesExist};
ghost use Rattle.pst_tree.specs.Tried.{InstancesAreTried};

/// Sources have at most one list of instances.
pub fn instances_are_one()
    ensures { InstancesAreOne }
{}

/// The instances of sources stand in preorder, as those of a sound model do.
pub fn instances_are_in_preorder()
    ensures { InstancesAreInPreorder }
{}

/// Sources with a component `pss_top` have a list of instances, where each declared instance has a
/// component and no component stands in itself.
pub fn instances_exist()
    ensures { InstancesExist }
{}

/// The instances of small sources.
pub fn instances_are_tried()
    ensures { InstancesAreTried }
{}
