//! Laws of sites.
ghost use Rattle.pst_constraint_sites.specs.Laws.{SensesTell, GroupsHaveConstraints, ConstraintsAreGrouped};

/// What a slot stands for at a site is what is told of it, in every scenario that differs in values
/// alone.
pub fn senses_tell()
    ensures { SensesTell }
{}

/// Each constraint of each group is one of every scenario that differs in values alone, and its slots
/// stand there for what they stand for at the site of the group.
pub fn groups_have_constraints()
    ensures { GroupsHaveConstraints }
{}

/// Each constraint of a scenario that differs in values alone, and whose nodes' parents stand before
/// them, is one of a group, and its slots stand there for what they stand for at the group's site.
pub fn constraints_are_grouped()
    ensures { ConstraintsAreGrouped }
{}
