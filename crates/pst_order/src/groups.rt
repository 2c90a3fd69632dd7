//! Laws of groups.
ghost use Rattle.pst_order.specs.Laws.{MembersAreThose, PlanGroupsAreWhole, WholeGroupsAreOne};

/// The members of a group are the actions of its number.
pub fn members_are_those()
    ensures { MembersAreThose }
{}

/// The members of each group of a scenario's plan are one whole group, of which the number is the
/// first. Two whole groups with a common member are one.
pub fn groups_are_whole()
    ensures whole { PlanGroupsAreWhole }
    ensures one { WholeGroupsAreOne }
{}
