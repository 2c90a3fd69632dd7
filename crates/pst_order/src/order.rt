//! Laws of the order in legal traces.
ghost use Rattle.pst_order.specs.Laws.{RunningMeet, MustEndsBefore, MustKeepsGroups, WholeHasNoCycle, WholeHasNoClash, MustIsInside, BlocksAreOne};

/// Two actions that run at one moment of a whole legal trace have no order and no conflict.
pub fn running_meet()
    ensures { RunningMeet }
{}

/// In a whole legal trace what must come before an action ends before the action starts.
pub fn must_is_kept()
    ensures { MustEndsBefore }
{}

/// What must come before an action must come before each member of its group.
pub fn must_keeps_groups()
    ensures { MustKeepsGroups }
{}

/// Where a whole legal trace exists no action must come before itself, and no two members of one
/// group conflict. What must come before an action of the scenario is one too.
pub fn whole_is_sound()
    ensures cycle { WholeHasNoCycle }
    ensures clash { WholeHasNoClash }
    ensures inside { MustIsInside }
{}

/// A legal trace has one cutting into blocks.
pub fn blocks_are_one()
    ensures { BlocksAreOne }
{}
