//! The law of longer lists.
ghost use Rattle.pst_built.specs.ReadOnwardLaws.{LongerListsKeepWhatIsKnown};

/// What a longer list reads goes on from what the list has read: nodes, actions, links and all
/// values stay, and more is known.
pub fn longer_lists_keep_what_is_known()
    ensures { LongerListsKeepWhatIsKnown }
{}
