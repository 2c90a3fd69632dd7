//! Laws of nodes.
ghost use Rattle.pst_read_domains.specs.ReadNodesLaws.{NodesStandForPieces, ReadLeavesHaveActions, HandlesHaveTheirTypes};

/// Whatever a list of choices has read, whole or so far, its nodes stand for pieces of the activity:
/// the first for the root's action, and child i of a node for what stands at place i below what the
/// node stands for. Each leaf has its action.
pub fn nodes_stand_for_pieces()
    ensures pieces { NodesStandForPieces }
    ensures leaves { ReadLeavesHaveActions }
{}

/// Of a sound model each handle leads to a node of its type, whole or so far.
pub fn handles_have_their_types()
    ensures { HandlesHaveTheirTypes }
{
    nodes_stand_for_pieces();
}
