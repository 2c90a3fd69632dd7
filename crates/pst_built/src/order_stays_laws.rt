//! Laws of the order of scenarios that are still being read.
ghost use Rattle.pst_built.specs.OrderStaysLaws.{LongerListsGoOn, OrdersStay, CyclesStay, GroupClashesStay, OwnClashesStay, ParallelOrdersStay, ParallelClashesStay, PlansLookAtNoValue};

use pst_order::whole_is_sound;

/// What a longer list reads goes on from what the list has read: nodes, actions, links and claims
/// stay, and further ones come.
pub fn longer_lists_go_on()
    ensures { LongerListsGoOn }
{}

/// What comes before, is a direct cause, is joined in a group, must come before, conflicts, or
/// stands in different branches of a parallel block by what a list has read, does so in each
/// scenario that a longer list reads whole.
pub fn orders_stay()
    ensures { OrdersStay }
{}

/// Where an action must come before itself, two members of a group conflict, or an action's own
/// claims clash, no longer list reads a legal scenario.
pub fn clashes_stay()
    ensures cycle { CyclesStay }
    ensures group { GroupClashesStay }
    ensures own { OwnClashesStay }
{
    whole_is_sound();
}

/// Where two actions in different branches of a parallel block are ordered, or contend for an
/// instance, no longer list reads a legal scenario.
pub fn parallel_disputes_stay()
    ensures orders { ParallelOrdersStay }
    ensures clashes { ParallelClashesStay }
{}

/// A plan looks at no value: two linked scenarios that differ in values alone have the same groups,
/// the same order and the same conflicts.
pub fn plans_look_at_no_value()
    ensures { PlansLookAtNoValue }
{}
