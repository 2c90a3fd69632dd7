//! Laws of the order ahead of links.
ghost use Rattle.pst_order_ahead.specs.Laws.{TreesAreLaidOut, MustAheadComes, RefusalsAheadStay};

use pst_built::{clashes_stay, orders_stay};
use pst_order::{must_keeps_groups, whole_is_sound};

/// Once a list of choices has read the activity, what it has read is laid out: its nodes stand in preorder, the
/// actions of its leaves come first and in the order of the leaves, and its numbers have 31 bits.
pub fn trees_are_laid_out()
    ensures { TreesAreLaidOut }
{}

/// What must come before an action ahead of the links does so in each legal scenario that a longer list reads.
pub fn must_ahead_comes()
    ensures { MustAheadComes }
{
    whole_is_sound();
    must_keeps_groups();
    orders_stay();
}

/// Where what a list has read is refused ahead, no longer list reads a legal scenario.
pub fn refusals_ahead_stay()
    ensures { RefusalsAheadStay }
{
    whole_is_sound();
    clashes_stay();
    orders_stay();
    must_ahead_comes();
}
