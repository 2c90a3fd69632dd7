//! The law of needs that no action serves.
ghost use Rattle.pst_open_needs.specs.Needs.{UnservedNeedsRefuseLists};

use pst_built::longer_lists_keep_what_is_known;
use pst_order_ahead::trees_are_laid_out;

/// Where a list has read the activity, as many actions are inferred as its level says, and a need isn't linked that no
/// reference fits, no longer list reads a legal scenario.
pub fn unserved_needs_refuse_lists()
    ensures { UnservedNeedsRefuseLists }
{
    longer_lists_keep_what_is_known();
    trees_are_laid_out();
}
