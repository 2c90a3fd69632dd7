//! Laws of judging, each the contract of a function that does nothing.
ghost use Rattle.pst_check.specs.Laws.{UnbrokenIsBegun, VerdictsAreOne};

use pst_order::{groups_are_whole, members_are_those, prefix_is_by_rule, readers_are_kept};
use pst_scen::{prefixes_are_legal, whole_traces_are_prefixes, wider_traces_are_legal};

/// Behind blocks that begin a whole legal trace, a block breaks no rule exactly where it begins one
/// with them.
pub fn unbroken_is_begun()
    ensures { UnbrokenIsBegun }
{
    prefixes_are_legal();
    wider_traces_are_legal();
    prefix_is_by_rule();
    readers_are_kept();
    members_are_those();
    groups_are_whole();
}

/// At most one verdict is right of a trace.
pub fn verdicts_are_one()
    ensures { VerdictsAreOne }
{
    whole_traces_are_prefixes();
}
