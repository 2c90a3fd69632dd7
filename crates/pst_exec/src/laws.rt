//! The law of what the core makes, the contract of a function that does nothing.
ghost use Rattle.pst_exec.specs.Laws.{CoreMakesBlocks, CommandsMakeByRule};

use pst_order::core_is_by_rule;

/// What the core makes of commands, as the trace that a book of a run keeps, it made block by block: each
/// is the start of the least startable group on the least idle lanes, or the end of an action that runs.
/// So each is by the core's rule.
pub fn core_makes_blocks()
    ensures blocks { CoreMakesBlocks }
    ensures rule { CommandsMakeByRule }
{
    core_is_by_rule();
}
