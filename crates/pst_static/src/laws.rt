//! A law of the programs of lanes. It is the contract of a function that does nothing; a caller that
//! needs it in a proof calls the function.
ghost use Rattle.pst_static.specs.Laws.{ProgramsAreFew};

use pst_order::{groups_are_whole, members_are_those, whole_is_sound};

/// How many instructions a plan's programs have at most.
pub fn programs_are_few()
    ensures { ProgramsAreFew }
{
    groups_are_whole();
    members_are_those();
    whole_is_sound();
}
