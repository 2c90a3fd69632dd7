//! The law of answers, the contract of a function that does nothing.
ghost use Rattle.pst_static_answers.specs.Shown.{StaticAnswersAreOne};

use pst_order::{groups_are_whole, members_are_those};
use pst_programs::programs_are_safe;

/// At most one answer with one text is right for a scenario and a number of lanes.
pub fn static_answers_are_one()
    ensures { StaticAnswersAreOne }
{
    groups_are_whole();
    members_are_those();
    programs_are_safe();
}
