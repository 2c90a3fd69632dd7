//! The laws of programs of lanes, and of the machine that runs them. Each is the contract of a function
//! that does nothing; a caller that needs a law in a proof calls its function.
ghost use Rattle.pst_programs.specs.Laws.{OrderGoesOn, ProgramsAreOne, ProgramsAreSafe, EachRunsOnce, SafeIsPrefix, SafeGoesOn, SafeIsWhole, SafeIsShort};
ghost use Rattle.pst_programs.specs.Tried.{RowsAreTried};
ghost use Rattle.pst_programs.specs.Grouped.{PairsAreTried};

use pst_order::{
    groups_are_whole, members_are_those, must_keeps_groups, rule_fits, rule_is_prefix,
    whole_is_sound,
};

/// Over every list of moves the trace begins a whole legal trace; while a lane isn't at its end
/// some move is possible; where all are, the trace is whole; and the moves are few.
pub fn machine_is_safe()
    ensures prefix { SafeIsPrefix }
    ensures goes_on { SafeGoesOn }
    ensures whole { SafeIsWhole }
    ensures short { SafeIsShort }
{
    groups_are_whole();
    members_are_those();
    whole_is_sound();
    rule_is_prefix();
    rule_fits();
}

/// A serial order goes on until all groups are taken. A plan has one list of programs; those of a
/// scenario's plan are safe, and each action has one `Run` in them.
pub fn programs_are_safe()
    ensures goes_on { OrderGoesOn }
    ensures one { ProgramsAreOne }
    ensures safe { ProgramsAreSafe }
    ensures once { EachRunsOnce }
{
    groups_are_whole();
    members_are_those();
    must_keeps_groups();
    whole_is_sound();
}

/// Two small plans, one with a conflict and one with groups: their programs, those that are not, and
/// moves to the end.
pub fn rows_are_tried()
    ensures rows { RowsAreTried }
    ensures pairs { PairsAreTried }
{
    members_are_those();
}
