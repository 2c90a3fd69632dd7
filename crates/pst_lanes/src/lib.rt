//! The laws of the lanes of a legal trace.
//!
//! A trace says of each lane which actions start there and which end there. In a legal trace an
//! action starts at most once, on one lane, and on each lane one action runs after another. Each
//! law is the contract of a function that does nothing. A caller that needs a law in a proof calls
//! its function.
#![tactic(auto)]

ghost use Rattle.pst_lanes.specs.Laws.{StartsOnce, StartsOnOneLane, EndsHaveStarted, StartsAreEnds, OneRunsOnLane};

/// In a legal trace an action starts at most once, on one lane, and what has ended has started.
pub fn acts_start_once()
    ensures once { StartsOnce }
    ensures one_lane { StartsOnOneLane }
    ensures begun { EndsHaveStarted }
{}

/// On each lane of a legal trace at most one action runs. The actions that start there are those
/// that end there, and then the one that runs.
pub fn lanes_run_one()
    ensures one { OneRunsOnLane }
    ensures starts { StartsAreEnds }
{}
