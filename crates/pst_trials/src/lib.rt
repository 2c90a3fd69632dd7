//! Trials of the definitions: small models and scenarios written out, with facts about them that
//! compute or are short. Each fact is part of the contract of a function that does nothing.
#![tactic(auto)]

ghost use Rattle.pst_trials.specs.Locks.{LocksAreTried};
ghost use Rattle.pst_trials.specs.Inference.{InferenceIsTried};
ghost use Rattle.pst_trials.specs.Streams.{StreamsAreTried};
ghost use Rattle.pst_trials.specs.Binds.{BindsAreTried};
ghost use Rattle.pst_trials.specs.States.{StatesAreTried};
ghost use Rattle.pst_trials.specs.Selects.{SelectsAreTried};
ghost use Rattle.pst_trials.specs.OwnClaims.{OwnClaimsAreTried};
ghost use Rattle.pst_trials.specs.Joins.{JoinsAreTried};
ghost use Rattle.pst_trials.specs.Arrays.{ArraysAreTried};
ghost use Rattle.pst_trials.specs.Refused.{RefusalsAreTried};
ghost use Rattle.pst_trials.specs.Inlines.{InlinesAreTried};
ghost use Rattle.pst_trials.specs.Repeats.{RepeatsAreTried};
ghost use Rattle.pst_trials.specs.Instances.{InstancesAreTried};
ghost use Rattle.pst_trials.specs.Cores.{CoresAreTried};
ghost use Rattle.pst_trials.specs.ClaimValues.{ClaimValuesAreTried};
ghost use Rattle.pst_trials.specs.Bodies.{BodiesAreTried};
ghost use Rattle.pst_trials.specs.Doing.{DoingIsTried, LocalsAreTried};
ghost use Rattle.pst_trials.specs.Releases.{ReleasesAreTried};
ghost use Rattle.pst_trials.specs.Runs.{RunsAreTried};
ghost use Rattle.pst_trials.specs.Fillings.{FillingsAreTried};
ghost use Rattle.pst_trials.specs.Supplies.{SuppliesAreTried};
ghost use Rattle.pst_trials.specs.Handles.{HandlesAreTried};
ghost use Rattle.pst_trials.specs.Readings.{ReadingsAreTried};

use pst_order::{blocks_are_one, must_is_kept, whole_is_sound};

/// Two actions that lock, or share, the one instance of a resource, in parallel and in any order.
pub fn locks_are_tried()
    ensures { LocksAreTried }
{}

/// A consumer of a buffer, whose producer is inferred.
pub fn inference_is_tried()
    ensures { InferenceIsTried }
{}

/// Two actions with stream partners that are inferred.
pub fn streams_are_tried()
    ensures { StreamsAreTried }
{}

/// A producer and a consumer whose ends an activity binds.
pub fn binds_are_tried()
    ensures { BindsAreTried }
{}

/// A state with its first object, a writer and a reader; and a reader of what was replaced.
pub fn states_are_tried()
    ensures { StatesAreTried }
{
    whole_is_sound();
}

/// Choices among branches with guards and weights, and by value.
pub fn selects_are_tried()
    ensures { SelectsAreTried }
{}

/// One action with two claims of one resource instance.
pub fn own_claims_are_tried()
    ensures { OwnClaimsAreTried }
{}

/// Blocks that wait for some of their branches.
pub fn joins_are_tried()
    ensures { JoinsAreTried }
{}

/// Values of one action: an array, a quotient by 0, and constraints that never hold together.
pub fn arrays_are_tried()
    ensures { ArraysAreTried }
{}

/// Bodies, given the answers of their calls.
pub fn bodies_are_tried()
    ensures { BodiesAreTried }
{}

/// Bodies: the order of evaluation, numbers of turns, and counts.
pub fn doing_is_tried()
    ensures { DoingIsTried }
{}

/// Locals of bodies, which are there from the beginning.
pub fn locals_are_tried()
    ensures { LocalsAreTried }
{}

/// What join forms release, branches, and parallel blocks.
pub fn releases_are_tried()
    ensures { ReleasesAreTried }
{}

/// Traces, and scenarios and beginnings that have no whole one.
pub fn runs_are_tried()
    ensures { RunsAreTried }
{
    whole_is_sound();
    blocks_are_one();
    must_is_kept();
}

/// Fills of activities, and values.
pub fn fillings_are_tried()
    ensures { FillingsAreTried }
{}

/// Sources, first objects, and the numbers of inferred actions.
pub fn supplies_are_tried()
    ensures { SuppliesAreTried }
{}

/// Handles behind traversals, levels of indices, joins of any branches, and groups of three.
pub fn handles_are_tried()
    ensures { HandlesAreTried }
{}

/// Why scenarios of the other trials have no plan.
pub fn refusals_are_tried()
    ensures { RefusalsAreTried }
{}

/// Constraints on what a handle traverses, and at a traversal.
pub fn inlines_are_tried()
    ensures { InlinesAreTried }
{}

/// Repetitions with the numbers of their turns, and conditional statements.
pub fn repeats_are_tried()
    ensures { RepeatsAreTried }
{}

/// Component instances, and pools of more than one resource instance.
pub fn instances_are_tried()
    ensures { InstancesAreTried }
{}

/// What commands make of a trace on one lane.
pub fn cores_are_tried()
    ensures { CoresAreTried }
{}

/// The number of a claimed resource instance, and the values of its fields.
pub fn claim_values_are_tried()
    ensures { ClaimValuesAreTried }
{}

/// The laws of reading, each on a small model, and without its premise.
pub fn readings_are_tried()
    ensures { ReadingsAreTried }
{}
