//! The branches of a `select` and the arms of a `match`, one after another.
ghost use Rattle.std.specs.Prelude.{◌≡◌, ◌++◌, ◌∷◌, [], OnOk, map};
ghost use Rattle.std.specs.Option.{option_map};
ghost use Rattle.pst_ast.specs.ActivityView.{view_arm_label, view_guard};
ghost use Rattle.pst_ast.specs.ExpressionView.{view_ranges};
ghost use Rattle.pst_elab_rules.specs.Spans as spans;
ghost use Rattle.pst_elab_rules.specs.Steps as tree;
ghost use Rattle.pst_model.specs.ActivityTree as model;
ghost use Rattle.pst_model.specs.ModelView.{maybe_step, view_arm, view_branch, view_step};
ghost use Rattle.pst_path_readings.specs.Set.{view_setting};
ghost use Rattle.pst_sources.specs.Shown.{sources_of};
ghost use Rattle.pst_step_forms.specs.Listed.{or_step, with_label};
ghost use Rattle.pst_step_forms.specs.Shown.{view_arms};

use pst_ast::{ArmLabel, GuardNode, RangesNode};
use pst_base::NoMemory;
use pst_model::{Arm, Branch, Step};
use pst_path_readings::Setting;
use pst_sources::{Known, Sources};
use pst_spans::range_spans;
use pst_step_parts::{guard_of, weight_of};
use std::alloc::Global;

/// The arms of a `match` so far, and the first default among them.
#[derive(Drop)]
pub struct Arms {
    /// Those with ranges.
    pub arms: Vec<Arm>,
    /// The step of the first default, where there is one.
    pub other: Option<Box<Step>>,
}

/// No arms.
pub fn no_arms(alloc: Global) -> Arms
    ensures { view_arms result ≡ record { arms = []; other = model.NoStep } }
{
    Arms {
        arms: Vec::new(alloc),
        other: None,
    }
}

// Adds an arm with ranges.
fn push_ranges(
    found: &mut Vec<Arm>,
    known: &Known<'_>,
    ranges: &RangesNode,
    step: Box<Step>,
) -> Result<(), NoMemory>
    ensures { OnOk result (map view_arm found.new.items ≡ map view_arm found.old.items ++ model.MakeArm (spans.range_spans (sources_of known.now) (view_ranges ranges.now)) (view_step step.value) ∷ []) }
{
    let spans = range_spans(known, ranges)?;
    found.push(Arm {
        spans,
        step: Box::into_inner(step),
    })?;
    Ok(())
}

// Keeps the step of a default, where there is none yet.
fn keep_default(found: &mut Option<Box<Step>>, step: Box<Step>)
    ensures { maybe_step found.new ≡ or_step (maybe_step found.old) (model.SomeStep (view_step step.value)) }
{
    if found.is_none() {
        *found = Some(step);
    }
}

/// Adds an arm with that label and that step.
pub fn push_arm(
    found: &mut Arms,
    known: &Known<'_>,
    label: &ArmLabel,
    step: Box<Step>,
) -> Result<(), NoMemory>
    ensures { OnOk result (view_arms found.new ≡ with_label (sources_of known.now) (view_arms found.old) (view_arm_label label.now) (view_step step.value)) }
{
    match label {
        ArmLabel::Ranges { ranges, .. } => {
            push_ranges(&mut found.arms, known, ranges, step)?;
            Ok(())
        }
        ArmLabel::Default(_) => {
            keep_default(&mut found.other, step);
            Ok(())
        }
    }
}

/// Adds a branch with that guard and that step.
pub fn push_branch(
    found: &mut Vec<Branch>,
    sources: &Sources<'_>,
    setting: &Setting<'_>,
    guard: &Option<GuardNode>,
    step: Box<Step>,
) -> Result<(), NoMemory>
    ensures { OnOk result (map view_branch found.new.items ≡ map view_branch found.old.items ++ model.MakeBranch (tree.guard_of (sources_of sources.now) (view_setting setting.now) (option_map view_guard guard.now)) (tree.weight_of (sources_of sources.now) (option_map view_guard guard.now)) (view_step step.value) ∷ []) }
{
    let condition = guard_of(sources, setting, guard)?;
    let weight = weight_of(sources.known(), guard)?;
    found.push(Branch {
        guard: condition,
        weight,
        step: Box::into_inner(step),
    })?;
    Ok(())
}
