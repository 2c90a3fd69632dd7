//! The arms of matches.
ghost use Rattle.std.specs.Prelude.{◌≡◌, ◌++◌, ◌∷◌, [], IfOk, OnOk, map};
ghost use Rattle.pst_ast.specs.ActivityView.{view_arm, view_arm_label};
ghost use Rattle.pst_ast.specs.Uses.{arm_label};
ghost use Rattle.pst_type_rules.specs.TypeRules.{ranges_of_label, ranges_of_arms};
ghost use Rattle.pst_evaluate.specs.Kept.{known_in};
ghost use Rattle.pst_range_rules.specs.Facts.{constant_at};
ghost use Rattle.pst_range_rules.specs.Found.{arms_found};
ghost use Rattle.pst_range_rules.specs.Meetings as tree;
ghost use Rattle.pst_range_rules.specs.Spans.{spans_of};

use crate::facts::RangeFacts;
use crate::meeting::meeting_in;
use crate::reversed::reversed_in;
use crate::span::{RangeSpan, add_ranges};
use pst_ast::{ArmLabel, ArmNode, Environment, Finding};
use pst_base::NoMemory;
use pst_name_rules::earlier;

// Adds the ranges of a label.
fn add_label(
    facts: &RangeFacts,
    at: &Environment,
    found: &mut Vec<RangeSpan>,
    label: &ArmLabel,
) -> Result<(), NoMemory>
    ensures { OnOk result (found.new.items ≡ found.old.items ++ spans_of (constant_at facts.now at.now) (ranges_of_label (view_arm_label label.now))) }
{
    match label {
        ArmLabel::Ranges { ranges, .. } => add_ranges(facts, at, found, ranges),
        ArmLabel::Default(_) => Ok(()),
    }
}

// Adds the ranges of arms.
fn add_arms(
    facts: &RangeFacts,
    at: &Environment,
    found: &mut Vec<RangeSpan>,
    arms: &[ArmNode],
) -> Result<(), NoMemory>
    ensures { OnOk result (found.new.items ≡ found.old.items ++ spans_of (constant_at facts.now at.now) (ranges_of_arms (map (λ a. arm_label (view_arm a)) arms.now))) }
{
    for arm in arms {
        add_label(facts, at, found, &arm.label)?;
    }
    Ok(())
}

// The ranges of all arms.
fn ranges_of(
    facts: &RangeFacts,
    at: &Environment,
    first: &ArmNode,
    rest: &[ArmNode],
) -> Result<Vec<RangeSpan>, NoMemory>
    ensures { IfOk result (λ r. r.items ≡ spans_of (constant_at facts.now at.now) (ranges_of_arms (arm_label (view_arm first.now) ∷ map (λ a. arm_label (view_arm a)) rest.now))) }
{
    let mut found = Vec::new(facts.alloc);
    add_label(facts, at, &mut found, &first.label)?;
    add_arms(facts, at, &mut found, rest)?;
    Ok(found)
}

// Whether a label is `default`.
fn is_default(label: &ArmLabel) -> bool
    ensures { result ≡ tree.is_default (view_arm_label label.now) }
{
    match label {
        ArmLabel::Ranges { .. } => false,
        ArmLabel::Default(_) => true,
    }
}

// Rule 13 at a default behind another.
fn later_default(seen: bool, label: &ArmLabel) -> Option<Finding>
    ensures { result ≡ tree.later_default seen (view_arm_label label.now) }
{
    match label {
        ArmLabel::Default(place) if seen => Some(Finding {
            place: *place,
            rule: 13,
        }),
        _ => None,
    }
}

// Rule 13 at the first default behind another.
fn defaults_in(first: &ArmNode, rest: &[ArmNode]) -> Option<Finding>
    ensures { result ≡ tree.defaults_in (arm_label (view_arm first.now) ∷ map (λ a. arm_label (view_arm a)) rest.now) }
{
    let mut seen = is_default(&first.label);
    let mut found = None;
    for arm in rest {
        found = earlier(found, later_default(seen, &arm.label));
        seen = seen || is_default(&arm.label);
    }
    found
}

/// Rule 10 or 13 at the arms of a match, the first of them: a range is reversed, a range has a value
/// in common with an earlier one, or a default stands behind another.
pub fn arms_finding(
    facts: &RangeFacts,
    at: &Environment,
    first: &ArmNode,
    rest: &[ArmNode],
) -> Result<Option<Finding>, NoMemory>
    ensures { IfOk result (λ r. r ≡ arms_found facts.now.index.now facts.now.names.now (known_in facts.now.enums.now.items) at.now (arm_label (view_arm first.now) ∷ map (λ a. arm_label (view_arm a)) rest.now)) }
{
    let ranges = ranges_of(facts, at, first, rest)?;
    let reversed = reversed_in(ranges.as_slice());
    let meeting = meeting_in(facts.alloc, ranges.as_slice())?;
    Ok(earlier(earlier(reversed, meeting), defaults_in(first, rest)))
}
