//! The guards and weights of branches.
ghost use Rattle.std.specs.Prelude.{◌≡◌, IfOk};
ghost use Rattle.std.specs.Option.{option_map};
ghost use Rattle.pst_ast.specs.ActivityView.{view_guard, view_weight};
ghost use Rattle.pst_elab_rules.specs.Steps as tree;
ghost use Rattle.pst_model.specs.ConstraintTree.{view_constraint};
ghost use Rattle.pst_constraints.specs.PassedOn.{view_setting};
ghost use Rattle.pst_sources.specs.Shown.{sources_of};

use pst_ast::{GuardNode, WeightNode};
use pst_base::NoMemory;
use pst_constraints::{Setting, expression_of};
use pst_model::Constraint;
use pst_sources::{Known, Sources};

/// The condition under which a branch may be taken, where it has one.
pub fn guard_of(
    sources: &Sources<'_>,
    setting: &Setting<'_>,
    guard: &Option<GuardNode>,
) -> Result<Option<Constraint>, NoMemory>
    ensures { IfOk result (λ g. option_map view_constraint g ≡ tree.guard_of (sources_of sources.now) (view_setting setting.now) (option_map view_guard guard.now)) }
{
    match guard {
        Some(GuardNode::Condition { condition, .. }) => {
            Ok(Some(expression_of(sources, setting, condition)?))
        }
        Some(GuardNode::Weight { .. }) => Ok(None),
        None => Ok(None),
    }
}

// A weight that is given.
fn weight_in(known: &Known<'_>, weight: &WeightNode) -> u64
    ensures { result ≡ tree.weight_in (sources_of known.now) (view_weight weight.now) }
{
    known.amount_of(&weight.expr)
}

// The weight of a branch.
fn amount_in(known: &Known<'_>, guard: &Option<GuardNode>) -> u64
    ensures { result ≡ tree.weight_of (sources_of known.now) (option_map view_guard guard.now) }
{
    match guard {
        Some(GuardNode::Condition { weight, .. }) => match weight {
            Some(weight) => weight_in(known, weight),
            None => 1,
        },
        Some(GuardNode::Weight { weight, .. }) => weight_in(known, weight),
        None => 1,
    }
}

/// The weight of a branch, 1 where none is given.
pub fn weight_of(known: &Known<'_>, guard: &Option<GuardNode>) -> Result<u32, NoMemory>
    ensures { IfOk result (λ w. w ≡ tree.weight_of (sources_of known.now) (option_map view_guard guard.now)) }
{
    match u32::try_from(amount_in(known, guard)) {
        Ok(weight) => Ok(weight),
        Err(_) => Err(NoMemory),
    }
}
