//! Single steps of bodies.
ghost use Rattle.std.specs.Prelude.{◌≡◌, IfOk, OnOk, map};
ghost use Rattle.std.specs.Option.{option_map};
ghost use Rattle.pst_ast.specs.BodyView.{view_boxed_value, view_call, view_source};
ghost use Rattle.pst_ast.specs.SharedView.{view_plain};
ghost use Rattle.pst_elab_rules.specs.Bodies as tree;
ghost use Rattle.pst_model.specs.BodyTree as body;
ghost use Rattle.pst_model.specs.ConstraintTree.{view_constraint};
ghost use Rattle.pst_model.specs.ModelView.{view_body_step};
ghost use Rattle.pst_path_readings.specs.Set.{view_setting};
ghost use Rattle.pst_sources.specs.Shown.{sources_of};
ghost use Rattle.pst_body_parts.specs.Listed.{declaration_of, row_of, with_local};

use crate::calls::{arguments_in, function_called, source_of, value_source};
use crate::locals::local_of;
use crate::scopes::{enter_local, leave_locals};
use pst_ast::{CallNode, Name, PlainNode, SourceNode, ValueNode};
use pst_base::NoMemory;
use pst_model::{BodyStep, Constraint};
use pst_path_readings::Setting;
use pst_spans::plain_span;
use pst_type_numbers::Numbered;

// The number of a local where it is declared: its scope begins behind its declaration.
fn local_declared(
    numbered: &Numbered<'_>,
    setting: &mut Setting<'_>,
    name: Name,
) -> Result<u32, NoMemory>
    ensures number { IfOk result (λ n. n ≡ tree.local_of (sources_of numbered.now) (with_local (view_setting setting.old) name) name) }
    ensures kept { OnOk result (view_setting setting.new ≡ view_setting setting.old) }
{
    enter_local(setting, name)?;
    let number = local_of(numbered.sources(), setting, name)?;
    leave_locals(setting, 1);
    Ok(number)
}

/// A declaration of a local.
pub fn declare(
    numbered: &Numbered<'_>,
    setting: &mut Setting<'_>,
    plain: &PlainNode,
    name: Name,
    value: &Option<Box<ValueNode>>,
) -> Result<BodyStep, NoMemory>
    ensures step { IfOk result (λ step. view_body_step step ≡ declaration_of (sources_of numbered.now) (view_setting setting.old) (view_plain plain.now) name (option_map view_boxed_value value.now)) }
    ensures kept { OnOk result (view_setting setting.new ≡ view_setting setting.old) }
{
    let local = local_declared(numbered, setting, name)?;
    let range = plain_span(numbered.sources().known(), plain)?;
    let first = value_source(numbered, setting, value)?;
    Ok(BodyStep::Declare {
        local,
        range,
        value: first,
    })
}

/// An assignment.
pub fn assign(
    numbered: &Numbered<'_>,
    setting: &Setting<'_>,
    name: Name,
    source: &SourceNode,
) -> Result<BodyStep, NoMemory>
    ensures { IfOk result (λ step. view_body_step step ≡ body.Assign (tree.local_of (sources_of numbered.now) (view_setting setting.now) name) (tree.source_of (sources_of numbered.now) (view_setting setting.now) (view_source source.now))) }
{
    let local = local_of(numbered.sources(), setting, name)?;
    let value = source_of(numbered, setting, source)?;
    Ok(BodyStep::Assign { local, value })
}

/// A call whose answer is dropped.
pub fn call_step(
    numbered: &Numbered<'_>,
    setting: &Setting<'_>,
    call: &CallNode,
) -> Result<BodyStep, NoMemory>
    ensures { IfOk result (λ step. view_body_step step ≡ body.Call (tree.function_called (sources_of numbered.now) (view_setting setting.now) (view_call call.now)) (tree.arguments_in (sources_of numbered.now) (view_setting setting.now) (view_call call.now))) }
{
    let function = function_called(numbered, setting, call)?;
    let arguments = arguments_in(numbered.sources(), setting, call)?;
    Ok(BodyStep::Call {
        function,
        arguments,
    })
}

/// A conditional part of its parts.
pub fn if_of(condition: Constraint, steps: Vec<BodyStep>, others: Vec<BodyStep>) -> BodyStep
    ensures { view_body_step result ≡ body.If (view_constraint condition) (row_of (map view_body_step steps.items)) (row_of (map view_body_step others.items)) }
{
    BodyStep::If {
        condition,
        yes: steps,
        no: others,
    }
}

/// A repetition of its parts.
pub fn repeat_of(count: Constraint, steps: Vec<BodyStep>) -> BodyStep
    ensures { view_body_step result ≡ body.Repeat (view_constraint count) (row_of (map view_body_step steps.items)) }
{
    BodyStep::Repeat { count, body: steps }
}
