//! Calls, and what a local's value comes from.
ghost use Rattle.std.specs.Prelude.{◌≡◌, ◌++◌, IfOk, OnOk, map};
ghost use Rattle.std.specs.Option.{option_map};
ghost use Rattle.pst_ast.specs.BodyView.{view_boxed_value, view_call, view_source as view_source_node};
ghost use Rattle.pst_ast.specs.SharedView.{view_next_expr};
ghost use Rattle.pst_elab_rules.specs.Bodies as tree;
ghost use Rattle.pst_model.specs.ConstraintTree.{view_constraint};
ghost use Rattle.pst_model.specs.ModelView.{view_source};
ghost use Rattle.pst_path_readings.specs.Set.{view_setting};
ghost use Rattle.pst_ast.specs.Uses.{next_expr};
ghost use Rattle.pst_sources.specs.Shown.{sources_of};
ghost use Rattle.pst_terms.specs.Readings as reading;

use pst_ast::{CallNode, NextExpr, SourceNode, ValueNode};
use pst_base::NoMemory;
use pst_constraints::expression_of;
use pst_model::{Constraint, Source};
use pst_path_readings::Setting;
use pst_sources::Sources;
use pst_type_numbers::Numbered;

/// The number of the function that is called.
pub fn function_called(
    numbered: &Numbered<'_>,
    setting: &Setting<'_>,
    call: &CallNode,
) -> Result<u32, NoMemory>
    ensures { IfOk result (λ n. n ≡ tree.function_called (sources_of numbered.now) (view_setting setting.now) (view_call call.now)) }
{
    let index = numbered.sources().known().index();
    match index.type_here(setting.at.component, call.name.id) {
        None => Ok(0),
        Some(function) => numbered.function_number(&function),
    }
}

// Adds the arguments behind the first.
fn add_arguments(
    sources: &Sources<'_>,
    setting: &Setting<'_>,
    found: &mut Vec<Constraint>,
    rest: &[NextExpr],
) -> Result<(), NoMemory>
    ensures { OnOk result (map view_constraint found.new.items ≡ map view_constraint found.old.items ++ map (reading.expression_of (sources_of sources.now) (view_setting setting.now)) (map next_expr (map view_next_expr rest.now))) }
{
    for next in rest {
        found.push(expression_of(sources, setting, &next.expr)?)?;
    }
    Ok(())
}

/// The arguments of a call.
pub fn arguments_in(
    sources: &Sources<'_>,
    setting: &Setting<'_>,
    call: &CallNode,
) -> Result<Vec<Constraint>, NoMemory>
    ensures { IfOk result (λ a. map view_constraint a.items ≡ tree.arguments_in (sources_of sources.now) (view_setting setting.now) (view_call call.now)) }
{
    let mut found = Vec::new(sources.known().alloc());
    match &call.arguments {
        None => Ok(found),
        Some(arguments) => {
            found.push(expression_of(sources, setting, &arguments.first)?)?;
            add_arguments(sources, setting, &mut found, arguments.rest.as_slice())?;
            Ok(found)
        }
    }
}

/// What a value comes from.
pub fn source_of(
    numbered: &Numbered<'_>,
    setting: &Setting<'_>,
    source: &SourceNode,
) -> Result<Source, NoMemory>
    ensures { IfOk result (λ s. view_source s ≡ tree.source_of (sources_of numbered.now) (view_setting setting.now) (view_source_node source.now)) }
{
    match source {
        SourceNode::Call(call) => {
            let function = function_called(numbered, setting, call)?;
            let arguments = arguments_in(numbered.sources(), setting, call)?;
            Ok(Source::Answer {
                function,
                arguments,
            })
        }
        SourceNode::Expr(expr) => Ok(Source::Value(expression_of(
            numbered.sources(),
            setting,
            expr,
        )?)),
    }
}

/// What the first value of a local comes from, where it has one.
pub fn value_source(
    numbered: &Numbered<'_>,
    setting: &Setting<'_>,
    value: &Option<Box<ValueNode>>,
) -> Result<Option<Source>, NoMemory>
    ensures { IfOk result (λ s. option_map view_source s ≡ option_map (tree.value_source (sources_of numbered.now) (view_setting setting.now)) (option_map view_boxed_value value.now)) }
{
    match value {
        None => Ok(None),
        Some(value) => Ok(Some(source_of(numbered, setting, &value.source)?)),
    }
}
