//! Functions.
ghost use Rattle.std.specs.Prelude.{◌≡◌, ◌++◌, IfOk, OnOk, map};
ghost use Rattle.std.specs.Option.{option_map};
ghost use Rattle.pst_ast.specs.DeclarationView.{view_answer, view_function as view_function_node, view_next_parameter, view_parameters};
ghost use Rattle.pst_elab_rules.specs.Types as tree;
ghost use Rattle.pst_model.specs.ModelView.{view_function};
ghost use Rattle.pst_ast.specs.Declarations.{next_parameter, parameters_of};
ghost use Rattle.pst_sources.specs.Shown.{sources_of};
ghost use Rattle.pst_type_rules.specs.Sites.{function_of};

use pst_ast::{AnswerNode, FunctionNode, NextParameter, ParametersNode};
use pst_base::NoMemory;
use pst_expr::Span;
use pst_model::Function;
use pst_site_lists::list_functions;
use pst_sources::Known;
use pst_spans::plain_span;

// Adds the spans of the parameters behind the first.
fn add_rest(
    known: &Known<'_>,
    found: &mut Vec<Span>,
    rest: &[NextParameter],
) -> Result<(), NoMemory>
    ensures { OnOk result (found.new.items ≡ found.old.items ++ map (tree.parameter_span (sources_of known.now)) (map next_parameter (map view_next_parameter rest.now))) }
{
    for next in rest {
        found.push(plain_span(known, &next.parameter.plain)?)?;
    }
    Ok(())
}

// The span of each parameter.
fn parameter_spans(
    known: &Known<'_>,
    parameters: &Option<ParametersNode>,
) -> Result<Vec<Span>, NoMemory>
    ensures { IfOk result (λ spans. spans.items ≡ map (tree.parameter_span (sources_of known.now)) (parameters_of (option_map view_parameters parameters.now))) }
{
    let mut found = Vec::new(known.alloc());
    match parameters {
        None => Ok(found),
        Some(parameters) => {
            found.push(plain_span(known, &parameters.first.plain)?)?;
            add_rest(known, &mut found, parameters.rest.as_slice())?;
            Ok(found)
        }
    }
}

// The span of the answer; none of a `void` function.
fn answer_span(known: &Known<'_>, answer: &AnswerNode) -> Result<Option<Span>, NoMemory>
    ensures { IfOk result (λ s. s ≡ tree.answer_span (sources_of known.now) (view_answer answer.now)) }
{
    match answer {
        AnswerNode::Void(_) => Ok(None),
        AnswerNode::Plain(plain) => Ok(Some(plain_span(known, plain)?)),
    }
}

// A function.
fn model_function(known: &Known<'_>, function: &FunctionNode) -> Result<Function, NoMemory>
    ensures { IfOk result (λ f. view_function f ≡ tree.model_function (sources_of known.now) (function_of (view_function_node function.now))) }
{
    let answer = answer_span(known, &function.answer)?;
    let parameters = parameter_spans(known, &function.parameters)?;
    Ok(Function {
        name: function.name.id,
        parameters,
        answer,
    })
}

// Adds functions.
fn add_functions(
    known: &Known<'_>,
    found: &mut Vec<Function>,
    functions: &[&FunctionNode],
) -> Result<(), NoMemory>
    ensures { OnOk result (map view_function found.new.items ≡ map view_function found.old.items ++ map (tree.model_function (sources_of known.now)) (map (λ f. function_of (view_function_node f.now)) functions.now)) }
{
    for function in functions {
        found.push(model_function(known, function)?)?;
    }
    Ok(())
}

/// The functions of a model, in order of declaration.
pub fn model_functions(known: &Known<'_>) -> Result<Vec<Function>, NoMemory>
    ensures { IfOk result (λ fs. map view_function fs.items ≡ tree.model_functions (sources_of known.now)) }
{
    let functions = list_functions(known.alloc(), known.sites().sources())?;
    let mut found = Vec::new(known.alloc());
    add_functions(known, &mut found, functions.as_slice())?;
    Ok(found)
}
