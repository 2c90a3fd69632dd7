//! What calls break.
ghost use Rattle.std.specs.Prelude.{◌≡◌, length, map};
ghost use Rattle.std.specs.Option.{option_map};
ghost use Rattle.pst_ast.specs.BodyView.{view_arguments};
ghost use Rattle.pst_ast.specs.DeclarationView.{view_answer, view_function, view_unit};
ghost use Rattle.pst_ast.specs.Uses.{arguments_of};
ghost use Rattle.pst_type_rules.specs.Sites.{function_of};
ghost use Rattle.pst_use_rules.specs.Found;

use crate::facts::Facts;
use pst_ast::{AnswerNode, ArgumentsNode, Finding, FunctionNode, Name, ParametersNode};
use pst_base::Place;
use pst_name_rules::unless;

// How many arguments there are.
fn count_of_arguments(arguments: &Option<ArgumentsNode>) -> u64
    ensures { result ≡ length (arguments_of (option_map view_arguments arguments.now)) }
{
    match arguments {
        None => 0,
        Some(arguments) => arguments.rest.len() as u64 + 1,
    }
}

// How many parameters there are.
fn count_of_parameters(function: &FunctionNode) -> u64
    ensures { result ≡ length (function_of (view_function function.now)).parameters }
{
    match &function.parameters {
        None => 0,
        Some(ParametersNode { rest, .. }) => rest.len() as u64 + 1,
    }
}

// Whether a function gives no value.
fn is_void(answer: &AnswerNode) -> bool
    ensures { result ≡ Found.is_void (view_answer answer.now) }
{
    match answer {
        AnswerNode::Void(_) => true,
        AnswerNode::Plain(_) => false,
    }
}

// Whether a call of a function, where there is one, has the right number of arguments, and a value
// where one is needed.
fn passes_right(arguments: u64, needed: bool, function: Option<&FunctionNode>) -> bool
    ensures { result ≡ Found.passes_right arguments needed (option_map (λ f. function_of (view_function f.now)) function.entry) }
{
    match function {
        None => true,
        Some(function) => {
            arguments == count_of_parameters(function) && !(needed && is_void(&function.answer))
        }
    }
}

/// Rule 21 at a call.
pub fn call_finding(
    facts: &Facts<'_>,
    component: Option<Place>,
    name: Name,
    arguments: &Option<ArgumentsNode>,
    needed: bool,
) -> Option<Finding>
    ensures { result ≡ Found.passes_found (map view_unit facts.now.sites.now) facts.now.index.now component name (length (arguments_of (option_map view_arguments arguments.now))) needed }
{
    let arguments = count_of_arguments(arguments);
    match facts.index.type_here(component, name.id) {
        None => None,
        Some(found) => {
            let function = facts.sites.function_at(found.name.place);
            unless(passes_right(arguments, needed, function), name.place, 21)
        }
    }
}
