//! Enums and functions. A parser stands at a place, and `depth` derivations that count are open at
//! the tokens of its part; it answers the part and the place behind it.
ghost use Rattle.pst_ast.specs.DeclarationView.{view_enum_value, view_enum_item, view_next_enum_item, view_enum, view_answer, view_parameter, view_next_parameter, view_parameters, view_function};
ghost use Rattle.pst_parse_part.specs.Choices.{optional};
ghost use Rattle.pst_parse_member.specs.Families.{enum_item_family, answer_family, enum_family, function_rest_family, function_family, view_function_rest, enum_value_family, next_parameter_family, next_enum_item_family, parameter_family, parameters_family};
ghost use Rattle.pst_parse_part.specs.Families.{view_list};
ghost use Rattle.pst_parse_expr.specs.Constraints.{is_at, is_other};
ghost use Rattle.pst_reading.specs.Lists.{listed};
ghost use Rattle.pst_reading.specs.Reads.{Reads};
ghost use Rattle.pst_token.specs.declared.kind.Kind.TheVariants as kind;
ghost use Rattle.std.specs.Option.{option_map};
ghost use Rattle.std.specs.Prelude.{◌≤◌, ◌-◌, length};

use crate::keeping::both;
use pst_ast::{
    AnswerNode, EnumItem, EnumNode, EnumValue, FunctionNode, NextEnumItem, NextParameter,
    ParameterNode, ParametersNode, SyntaxFault,
};
use pst_base::Place;
use pst_parse_expr::shared::outermost;
use pst_parse_part::marks::maybe_mark;
use pst_parse_part::plain::plain;
use pst_reading::{expect, expect_name, is, push};
use pst_token::{Kind, Token};
use std::alloc::Global;

// What stands behind the name of a function.
#[derive(Drop)]
pub struct FunctionRest {
    left_parenthesis: Place,
    parameters: Option<ParametersNode>,
    right_parenthesis: Place,
    semicolon: Place,
}

// The value of an item.
fn enum_value(
    alloc: Global,
    tokens: &[Token],
    at: usize,
    depth: u32,
) -> Result<(EnumValue, usize), SyntaxFault>
    requires inside { at ≤ length tokens.now }
    requires nesting { depth ≤ 64 }
    ensures { Reads view_enum_value (enum_value_family depth) tokens.now at at 1 result }
{
    let equal = expect(tokens, at, Kind::Equal, depth, 0)?;
    let (expr, after_expr) = outermost(alloc, tokens, at + 1, depth)?;
    Ok((EnumValue { equal, expr }, after_expr))
}

// The value of an item, where it is written.
fn maybe_enum_value(
    alloc: Global,
    tokens: &[Token],
    at: usize,
    depth: u32,
) -> Result<(Option<EnumValue>, usize), SyntaxFault>
    requires inside { at ≤ length tokens.now }
    requires nesting { depth ≤ 64 }
    ensures { Reads (option_map view_enum_value) (optional (is_at kind.Equal) (enum_value_family depth)) tokens.now at at 0 result }
{
    if !is(tokens, at, Kind::Equal) {
        return Ok((None, at));
    }
    let (enum_value, after) = enum_value(alloc, tokens, at, depth)?;
    Ok((Some(enum_value), after))
}

// An item of an enum.
fn enum_item(
    alloc: Global,
    tokens: &[Token],
    at: usize,
    depth: u32,
) -> Result<(EnumItem, usize), SyntaxFault>
    requires inside { at ≤ length tokens.now }
    requires nesting { depth ≤ 64 }
    ensures { Reads view_enum_item (enum_item_family depth) tokens.now at at 1 result }
{
    let name = expect_name(tokens, at, depth, 0)?;
    let (value, after_value) = maybe_enum_value(alloc, tokens, at + 1, depth)?;
    Ok((EnumItem { name, value }, after_value))
}

// An item behind a comma.
fn next_enum_item(
    alloc: Global,
    tokens: &[Token],
    at: usize,
    depth: u32,
) -> Result<(NextEnumItem, usize), SyntaxFault>
    requires inside { at ≤ length tokens.now }
    requires nesting { depth ≤ 64 }
    ensures { Reads view_next_enum_item (next_enum_item_family depth) tokens.now at at 1 result }
{
    let comma = expect(tokens, at, Kind::Comma, depth, 0)?;
    let (item, after_item) = enum_item(alloc, tokens, at + 1, depth)?;
    Ok((NextEnumItem { comma, item }, after_item))
}

// Items behind commas.
fn next_enum_items(
    alloc: Global,
    tokens: &[Token],
    at: usize,
    depth: u32,
) -> Result<(Vec<NextEnumItem>, usize), SyntaxFault>
    requires inside { at ≤ length tokens.now }
    requires nesting { depth ≤ 64 }
    requires behind { 1 ≤ at }
    ensures { Reads (view_list view_next_enum_item) (listed (is_at kind.Comma) (next_enum_item_family depth)) tokens.now (at - 1) at 0 result }
{
    let mut others = Vec::new(alloc);
    let mut place = at;
    'others: while is(tokens, place, Kind::Comma) {
        let (item, after) = next_enum_item(alloc, tokens, place, depth)?;
        push(&mut others, item)?;
        place = after;
    }
    Ok((others, place))
}

/// An enum.
pub fn enum_(
    alloc: Global,
    tokens: &[Token],
    at: usize,
    depth: u32,
) -> Result<(EnumNode, usize), SyntaxFault>
    requires inside { at ≤ length tokens.now }
    requires nesting { depth ≤ 64 }
    ensures { Reads view_enum (enum_family depth) tokens.now at at 1 result }
{
    let enum_ = expect(tokens, at, Kind::Enum, depth, 0)?;
    let name = expect_name(tokens, at + 1, depth, 0)?;
    let left_brace = expect(tokens, at + 2, Kind::LeftBrace, depth, 0)?;
    let (first, after_first) = enum_item(alloc, tokens, at + 3, depth)?;
    let (rest, after_rest) = next_enum_items(alloc, tokens, after_first, depth)?;
    let right_brace = expect(tokens, after_rest, Kind::RightBrace, depth, 0)?;
    Ok((
        EnumNode {
            enum_,
            name,
            left_brace,
            first,
            rest,
            right_brace,
        },
        after_rest + 1,
    ))
}

// The type of an answer.
fn answer(
    alloc: Global,
    tokens: &[Token],
    at: usize,
    depth: u32,
) -> Result<(AnswerNode, usize), SyntaxFault>
    requires inside { at ≤ length tokens.now }
    requires nesting { depth ≤ 64 }
    ensures { Reads view_answer (answer_family depth) tokens.now at at 1 result }
{
    if is(tokens, at, Kind::Void) {
        let place = expect(tokens, at, Kind::Void, depth, 0)?;
        return Ok((AnswerNode::Void(place), at + 1));
    }
    let (plain, after) = plain(alloc, tokens, at, depth)?;
    Ok((AnswerNode::Plain(plain), after))
}

// A parameter.
fn parameter(
    alloc: Global,
    tokens: &[Token],
    at: usize,
    depth: u32,
) -> Result<(ParameterNode, usize), SyntaxFault>
    requires inside { at ≤ length tokens.now }
    requires nesting { depth ≤ 64 }
    ensures { Reads view_parameter (parameter_family depth) tokens.now at at 1 result }
{
    let (input, after_input) = maybe_mark(tokens, at, Kind::Input, depth)?;
    let (head, after_plain) = plain(alloc, tokens, after_input, depth)?;
    let last = expect_name(tokens, after_plain, depth, 0);
    let (plain, name) = both(head, last)?;
    Ok((ParameterNode { input, plain, name }, after_plain + 1))
}

// A parameter behind a comma.
fn next_parameter(
    alloc: Global,
    tokens: &[Token],
    at: usize,
    depth: u32,
) -> Result<(NextParameter, usize), SyntaxFault>
    requires inside { at ≤ length tokens.now }
    requires nesting { depth ≤ 64 }
    ensures { Reads view_next_parameter (next_parameter_family depth) tokens.now at at 1 result }
{
    let comma = expect(tokens, at, Kind::Comma, depth, 0)?;
    let (parameter, after_parameter) = parameter(alloc, tokens, at + 1, depth)?;
    Ok((NextParameter { comma, parameter }, after_parameter))
}

// Parameters behind commas.
fn next_parameters(
    alloc: Global,
    tokens: &[Token],
    at: usize,
    depth: u32,
) -> Result<(Vec<NextParameter>, usize), SyntaxFault>
    requires inside { at ≤ length tokens.now }
    requires nesting { depth ≤ 64 }
    requires behind { 1 ≤ at }
    ensures { Reads (view_list view_next_parameter) (listed (is_at kind.Comma) (next_parameter_family depth)) tokens.now (at - 1) at 0 result }
{
    let mut others = Vec::new(alloc);
    let mut place = at;
    'others: while is(tokens, place, Kind::Comma) {
        let (parameter, after) = next_parameter(alloc, tokens, place, depth)?;
        push(&mut others, parameter)?;
        place = after;
    }
    Ok((others, place))
}

// Parameters.
fn parameters(
    alloc: Global,
    tokens: &[Token],
    at: usize,
    depth: u32,
) -> Result<(ParametersNode, usize), SyntaxFault>
    requires inside { at ≤ length tokens.now }
    requires nesting { depth ≤ 64 }
    ensures { Reads view_parameters (parameters_family depth) tokens.now at at 1 result }
{
    let (head, after_first) = parameter(alloc, tokens, at, depth)?;
    let others = next_parameters(alloc, tokens, after_first, depth);
    let (first, (rest, after_rest)) = both(head, others)?;
    Ok((ParametersNode { first, rest }, after_rest))
}

// Parameters, where there are any.
fn maybe_parameters(
    alloc: Global,
    tokens: &[Token],
    at: usize,
    depth: u32,
) -> Result<(Option<ParametersNode>, usize), SyntaxFault>
    requires inside { at ≤ length tokens.now }
    requires nesting { depth ≤ 64 }
    ensures { Reads (option_map view_parameters) (optional (is_other kind.RightParenthesis) (parameters_family depth)) tokens.now at at 0 result }
{
    if is(tokens, at, Kind::RightParenthesis) {
        return Ok((None, at));
    }
    let (parameters, after) = parameters(alloc, tokens, at, depth)?;
    Ok((Some(parameters), after))
}

// What stands behind the name of a function: its parameters, and the semicolon.
fn function_rest(
    alloc: Global,
    tokens: &[Token],
    at: usize,
    depth: u32,
) -> Result<(FunctionRest, usize), SyntaxFault>
    requires inside { at ≤ length tokens.now }
    requires nesting { depth ≤ 64 }
    ensures { Reads view_function_rest (function_rest_family depth) tokens.now at at 1 result }
{
    let left_parenthesis = expect(tokens, at, Kind::LeftParenthesis, depth, 0)?;
    let (listed, after_parameters) = maybe_parameters(alloc, tokens, at + 1, depth)?;
    let closing = expect(tokens, after_parameters, Kind::RightParenthesis, depth, 0);
    let (front, right_parenthesis) = both(listed, closing)?;
    let last = expect(tokens, after_parameters + 1, Kind::Semicolon, depth, 0);
    let (parameters, semicolon) = both(front, last)?;
    let rest = FunctionRest {
        left_parenthesis,
        parameters,
        right_parenthesis,
        semicolon,
    };
    Ok((rest, after_parameters + 2))
}

/// A function.
pub fn function(
    alloc: Global,
    tokens: &[Token],
    at: usize,
    depth: u32,
) -> Result<(FunctionNode, usize), SyntaxFault>
    requires inside { at ≤ length tokens.now }
    requires nesting { depth ≤ 64 }
    ensures { Reads view_function (function_family depth) tokens.now at at 1 result }
{
    let import = expect(tokens, at, Kind::Import, depth, 0)?;
    let (target, after_target) = maybe_mark(tokens, at + 1, Kind::Target, depth)?;
    let function = expect(tokens, after_target, Kind::Function, depth, 0)?;
    let (answered, after_answer) = answer(alloc, tokens, after_target + 1, depth)?;
    let named = expect_name(tokens, after_answer, depth, 0);
    let (front, name) = both(answered, named)?;
    let behind = function_rest(alloc, tokens, after_answer + 1, depth);
    let (answer, (rest, after_rest)) = both(front, behind)?;
    let whole = FunctionNode {
        import,
        target,
        function,
        answer,
        name,
        left_parenthesis: rest.left_parenthesis,
        parameters: rest.parameters,
        right_parenthesis: rest.right_parenthesis,
        semicolon: rest.semicolon,
    };
    Ok((whole, after_rest))
}
