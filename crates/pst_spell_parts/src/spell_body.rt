//! The tokens of bodies.
ghost use Rattle.std.specs.Prelude.{◌≡◌, ◌++◌, OnOk, map};
ghost use Rattle.std.specs.List.{flat_map};
ghost use Rattle.std.specs.Option.{option_map};
ghost use Rattle.pst_ast.specs.Marks.{spell_option};
ghost use Rattle.pst_ast.specs.BodyTree.{BodyStatementAssign, BodyStatementLocal};
ghost use Rattle.pst_ast.specs.SharedView.{view_plain};
ghost use Rattle.pst_ast.specs.BodyView.{view_arguments, view_body, view_body_statement, view_boxed_value, view_call, view_source, view_value};
ghost use Rattle.pst_ast.specs.BodySpelling.{spell_arguments, spell_body, spell_body_statement, spell_call, spell_source, spell_value};

use crate::marks::{push_mark, push_name};
use crate::spell_expression::add_expr;
use crate::spell_shared::{add_next_exprs, add_plain, add_repeat, add_word_and_expr};
use pst_ast::{
    ArgumentsNode, BodyNode, BodyStatement, CallNode, Name, PlainNode, SourceNode, ValueNode,
};
use pst_base::{NoMemory, Place};
use pst_token::{Kind, Token};

// body = "exec" "body" "{" { bstmt } "}"
pub fn add_body(tokens: &mut Vec<Token>, body: &BodyNode) -> Result<(), NoMemory>
    ensures { OnOk result (tokens.new.items ≡ tokens.old.items ++ spell_body (view_body body.now)) }
{
    push_mark(tokens, Kind::Exec, body.exec)?;
    push_mark(tokens, Kind::Body, body.body)?;
    push_mark(tokens, Kind::LeftBrace, body.left_brace)?;
    add_body_statements(tokens, body.statements.as_slice())?;
    push_mark(tokens, Kind::RightBrace, body.right_brace)
}

// bstmt
#[cycle(body_spelling)]
fn add_body_statement(tokens: &mut Vec<Token>, statement: &BodyStatement) -> Result<(), NoMemory>
    ensures { OnOk result (tokens.new.items ≡ tokens.old.items ++ spell_body_statement (view_body_statement statement.now)) }
{
    match statement {
        BodyStatement::Empty(place) => push_mark(tokens, Kind::Semicolon, *place),
        BodyStatement::Local {
            plain,
            name,
            value,
            semicolon,
        } => add_local(tokens, plain, *name, value, *semicolon),
        BodyStatement::Assign {
            name,
            equal,
            source,
            semicolon,
        } => add_assign(tokens, *name, *equal, source, *semicolon),
        BodyStatement::Call { call, semicolon } => {
            add_call(tokens, call)?;
            push_mark(tokens, Kind::Semicolon, *semicolon)
        }
        BodyStatement::Block {
            left_brace,
            statements,
            right_brace,
        } => {
            push_mark(tokens, Kind::LeftBrace, *left_brace)?;
            add_body_statements(tokens, statements.as_slice())?;
            push_mark(tokens, Kind::RightBrace, *right_brace)
        }
        BodyStatement::If {
            if_,
            left_parenthesis,
            condition,
            right_parenthesis,
            then,
        } => {
            add_word_and_expr(
                tokens,
                Kind::If,
                *if_,
                *left_parenthesis,
                condition,
                *right_parenthesis,
            )?;
            add_body_statement(tokens, then)
        }
        BodyStatement::IfElse {
            if_,
            left_parenthesis,
            condition,
            right_parenthesis,
            then,
            else_,
            otherwise,
        } => {
            add_word_and_expr(
                tokens,
                Kind::If,
                *if_,
                *left_parenthesis,
                condition,
                *right_parenthesis,
            )?;
            add_body_statement(tokens, then)?;
            push_mark(tokens, Kind::Else, *else_)?;
            add_body_statement(tokens, otherwise)
        }
        BodyStatement::Repeat {
            repeat,
            left_parenthesis,
            index,
            count,
            right_parenthesis,
            statement,
        } => {
            add_repeat(
                tokens,
                *repeat,
                *left_parenthesis,
                index,
                count,
                *right_parenthesis,
            )?;
            add_body_statement(tokens, statement)
        }
    }
}

// Adds the tokens of each in order.
#[cycle(body_spelling)]
fn add_body_statements(
    tokens: &mut Vec<Token>,
    statements: &[BodyStatement],
) -> Result<(), NoMemory>
    ensures { OnOk result (tokens.new.items ≡ tokens.old.items ++ flat_map spell_body_statement (map view_body_statement statements.now)) }
{
    for statement in statements {
        add_body_statement(tokens, statement)?;
    }
    Ok(())
}

// plain NAME [ "=" source ] ";"
fn add_local(
    tokens: &mut Vec<Token>,
    plain: &PlainNode,
    name: Name,
    value: &Option<Box<ValueNode>>,
    semicolon: Place,
) -> Result<(), NoMemory>
    ensures { OnOk result (tokens.new.items ≡ tokens.old.items ++ spell_body_statement (BodyStatementLocal (view_plain plain.now) name (option_map view_boxed_value value.now) semicolon)) }
{
    add_plain(tokens, plain)?;
    push_name(tokens, name)?;
    add_optional_value(tokens, value)?;
    push_mark(tokens, Kind::Semicolon, semicolon)
}

// NAME "=" source ";"
fn add_assign(
    tokens: &mut Vec<Token>,
    name: Name,
    equal: Place,
    source: &SourceNode,
    semicolon: Place,
) -> Result<(), NoMemory>
    ensures { OnOk result (tokens.new.items ≡ tokens.old.items ++ spell_body_statement (BodyStatementAssign name equal (view_source source.now) semicolon)) }
{
    push_name(tokens, name)?;
    push_mark(tokens, Kind::Equal, equal)?;
    add_source(tokens, source)?;
    push_mark(tokens, Kind::Semicolon, semicolon)
}

// "=" source
fn add_value(tokens: &mut Vec<Token>, value: &ValueNode) -> Result<(), NoMemory>
    ensures { OnOk result (tokens.new.items ≡ tokens.old.items ++ spell_value (view_value value.now)) }
{
    push_mark(tokens, Kind::Equal, value.equal)?;
    add_source(tokens, &value.source)
}

// Adds the tokens of a part that may be left out.
fn add_optional_value(
    tokens: &mut Vec<Token>,
    part: &Option<Box<ValueNode>>,
) -> Result<(), NoMemory>
    ensures { OnOk result (tokens.new.items ≡ tokens.old.items ++ spell_option spell_value (option_map view_boxed_value part.now)) }
{
    match part {
        None => Ok(()),
        Some(part) => add_value(tokens, part),
    }
}

// source = call | expr
fn add_source(tokens: &mut Vec<Token>, source: &SourceNode) -> Result<(), NoMemory>
    ensures { OnOk result (tokens.new.items ≡ tokens.old.items ++ spell_source (view_source source.now)) }
{
    match source {
        SourceNode::Call(call) => add_call(tokens, call),
        SourceNode::Expr(expr) => add_expr(tokens, expr),
    }
}

// call = NAME "(" [ expr { "," expr } ] ")"
fn add_call(tokens: &mut Vec<Token>, call: &CallNode) -> Result<(), NoMemory>
    ensures { OnOk result (tokens.new.items ≡ tokens.old.items ++ spell_call (view_call call.now)) }
{
    push_name(tokens, call.name)?;
    push_mark(tokens, Kind::LeftParenthesis, call.left_parenthesis)?;
    add_optional_arguments(tokens, &call.arguments)?;
    push_mark(tokens, Kind::RightParenthesis, call.right_parenthesis)
}

// expr { "," expr }
fn add_arguments(tokens: &mut Vec<Token>, arguments: &ArgumentsNode) -> Result<(), NoMemory>
    ensures { OnOk result (tokens.new.items ≡ tokens.old.items ++ spell_arguments (view_arguments arguments.now)) }
{
    add_expr(tokens, &arguments.first)?;
    add_next_exprs(tokens, arguments.rest.as_slice())
}

// Adds the tokens of a part that may be left out.
fn add_optional_arguments(
    tokens: &mut Vec<Token>,
    part: &Option<ArgumentsNode>,
) -> Result<(), NoMemory>
    ensures { OnOk result (tokens.new.items ≡ tokens.old.items ++ spell_option spell_arguments (option_map view_arguments part.now)) }
{
    match part {
        None => Ok(()),
        Some(part) => add_arguments(tokens, part),
    }
}
