//! The uses in bodies.
ghost use Rattle.std.specs.Prelude.{◌≡◌, ◌≤◌, OnOk, IfOk, drop, length, map};
ghost use Rattle.std.specs.List.{flat_map, fold};
ghost use Rattle.std.specs.Option.{option_map};
ghost use Rattle.pst_ast.specs.BodyView.{view_arguments, view_body, view_body_statement, view_boxed_value, view_call, view_source};
ghost use Rattle.pst_ast.specs.SharedView.{view_next_expr};
ghost use Rattle.pst_ast.specs.Uses.{InBody, arguments_of, behind_statement, body_list_uses, body_statement_uses, body_uses, call_uses, next_expr, option_uses, source_uses, value_uses, whole_uses, with_index};
ghost use Rattle.pst_walk_body.specs.Locals.{without_inner};

use pst_ast::{
    ArgumentsNode, BodyNode, BodyStatement, CallNode, Environment, LabelNode, NextExpr, SourceNode,
    ValueNode,
};
use pst_base::NoMemory;
use pst_walk_parts::show_shared::{show_plain, show_whole};
use pst_walk_parts::{Role, Visitor};

// Shows the uses in a body.
pub fn show_body<V: Visitor>(
    visitor: &mut V,
    at: &mut Environment,
    body: &BodyNode,
) -> Result<(), NoMemory>
    ensures uses { OnOk result (visitor.new ≡ fold V.step visitor.old (body_uses at.old (view_body body.now))) }
    ensures kept { OnOk result (at.new ≡ at.old) }
{
    show_body_statements(visitor, at, body.statements.as_slice())
}

// Shows the uses in the arguments behind the first.
#[tactic(auto, using(crate::proofs::Folds::fold_append))]
fn show_next_arguments<V: Visitor>(
    visitor: &mut V,
    at: &Environment,
    arguments: &[NextExpr],
) -> Result<(), NoMemory>
    ensures { OnOk result (visitor.new ≡ fold V.step visitor.old (flat_map (whole_uses at.now InBody) (map next_expr (map view_next_expr arguments.now)))) }
{
    for next in arguments {
        show_whole(visitor, at, Role::InBody, &next.expr)?;
    }
    Ok(())
}

// Shows the uses in the arguments of a call.
#[tactic(auto, using(crate::proofs::Folds::fold_append))]
fn show_arguments<V: Visitor>(
    visitor: &mut V,
    at: &Environment,
    arguments: &Option<ArgumentsNode>,
) -> Result<(), NoMemory>
    ensures { OnOk result (visitor.new ≡ fold V.step visitor.old (flat_map (whole_uses at.now InBody) (arguments_of (option_map view_arguments arguments.now)))) }
{
    match arguments {
        None => Ok(()),
        Some(arguments) => {
            show_whole(visitor, at, Role::InBody, &arguments.first)?;
            show_next_arguments(visitor, at, arguments.rest.as_slice())
        }
    }
}

// Shows the uses in a call, whose answer is needed or dropped.
#[tactic(auto, using(crate::proofs::Folds::fold_append))]
fn show_call<V: Visitor>(
    visitor: &mut V,
    at: &Environment,
    needed: bool,
    call: &CallNode,
) -> Result<(), NoMemory>
    ensures { OnOk result (visitor.new ≡ fold V.step visitor.old (call_uses at.now needed (view_call call.now))) }
{
    visitor.calls(at.component, call.name)?;
    visitor.passes(at.component, call.name, &call.arguments, needed)?;
    show_arguments(visitor, at, &call.arguments)
}

// Shows the uses in what a value comes from.
#[tactic(auto, using(crate::proofs::Folds::fold_append))]
fn show_source<V: Visitor>(
    visitor: &mut V,
    at: &Environment,
    source: &SourceNode,
) -> Result<(), NoMemory>
    ensures { OnOk result (visitor.new ≡ fold V.step visitor.old (source_uses at.now (view_source source.now))) }
{
    match source {
        SourceNode::Call(call) => show_call(visitor, at, true, call),
        SourceNode::Expr(expr) => show_whole(visitor, at, Role::InBody, expr),
    }
}

// Shows the uses in the value of a local, where it has one.
#[tactic(auto, using(crate::proofs::Folds::fold_append))]
fn show_optional_value<V: Visitor>(
    visitor: &mut V,
    at: &Environment,
    value: &Option<Box<ValueNode>>,
) -> Result<(), NoMemory>
    ensures { OnOk result (visitor.new ≡ fold V.step visitor.old (option_uses (value_uses at.now) (option_map view_boxed_value value.now))) }
{
    match value {
        None => Ok(()),
        Some(value) => show_source(visitor, at, &value.source),
    }
}

// Shows the uses in a statement.
#[cycle(body_uses)]
#[tactic(auto, using(crate::proofs::Folds::fold_append))]
fn show_body_statement<V: Visitor>(
    visitor: &mut V,
    at: &mut Environment,
    statement: &BodyStatement,
) -> Result<(), NoMemory>
    ensures uses { OnOk result (visitor.new ≡ fold V.step visitor.old (body_statement_uses at.old (view_body_statement statement.now))) }
    ensures kept { OnOk result (at.new ≡ at.old) }
{
    match statement {
        BodyStatement::Empty(_) => Ok(()),
        BodyStatement::Local { plain, value, .. } => {
            show_plain(visitor, at, plain)?;
            show_optional_value(visitor, at, value)
        }
        BodyStatement::Assign { name, source, .. } => {
            visitor.assigns(at, *name)?;
            show_source(visitor, at, source)
        }
        BodyStatement::Call { call, .. } => show_call(visitor, at, false, call),
        BodyStatement::Block { statements, .. } => {
            show_body_statements(visitor, at, statements.as_slice())
        }
        BodyStatement::If {
            condition,
            then,
            ..
        } => {
            show_whole(visitor, at, Role::InBody, condition)?;
            show_body_statement(visitor, at, then)
        }
        BodyStatement::IfElse {
            condition,
            then,
            otherwise,
            ..
        } => {
            show_whole(visitor, at, Role::InBody, condition)?;
            show_body_statement(visitor, at, then)?;
            show_body_statement(visitor, at, otherwise)
        }
        BodyStatement::Repeat {
            index,
            count,
            statement,
            ..
        } => {
            show_whole(visitor, at, Role::InBody, count)?;
            show_repeated(visitor, at, index, statement)
        }
    }
}

// Shows the uses in a statement that is repeated, in the scope of the index.
#[cycle(body_uses)]
#[tactic(auto, using(crate::proofs::Folds::fold_append))]
fn show_repeated<V: Visitor>(
    visitor: &mut V,
    at: &mut Environment,
    index: &Option<LabelNode>,
    statement: &BodyStatement,
) -> Result<(), NoMemory>
    ensures uses { OnOk result (visitor.new ≡ fold V.step visitor.old (body_statement_uses (with_index at.old index.now) (view_body_statement statement.now))) }
    ensures kept { OnOk result (at.new ≡ at.old) }
{
    match index {
        None => show_body_statement(visitor, at, statement),
        Some(index) => {
            at.inner.push(index.name)?;
            show_body_statement(visitor, at, statement)?;
            at.inner.pop();
            Ok(())
        }
    }
}

// Shows the uses in the statements of a block, each in the scopes of the locals before it.
#[cycle(body_uses)]
#[tactic(auto, using(crate::proofs::Folds::fold_append))]
fn show_body_statements<V: Visitor>(
    visitor: &mut V,
    at: &mut Environment,
    statements: &[BodyStatement],
) -> Result<(), NoMemory>
    ensures uses { OnOk result (visitor.new ≡ fold V.step visitor.old (body_list_uses at.old (map view_body_statement statements.now))) }
    ensures kept { OnOk result (at.new ≡ at.old) }
{
    let mut locals: usize = 0;
    for statement in statements {
        show_body_statement(visitor, at, statement)?;
        if let BodyStatement::Local { name, .. } = statement {
            at.inner.push(*name)?;
            locals += 1;
        }
    }
    end_locals(at, locals);
    Ok(())
}

// Ends the scopes of so many locals.
#[tactic(auto, using(crate::proofs::BodyRows::drop_next))]
fn end_locals(at: &mut Environment, locals: usize)
    ensures { at.new ≡ without_inner locals at.old }
{
    for _ in 0..locals {
        at.inner.pop();
    }
}
