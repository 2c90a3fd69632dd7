//! What bodies declare.
ghost use Rattle.std.specs.Prelude.{◌≡◌, ◌++◌, OnOk, map};
ghost use Rattle.std.specs.List.{flat_map};
ghost use Rattle.pst_ast.specs.BodyView.{view_body, view_body_statement};
ghost use Rattle.pst_ast.specs.Declarations.{in_body, in_body_statement};

use crate::single::{push_local, push_optional_index};
use pst_ast::{BodyNode, BodyStatement, Declaration};
use pst_base::{NoMemory, Place};

// body = "exec" "body" "{" { bstmt } "}"
pub fn add_body(found: &mut Vec<Declaration>, owner: Place, body: &BodyNode) -> Result<(), NoMemory>
    ensures { OnOk result (found.new.items ≡ found.old.items ++ in_body owner (view_body body.now)) }
{
    add_body_statements(found, owner, body.left_brace, body.statements.as_slice())
}

// bstmt, in the scope that begins at a place.
#[cycle(body)]
fn add_body_statement(
    found: &mut Vec<Declaration>,
    owner: Place,
    scope: Place,
    statement: &BodyStatement,
) -> Result<(), NoMemory>
    ensures { OnOk result (found.new.items ≡ found.old.items ++ in_body_statement owner scope (view_body_statement statement.now)) }
{
    match statement {
        BodyStatement::Empty(_) => Ok(()),
        BodyStatement::Local { name, .. } => push_local(found, owner, scope, *name),
        BodyStatement::Assign { .. } => Ok(()),
        BodyStatement::Call { .. } => Ok(()),
        BodyStatement::Block {
            left_brace,
            statements,
            ..
        } => add_body_statements(found, owner, *left_brace, statements.as_slice()),
        BodyStatement::If {
            right_parenthesis,
            then,
            ..
        } => add_body_statement(found, owner, *right_parenthesis, then),
        BodyStatement::IfElse {
            right_parenthesis,
            then,
            else_,
            otherwise,
            ..
        } => {
            add_body_statement(found, owner, *right_parenthesis, then)?;
            add_body_statement(found, owner, *else_, otherwise)
        }
        BodyStatement::Repeat {
            index,
            right_parenthesis,
            statement,
            ..
        } => {
            push_optional_index(found, owner, index)?;
            add_body_statement(found, owner, *right_parenthesis, statement)
        }
    }
}

// What each declares, in order.
#[cycle(body)]
fn add_body_statements(
    found: &mut Vec<Declaration>,
    owner: Place,
    scope: Place,
    statements: &[BodyStatement],
) -> Result<(), NoMemory>
    ensures { OnOk result (found.new.items ≡ found.old.items ++ flat_map (in_body_statement owner scope) (map view_body_statement statements.now)) }
{
    for statement in statements {
        add_body_statement(found, owner, scope, statement)?;
    }
    Ok(())
}
