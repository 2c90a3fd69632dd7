//! The locals of bodies.
ghost use Rattle.std.specs.Prelude.{◌≡◌, ◌++◌, IfOk, OnOk, map};
ghost use Rattle.std.specs.List.{flat_map};
ghost use Rattle.pst_ast.specs.BodyView.{view_body, view_body_statement};
ghost use Rattle.pst_elab_rules.specs.Bodies as tree;
ghost use Rattle.pst_path_readings.specs.Set.{view_setting};
ghost use Rattle.pst_ast.specs.Declarations.{in_body, in_body_statement};
ghost use Rattle.pst_sources.specs.Shown.{sources_of};
ghost use Rattle.pst_type_rules.specs.Limits.{is_local};
ghost use Rattle.pst_type_rules.specs.Members.{those_that};

use pst_ast::{BodyNode, BodyStatement, Declaration, Name, Referent, Scope, Sort};
use pst_base::{NoMemory, Place};
use pst_index::stands_for;
use pst_path_readings::Setting;
use pst_sources::Sources;
use pst_type_members::number_in;
use std::alloc::Global;

// Adds the locals in a statement, in the scope that begins at a place.
#[cycle(locals)]
#[tactic(auto, using(crate::proofs::LocalLists::locals_append, crate::proofs::LocalLists::no_index))]
fn add_locals(
    found: &mut Vec<Declaration>,
    owner: Place,
    scope: Place,
    statement: &BodyStatement,
) -> Result<(), NoMemory>
    ensures { OnOk result (found.new.items ≡ found.old.items ++ those_that is_local (in_body_statement owner scope (view_body_statement statement.now))) }
{
    match statement {
        BodyStatement::Empty(_) => Ok(()),
        BodyStatement::Local { name, .. } => {
            found.push(Declaration {
                name: *name,
                scope: Scope::Part(scope),
                inside: Some(owner),
                sort: Sort::Local,
            })?;
            Ok(())
        }
        BodyStatement::Assign { .. } => Ok(()),
        BodyStatement::Call { .. } => Ok(()),
        BodyStatement::Block {
            left_brace,
            statements,
            ..
        } => add_each(found, owner, *left_brace, statements.as_slice()),
        BodyStatement::If {
            right_parenthesis,
            then,
            ..
        } => add_locals(found, owner, *right_parenthesis, then),
        BodyStatement::IfElse {
            right_parenthesis,
            then,
            else_,
            otherwise,
            ..
        } => {
            add_locals(found, owner, *right_parenthesis, then)?;
            add_locals(found, owner, *else_, otherwise)
        }
        BodyStatement::Repeat {
            right_parenthesis,
            statement,
            ..
        } => add_locals(found, owner, *right_parenthesis, statement),
    }
}

// Adds the locals in statements.
#[cycle(locals)]
fn add_each(
    found: &mut Vec<Declaration>,
    owner: Place,
    scope: Place,
    statements: &[BodyStatement],
) -> Result<(), NoMemory>
    ensures { OnOk result (found.new.items ≡ found.old.items ++ those_that is_local (flat_map (in_body_statement owner scope) (map view_body_statement statements.now))) }
{
    for statement in statements {
        add_locals(found, owner, scope, statement)?;
    }
    Ok(())
}

/// The locals of a body in the text of an action, in order of declaration.
pub fn locals_in(
    alloc: Global,
    action: &Declaration,
    body: &BodyNode,
) -> Result<Vec<Declaration>, NoMemory>
    ensures { IfOk result (λ locals. locals.items ≡ tree.locals_in action.now (view_body body.now)) }
{
    let mut found = Vec::new(alloc);
    add_each(
        &mut found,
        action.name.place,
        body.left_brace,
        body.statements.as_slice(),
    )?;
    Ok(found)
}

// The number of a local.
fn local_in(setting: &Setting<'_>, referent: &Option<Referent>) -> Result<u32, NoMemory>
    ensures { IfOk result (λ n. n ≡ tree.local_in (view_setting setting.now) referent.now) }
{
    match referent {
        Some(Referent::Declared(local)) => {
            match u32::try_from(number_in(setting.locals, local)) {
                Ok(number) => Ok(number),
                Err(_) => Err(NoMemory),
            }
        }
        _ => Ok(0),
    }
}

/// The number of the local that a name stands for.
pub fn local_of(sources: &Sources<'_>, setting: &Setting<'_>, name: Name) -> Result<u32, NoMemory>
    ensures { IfOk result (λ n. n ≡ tree.local_of (sources_of sources.now) (view_setting setting.now) name) }
{
    let known = sources.known();
    local_in(
        setting,
        &stands_for(known.index(), known.names(), &setting.at, name.id),
    )
}
