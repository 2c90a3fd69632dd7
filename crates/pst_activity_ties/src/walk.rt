//! The binds in the statements of activities.
ghost use Rattle.std.specs.Prelude.{◌≡◌, ◌++◌, IfOk, OnOk, map};
ghost use Rattle.std.specs.List.{flat_map};
ghost use Rattle.pst_ast.specs.ActivityView.{view_arm, view_branch, view_core, view_statement};
ghost use Rattle.pst_elab_rules.specs.Ties as tree;
ghost use Rattle.pst_path_readings.specs.Set.{view_setting};
ghost use Rattle.pst_sources.specs.Shown.{sources_of};
ghost use Rattle.pst_activity_ties.specs.Tied.{tied};

use crate::ends::add_ties;
use pst_ast::{ArmNode, BranchNode, CoreNode, StatementNode};
use pst_base::NoMemory;
use pst_model::Tie;
use pst_path_readings::Setting;
use pst_sources::Sources;

// Adds those in a statement.
#[cycle(ties)]
fn add_statement(
    sources: &Sources<'_>,
    setting: &Setting<'_>,
    found: &mut Vec<Tie>,
    statement: &StatementNode,
) -> Result<(), NoMemory>
    ensures { OnOk result (found.new.items ≡ found.old.items ++ tied (sources_of sources.now) (view_setting setting.now) (tree.statement_binds (view_statement statement.now))) }
{
    match statement {
        StatementNode::Empty(_) => Ok(()),
        StatementNode::Labeled { core, .. } => add_core(sources, setting, found, core),
        StatementNode::Plain(core) => add_core(sources, setting, found, core),
    }
}

// Adds those in statements.
#[cycle(ties)]
fn add_statements(
    sources: &Sources<'_>,
    setting: &Setting<'_>,
    found: &mut Vec<Tie>,
    statements: &[StatementNode],
) -> Result<(), NoMemory>
    ensures { OnOk result (found.new.items ≡ found.old.items ++ tied (sources_of sources.now) (view_setting setting.now) (flat_map tree.statement_binds (map view_statement statements.now))) }
{
    for statement in statements {
        add_statement(sources, setting, found, statement)?;
    }
    Ok(())
}

// Adds those in a statement behind its label.
#[cycle(ties)]
#[tactic(auto, using(crate::proofs::Rows::tied_append))]
fn add_core(
    sources: &Sources<'_>,
    setting: &Setting<'_>,
    found: &mut Vec<Tie>,
    core: &CoreNode,
) -> Result<(), NoMemory>
    ensures { OnOk result (found.new.items ≡ found.old.items ++ tied (sources_of sources.now) (view_setting setting.now) (tree.core_binds (view_core core.now))) }
{
    match core {
        CoreNode::Do { .. } => Ok(()),
        CoreNode::Handle { .. } => Ok(()),
        CoreNode::Sequence { statements, .. } => {
            add_statements(sources, setting, found, statements.as_slice())
        }
        CoreNode::Together { statements, .. } => {
            add_statements(sources, setting, found, statements.as_slice())
        }
        CoreNode::Select { first, rest, .. } => {
            add_branch(sources, setting, found, first)?;
            add_branches(sources, setting, found, rest.as_slice())
        }
        CoreNode::Repeat { statement, .. } => add_statement(sources, setting, found, statement),
        CoreNode::If { then, .. } => add_statement(sources, setting, found, then),
        CoreNode::IfElse {
            then,
            otherwise,
            ..
        } => {
            add_statement(sources, setting, found, then)?;
            add_statement(sources, setting, found, otherwise)
        }
        CoreNode::Match { first, rest, .. } => {
            add_arm(sources, setting, found, first)?;
            add_arms(sources, setting, found, rest.as_slice())
        }
        CoreNode::Bind(bind) => add_ties(sources, setting, found, bind),
    }
}

// Adds those in a branch.
#[cycle(ties)]
fn add_branch(
    sources: &Sources<'_>,
    setting: &Setting<'_>,
    found: &mut Vec<Tie>,
    branch: &BranchNode,
) -> Result<(), NoMemory>
    ensures { OnOk result (found.new.items ≡ found.old.items ++ tied (sources_of sources.now) (view_setting setting.now) (tree.branch_binds (view_branch branch.now))) }
{
    add_statement(sources, setting, found, &branch.statement)
}

// Adds those in branches.
#[cycle(ties)]
fn add_branches(
    sources: &Sources<'_>,
    setting: &Setting<'_>,
    found: &mut Vec<Tie>,
    branches: &[BranchNode],
) -> Result<(), NoMemory>
    ensures { OnOk result (found.new.items ≡ found.old.items ++ tied (sources_of sources.now) (view_setting setting.now) (flat_map tree.branch_binds (map view_branch branches.now))) }
{
    for branch in branches {
        add_branch(sources, setting, found, branch)?;
    }
    Ok(())
}

// Adds those in an arm.
#[cycle(ties)]
fn add_arm(
    sources: &Sources<'_>,
    setting: &Setting<'_>,
    found: &mut Vec<Tie>,
    arm: &ArmNode,
) -> Result<(), NoMemory>
    ensures { OnOk result (found.new.items ≡ found.old.items ++ tied (sources_of sources.now) (view_setting setting.now) (tree.arm_binds (view_arm arm.now))) }
{
    add_statement(sources, setting, found, &arm.statement)
}

// Adds those in arms.
#[cycle(ties)]
fn add_arms(
    sources: &Sources<'_>,
    setting: &Setting<'_>,
    found: &mut Vec<Tie>,
    arms: &[ArmNode],
) -> Result<(), NoMemory>
    ensures { OnOk result (found.new.items ≡ found.old.items ++ tied (sources_of sources.now) (view_setting setting.now) (flat_map tree.arm_binds (map view_arm arms.now))) }
{
    for arm in arms {
        add_arm(sources, setting, found, arm)?;
    }
    Ok(())
}

/// The binds of an activity with these statements, in the order of their text.
pub fn ties_in(
    sources: &Sources<'_>,
    setting: &Setting<'_>,
    statements: &[StatementNode],
) -> Result<Vec<Tie>, NoMemory>
    ensures { IfOk result (λ ties. ties.items ≡ tree.ties_in (sources_of sources.now) (view_setting setting.now) (map view_statement statements.now)) }
{
    let mut found = Vec::new(sources.known().alloc());
    add_statements(sources, setting, &mut found, statements)?;
    Ok(found)
}
