//! The statements of activities.
ghost use Rattle.std.specs.Prelude.{◌≡◌, ◌+◌, ◌++◌, ◌∷◌, [], IfOk, OnOk, map};
ghost use Rattle.std.specs.List.{cons_option, filter_map};
ghost use Rattle.std.specs.Option.{option_map};
ghost use Rattle.pst_ast.specs.ActivityView.{view_arm as view_arm_node, view_branch as view_branch_node, view_core, view_statement};
ghost use Rattle.pst_ast.specs.ExpressionView.{view_expr};
ghost use Rattle.pst_elab_rules.specs.Steps as tree;
ghost use Rattle.pst_model.specs.ActivityTree as model;
ghost use Rattle.pst_model.specs.ModelView.{view_branch, view_step};
ghost use Rattle.pst_path_readings.specs.Set.{view_setting};
ghost use Rattle.pst_sources.specs.Shown.{sources_of};
ghost use Rattle.pst_terms.specs.Readings as reading;
ghost use Rattle.pst_step_forms.specs.Listed.{with_arm, with_arms};
ghost use Rattle.pst_step_forms.specs.Shown.{view_arms};

use pst_ast::{ArmNode, BranchNode, CoreNode, ExprNode, LabelNode, StatementNode};
use pst_base::NoMemory;
use pst_model::{Branch, Step};
use pst_path_readings::{Setting, Turn};
use pst_step_forms::{
    Arms, if_of, match_of, no_arms, push_arm, push_branch, repeat_of, select, sequence, together,
};
use pst_step_parts::{expression_of, pop_turn, push_turn, traverse_handle, traverse_type};
use pst_type_numbers::Numbered;

// The step of a statement with so many repetitions round it; `;` and binds are none.
#[cycle(steps)]
fn statement_step(
    numbered: &Numbered<'_>,
    setting: &mut Setting<'_>,
    level: u32,
    statement: &StatementNode,
) -> Result<Option<Step>, NoMemory>
    ensures step { IfOk result (λ step. option_map view_step step ≡ tree.statement_step (sources_of numbered.now) (view_setting setting.old) level (view_statement statement.now)) }
    ensures kept { OnOk result (view_setting setting.new ≡ view_setting setting.old) }
{
    match statement {
        StatementNode::Empty(_) => Ok(None),
        StatementNode::Labeled { core, .. } => core_step(numbered, setting, level, core),
        StatementNode::Plain(core) => core_step(numbered, setting, level, core),
    }
}

// A step where one is asked for: `;` and binds are empty sequences.
#[cycle(steps)]
fn one_step(
    numbered: &Numbered<'_>,
    setting: &mut Setting<'_>,
    level: u32,
    statement: &StatementNode,
) -> Result<Box<Step>, NoMemory>
    ensures step { IfOk result (λ step. view_step step.value ≡ tree.one_step (tree.statement_step (sources_of numbered.now) (view_setting setting.old) level (view_statement statement.now))) }
    ensures kept { OnOk result (view_setting setting.new ≡ view_setting setting.old) }
{
    let alloc = numbered.sources().known().alloc();
    match statement_step(numbered, setting, level, statement)? {
        Some(step) => Ok(Box::new(alloc, step)?),
        None => Ok(Box::new(alloc, sequence(Vec::new(alloc)))?),
    }
}

// Adds a step, where there is one.
fn push_step(found: &mut Vec<Step>, step: Option<Step>) -> Result<(), NoMemory>
    ensures { OnOk result (map view_step found.new.items ≡ map view_step found.old.items ++ cons_option (option_map view_step step) []) }
{
    match step {
        None => Ok(()),
        Some(step) => {
            found.push(step)?;
            Ok(())
        }
    }
}

// The steps of a block.
#[cycle(steps)]
fn block(
    numbered: &Numbered<'_>,
    setting: &mut Setting<'_>,
    level: u32,
    statements: &[StatementNode],
) -> Result<Vec<Step>, NoMemory>
    ensures steps { IfOk result (λ steps. map view_step steps.items ≡ filter_map (tree.statement_step (sources_of numbered.now) (view_setting setting.old) level) (map view_statement statements.now)) }
    ensures kept { OnOk result (view_setting setting.new ≡ view_setting setting.old) }
{
    let mut steps = Vec::new(numbered.sources().known().alloc());
    for statement in statements {
        let step = statement_step(numbered, setting, level, statement)?;
        push_step(&mut steps, step)?;
    }
    Ok(steps)
}

// The step of a statement behind its label.
#[cycle(steps)]
fn core_step(
    numbered: &Numbered<'_>,
    setting: &mut Setting<'_>,
    level: u32,
    core: &CoreNode,
) -> Result<Option<Step>, NoMemory>
    ensures step { IfOk result (λ step. option_map view_step step ≡ tree.core_step (sources_of numbered.now) (view_setting setting.old) level (view_core core.now)) }
    ensures kept { OnOk result (view_setting setting.new ≡ view_setting setting.old) }
{
    match core {
        CoreNode::Do { name, with, .. } => {
            Ok(Some(traverse_type(numbered, setting, *name, with)?))
        }
        CoreNode::Handle { name, with } => {
            Ok(Some(traverse_handle(numbered, setting, *name, with)?))
        }
        CoreNode::Sequence { statements, .. } => {
            let steps = block(numbered, setting, level, statements.as_slice())?;
            Ok(Some(sequence(steps)))
        }
        CoreNode::Together {
            word,
            join,
            statements,
            ..
        } => {
            let parts = statements.as_slice();
            let steps = block(numbered, setting, level, parts)?;
            let known = numbered.sources().known();
            let step = together(known, *word, join, parts, steps)?;
            Ok(Some(step))
        }
        CoreNode::Select { first, rest, .. } => {
            let mut branches = Vec::new(numbered.sources().known().alloc());
            add_branch(numbered, setting, level, first, &mut branches)?;
            add_branches(numbered, setting, level, rest.as_slice(), &mut branches)?;
            Ok(Some(select(branches)))
        }
        CoreNode::Repeat {
            index,
            count,
            statement,
            ..
        } => Ok(Some(repeat_step(numbered, setting, level, count, index, statement)?)),
        CoreNode::If {
            condition,
            then,
            ..
        } => Ok(Some(if_step(numbered, setting, level, condition, then)?)),
        CoreNode::IfElse {
            condition,
            then,
            otherwise,
            ..
        } => Ok(Some(if_else_step(numbered, setting, level, condition, then, otherwise)?)),
        CoreNode::Match {
            expr,
            first,
            rest,
            ..
        } => {
            let value = expression_of(numbered.sources(), setting, expr)?;
            let mut arms = no_arms(numbered.sources().known().alloc());
            add_arm(numbered, setting, level, first, &mut arms)?;
            add_arms(numbered, setting, level, rest.as_slice(), &mut arms)?;
            Ok(Some(match_of(value, arms)))
        }
        CoreNode::Bind(_) => Ok(None),
    }
}

// A conditional step without `else`.
#[cycle(steps)]
fn if_step(
    numbered: &Numbered<'_>,
    setting: &mut Setting<'_>,
    level: u32,
    condition: &ExprNode,
    part: &StatementNode,
) -> Result<Step, NoMemory>
    ensures step { IfOk result (λ step. view_step step ≡ model.If (reading.expression_of (sources_of numbered.now) (view_setting setting.old) (view_expr condition.now)) (tree.one_step (tree.statement_step (sources_of numbered.now) (view_setting setting.old) level (view_statement part.now))) model.NoStep) }
    ensures kept { OnOk result (view_setting setting.new ≡ view_setting setting.old) }
{
    let holds = expression_of(numbered.sources(), setting, condition)?;
    let step = one_step(numbered, setting, level, part)?;
    Ok(if_of(holds, step, None))
}

// A conditional step with `else`.
#[cycle(steps)]
fn if_else_step(
    numbered: &Numbered<'_>,
    setting: &mut Setting<'_>,
    level: u32,
    condition: &ExprNode,
    part: &StatementNode,
    other: &StatementNode,
) -> Result<Step, NoMemory>
    ensures step { IfOk result (λ step. view_step step ≡ model.If (reading.expression_of (sources_of numbered.now) (view_setting setting.old) (view_expr condition.now)) (tree.one_step (tree.statement_step (sources_of numbered.now) (view_setting setting.old) level (view_statement part.now))) (model.SomeStep (tree.one_step (tree.statement_step (sources_of numbered.now) (view_setting setting.old) level (view_statement other.now))))) }
    ensures kept { OnOk result (view_setting setting.new ≡ view_setting setting.old) }
{
    let holds = expression_of(numbered.sources(), setting, condition)?;
    let step = one_step(numbered, setting, level, part)?;
    let otherwise = one_step(numbered, setting, level, other)?;
    Ok(if_of(holds, step, Some(otherwise)))
}

// A repetition.
#[cycle(steps)]
fn repeat_step(
    numbered: &Numbered<'_>,
    setting: &mut Setting<'_>,
    level: u32,
    count: &ExprNode,
    index: &Option<LabelNode>,
    statement: &StatementNode,
) -> Result<Step, NoMemory>
    ensures step { IfOk result (λ step. view_step step ≡ model.Repeat (reading.expression_of (sources_of numbered.now) (view_setting setting.old) (view_expr count.now)) (tree.one_step (tree.statement_step (sources_of numbered.now) (tree.turn_setting (view_setting setting.old) level index.now) (level + 1) (view_statement statement.now)))) }
    ensures kept { OnOk result (view_setting setting.new ≡ view_setting setting.old) }
{
    let times = expression_of(numbered.sources(), setting, count)?;
    let step = turn(numbered, setting, level, index, statement)?;
    Ok(repeat_of(times, step))
}

// A repeated step, in the scope of an index of that level where it has one.
#[cycle(steps)]
fn turn(
    numbered: &Numbered<'_>,
    setting: &mut Setting<'_>,
    level: u32,
    index: &Option<LabelNode>,
    statement: &StatementNode,
) -> Result<Box<Step>, NoMemory>
    ensures step { IfOk result (λ step. view_step step.value ≡ tree.one_step (tree.statement_step (sources_of numbered.now) (tree.turn_setting (view_setting setting.old) level index.now) (level + 1) (view_statement statement.now))) }
    ensures kept { OnOk result (view_setting setting.new ≡ view_setting setting.old) }
{
    let Some(inner) = level.checked_add(1) else {
        return Err(NoMemory);
    };
    match index {
        None => one_step(numbered, setting, inner, statement),
        Some(index) => {
            push_turn(setting, index.name, Turn::AtLevel(level))?;
            let step = one_step(numbered, setting, inner, statement)?;
            pop_turn(setting);
            Ok(step)
        }
    }
}

// Adds a branch.
#[cycle(steps)]
fn add_branch(
    numbered: &Numbered<'_>,
    setting: &mut Setting<'_>,
    level: u32,
    branch: &BranchNode,
    found: &mut Vec<Branch>,
) -> Result<(), NoMemory>
    ensures found { OnOk result (map view_branch found.new.items ≡ map view_branch found.old.items ++ tree.branch_step (sources_of numbered.now) (view_setting setting.old) level (view_branch_node branch.now) ∷ []) }
    ensures kept { OnOk result (view_setting setting.new ≡ view_setting setting.old) }
{
    let step = one_step(numbered, setting, level, &branch.statement)?;
    push_branch(found, numbered.sources(), setting, &branch.guard, step)?;
    Ok(())
}

// Adds branches.
#[cycle(steps)]
fn add_branches(
    numbered: &Numbered<'_>,
    setting: &mut Setting<'_>,
    level: u32,
    branches: &[BranchNode],
    found: &mut Vec<Branch>,
) -> Result<(), NoMemory>
    ensures found { OnOk result (map view_branch found.new.items ≡ map view_branch found.old.items ++ map (tree.branch_step (sources_of numbered.now) (view_setting setting.old) level) (map view_branch_node branches.now)) }
    ensures kept { OnOk result (view_setting setting.new ≡ view_setting setting.old) }
{
    for branch in branches {
        add_branch(numbered, setting, level, branch, found)?;
    }
    Ok(())
}

// Adds an arm.
#[cycle(steps)]
fn add_arm(
    numbered: &Numbered<'_>,
    setting: &mut Setting<'_>,
    level: u32,
    arm: &ArmNode,
    found: &mut Arms,
) -> Result<(), NoMemory>
    ensures found { OnOk result (view_arms found.new ≡ with_arm (sources_of numbered.now) (view_setting setting.old) level (view_arms found.old) (view_arm_node arm.now)) }
    ensures kept { OnOk result (view_setting setting.new ≡ view_setting setting.old) }
{
    let step = one_step(numbered, setting, level, &arm.statement)?;
    push_arm(found, numbered.sources().known(), &arm.label, step)?;
    Ok(())
}

// Adds arms.
#[cycle(steps)]
fn add_arms(
    numbered: &Numbered<'_>,
    setting: &mut Setting<'_>,
    level: u32,
    arms: &[ArmNode],
    found: &mut Arms,
) -> Result<(), NoMemory>
    ensures found { OnOk result (view_arms found.new ≡ with_arms (sources_of numbered.now) (view_setting setting.old) level (view_arms found.old) (map view_arm_node arms.now)) }
    ensures kept { OnOk result (view_setting setting.new ≡ view_setting setting.old) }
{
    for arm in arms {
        add_arm(numbered, setting, level, arm, found)?;
    }
    Ok(())
}

/// The steps of an activity with these statements.
pub fn activity_steps(
    numbered: &Numbered<'_>,
    setting: &mut Setting<'_>,
    statements: &[StatementNode],
) -> Result<Vec<Step>, NoMemory>
    ensures { IfOk result (λ steps. map view_step steps.items ≡ filter_map (tree.statement_step (sources_of numbered.now) (view_setting setting.old) 0) (map view_statement statements.now)) }
{
    block(numbered, setting, 0, statements)
}
