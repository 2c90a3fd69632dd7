//! The statements of bodies.
ghost use Rattle.std.specs.Prelude.{◌≡◌, ◌+◌, ◌++◌, IfOk, OnOk, map};
ghost use Rattle.pst_ast.specs.BodyView.{view_body_statement};
ghost use Rattle.pst_ast.specs.ExpressionView.{view_expr};
ghost use Rattle.pst_elab_rules.specs.Bodies.{statement_row};
ghost use Rattle.pst_elab_rules.specs.Constraints.{with_turn};
ghost use Rattle.pst_elab_rules.specs.Steps.{turn_setting};
ghost use Rattle.pst_model.specs.BodyTree as body;
ghost use Rattle.pst_model.specs.BodyTree.{body_of};
ghost use Rattle.pst_model.specs.ModelView.{view_body_step};
ghost use Rattle.pst_path_readings.specs.Set.{view_setting};
ghost use Rattle.pst_sources.specs.Shown.{sources_of};
ghost use Rattle.pst_terms.specs.Readings as reading;
ghost use Rattle.pst_body_parts.specs.Listed.{list_steps, row_of};

use pst_ast::{BodyStatement, ExprNode, LabelNode, Name};
use pst_base::NoMemory;
use pst_body_parts::{assign, call_step, declare, enter_behind, if_of, leave_locals, repeat_of};
use pst_constraints::{expression_of, pop_turn, push_turn};
use pst_model::BodyStep;
use pst_path_readings::{Setting, Turn};
use pst_type_numbers::Numbered;

// Adds the steps of a statement with so many repetitions round it.
#[cycle(statements)]
fn add_statement(
    numbered: &Numbered<'_>,
    setting: &mut Setting<'_>,
    level: u32,
    statement: &BodyStatement,
    found: &mut Vec<BodyStep>,
) -> Result<(), NoMemory>
    ensures found { OnOk result (map view_body_step found.new.items ≡ map view_body_step found.old.items ++ body_of (statement_row (sources_of numbered.now) (view_setting setting.old) level (view_body_statement statement.now))) }
    ensures kept { OnOk result (view_setting setting.new ≡ view_setting setting.old) }
{
    match statement {
        BodyStatement::Empty(_) => Ok(()),
        BodyStatement::Local {
            plain,
            name,
            value,
            ..
        } => {
            found.push(declare(numbered, setting, plain, *name, value)?)?;
            Ok(())
        }
        BodyStatement::Assign { name, source, .. } => {
            found.push(assign(numbered, setting, *name, source)?)?;
            Ok(())
        }
        BodyStatement::Call { call, .. } => {
            found.push(call_step(numbered, setting, call)?)?;
            Ok(())
        }
        BodyStatement::Block { statements, .. } => {
            add_statements(numbered, setting, level, statements.as_slice(), found)
        }
        BodyStatement::If {
            condition,
            then,
            ..
        } => {
            found.push(if_step(numbered, setting, level, condition, then)?)?;
            Ok(())
        }
        BodyStatement::IfElse {
            condition,
            then,
            otherwise,
            ..
        } => {
            found.push(if_else_step(numbered, setting, level, condition, then, otherwise)?)?;
            Ok(())
        }
        BodyStatement::Repeat {
            index,
            count,
            statement,
            ..
        } => {
            found.push(repeat_step(numbered, setting, level, count, index, statement)?)?;
            Ok(())
        }
    }
}

// The steps of a part of a statement.
#[cycle(statements)]
fn part_steps(
    numbered: &Numbered<'_>,
    setting: &mut Setting<'_>,
    level: u32,
    statement: &BodyStatement,
) -> Result<Vec<BodyStep>, NoMemory>
    ensures steps { IfOk result (λ steps. row_of (map view_body_step steps.items) ≡ statement_row (sources_of numbered.now) (view_setting setting.old) level (view_body_statement statement.now)) }
    ensures kept { OnOk result (view_setting setting.new ≡ view_setting setting.old) }
{
    let mut steps = Vec::new(numbered.sources().known().alloc());
    add_statement(numbered, setting, level, statement, &mut steps)?;
    Ok(steps)
}

// A conditional part without `else`.
#[cycle(statements)]
fn if_step(
    numbered: &Numbered<'_>,
    setting: &mut Setting<'_>,
    level: u32,
    condition: &ExprNode,
    part: &BodyStatement,
) -> Result<BodyStep, NoMemory>
    ensures step { IfOk result (λ step. view_body_step step ≡ body.If (reading.expression_of (sources_of numbered.now) (view_setting setting.old) (view_expr condition.now)) (statement_row (sources_of numbered.now) (view_setting setting.old) level (view_body_statement part.now)) body.NoBody) }
    ensures kept { OnOk result (view_setting setting.new ≡ view_setting setting.old) }
{
    let holds = expression_of(numbered.sources(), setting, condition)?;
    let steps = part_steps(numbered, setting, level, part)?;
    let others = Vec::new(numbered.sources().known().alloc());
    Ok(if_of(holds, steps, others))
}

// A conditional part with `else`.
#[cycle(statements)]
fn if_else_step(
    numbered: &Numbered<'_>,
    setting: &mut Setting<'_>,
    level: u32,
    condition: &ExprNode,
    part: &BodyStatement,
    other: &BodyStatement,
) -> Result<BodyStep, NoMemory>
    ensures step { IfOk result (λ step. view_body_step step ≡ body.If (reading.expression_of (sources_of numbered.now) (view_setting setting.old) (view_expr condition.now)) (statement_row (sources_of numbered.now) (view_setting setting.old) level (view_body_statement part.now)) (statement_row (sources_of numbered.now) (view_setting setting.old) level (view_body_statement other.now))) }
    ensures kept { OnOk result (view_setting setting.new ≡ view_setting setting.old) }
{
    let holds = expression_of(numbered.sources(), setting, condition)?;
    let steps = part_steps(numbered, setting, level, part)?;
    let others = part_steps(numbered, setting, level, other)?;
    Ok(if_of(holds, steps, others))
}

// A repetition.
#[cycle(statements)]
fn repeat_step(
    numbered: &Numbered<'_>,
    setting: &mut Setting<'_>,
    level: u32,
    count: &ExprNode,
    index: &Option<LabelNode>,
    statement: &BodyStatement,
) -> Result<BodyStep, NoMemory>
    ensures step { IfOk result (λ step. view_body_step step ≡ body.Repeat (reading.expression_of (sources_of numbered.now) (view_setting setting.old) (view_expr count.now)) (statement_row (sources_of numbered.now) (turn_setting (view_setting setting.old) level index.now) (level + 1) (view_body_statement statement.now))) }
    ensures kept { OnOk result (view_setting setting.new ≡ view_setting setting.old) }
{
    let times = expression_of(numbered.sources(), setting, count)?;
    let steps = turns(numbered, setting, level, index, statement)?;
    Ok(repeat_of(times, steps))
}

// What is repeated.
#[cycle(statements)]
fn turns(
    numbered: &Numbered<'_>,
    setting: &mut Setting<'_>,
    level: u32,
    index: &Option<LabelNode>,
    statement: &BodyStatement,
) -> Result<Vec<BodyStep>, NoMemory>
    ensures steps { IfOk result (λ steps. row_of (map view_body_step steps.items) ≡ statement_row (sources_of numbered.now) (turn_setting (view_setting setting.old) level index.now) (level + 1) (view_body_statement statement.now)) }
    ensures kept { OnOk result (view_setting setting.new ≡ view_setting setting.old) }
{
    let Some(inner) = level.checked_add(1) else {
        return Err(NoMemory);
    };
    match index {
        None => part_steps(numbered, setting, inner, statement),
        Some(index) => indexed_turns(numbered, setting, level, inner, index.name, statement),
    }
}

// What is repeated, in the scope of an index of that level.
#[cycle(statements)]
fn indexed_turns(
    numbered: &Numbered<'_>,
    setting: &mut Setting<'_>,
    level: u32,
    inner: u32,
    index: Name,
    statement: &BodyStatement,
) -> Result<Vec<BodyStep>, NoMemory>
    ensures steps { IfOk result (λ steps. row_of (map view_body_step steps.items) ≡ statement_row (sources_of numbered.now) (with_turn (view_setting setting.old) index (reading.AtLevel level)) inner (view_body_statement statement.now)) }
    ensures kept { OnOk result (view_setting setting.new ≡ view_setting setting.old) }
{
    push_turn(setting, index, Turn::AtLevel(level))?;
    let steps = part_steps(numbered, setting, inner, statement)?;
    pop_turn(setting);
    Ok(steps)
}

/// Adds the steps of statements, each in the scopes of the locals before it.
#[cycle(statements)]
pub fn add_statements(
    numbered: &Numbered<'_>,
    setting: &mut Setting<'_>,
    level: u32,
    statements: &[BodyStatement],
    found: &mut Vec<BodyStep>,
) -> Result<(), NoMemory>
    ensures found { OnOk result (map view_body_step found.new.items ≡ map view_body_step found.old.items ++ list_steps (sources_of numbered.now) (view_setting setting.old) level (map view_body_statement statements.now)) }
    ensures kept { OnOk result (view_setting setting.new ≡ view_setting setting.old) }
{
    let mut locals: usize = 0;
    for statement in statements {
        add_statement(numbered, setting, level, statement, found)?;
        let entered = enter_behind(setting, statement)?;
        locals += entered;
    }
    leave_locals(setting, locals);
    Ok(())
}
