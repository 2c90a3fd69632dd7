//! The scopes of locals.
ghost use Rattle.std.specs.Prelude.{◌≡◌, ◌≤◌, IfOk, OnOk};
ghost use Rattle.pst_ast.specs.BodyView.{view_body_statement};
ghost use Rattle.pst_elab_rules.specs.Bodies.{behind};
ghost use Rattle.pst_path_readings.specs.Set.{view_setting};
ghost use Rattle.pst_body_parts.specs.Listed.{with_local, without_inner};

use pst_ast::{BodyStatement, Name};
use pst_base::NoMemory;
use pst_path_readings::Setting;

/// Enters the scope of a local.
pub fn enter_local(setting: &mut Setting<'_>, name: Name) -> Result<(), NoMemory>
    ensures { OnOk result (view_setting setting.new ≡ with_local (view_setting setting.old) name) }
{
    setting.at.inner.push(name)?;
    Ok(())
}

// Leaves the innermost scope.
fn leave(setting: &mut Setting<'_>)
    ensures { view_setting setting.new ≡ without_inner 1 (view_setting setting.old) }
{
    setting.at.inner.pop();
}

/// Leaves so many of the innermost scopes.
pub fn leave_locals(setting: &mut Setting<'_>, locals: usize)
    ensures { view_setting setting.new ≡ without_inner locals (view_setting setting.old) }
{
    for _ in 0..locals {
        leave(setting);
    }
}

/// Enters the scope that begins behind a statement, and says how many that are.
pub fn enter_behind(setting: &mut Setting<'_>, statement: &BodyStatement) -> Result<usize, NoMemory>
    ensures few { IfOk result (λ n. n ≤ 1) }
    ensures entered { OnOk result (view_setting setting.new ≡ behind (view_setting setting.old) (view_body_statement statement.now)) }
    ensures left { IfOk result (λ n. without_inner n (view_setting setting.new) ≡ view_setting setting.old) }
{
    match statement {
        BodyStatement::Empty(_) => Ok(0),
        BodyStatement::Local { name, .. } => {
            enter_local(setting, *name)?;
            Ok(1)
        }
        BodyStatement::Assign { .. } => Ok(0),
        BodyStatement::Call { .. } => Ok(0),
        BodyStatement::Block { .. } => Ok(0),
        BodyStatement::If { .. } => Ok(0),
        BodyStatement::IfElse { .. } => Ok(0),
        BodyStatement::Repeat { .. } => Ok(0),
    }
}
