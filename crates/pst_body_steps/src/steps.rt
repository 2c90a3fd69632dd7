//! The steps of a whole body.
ghost use Rattle.std.specs.Prelude.{◌≡◌, IfOk, map};
ghost use Rattle.pst_ast.specs.BodyView.{view_body};
ghost use Rattle.pst_elab_rules.specs.Bodies as tree;
ghost use Rattle.pst_elab_rules.specs.Types.{setting_of};
ghost use Rattle.pst_model.specs.ModelView.{view_body_step};
ghost use Rattle.pst_path_readings.specs.Set.{view_setting};
ghost use Rattle.pst_ast.specs.declared.referent.Owner.TheVariants as owner;
ghost use Rattle.pst_sources.specs.Shown.{sources_of};
ghost use Rattle.pst_body_parts.specs.Listed.{with_locals};

use crate::statements::add_statements;
use pst_ast::{BodyNode, Declaration, Environment, Inner, Owner};
use pst_base::NoMemory;
use pst_body_parts::locals_in;
use pst_model::BodyStep;
use pst_path_readings::Setting;
use pst_type_numbers::Numbered;
use std::alloc::Global;

/// In the text of an action, outside of all repetitions, with these locals.
pub fn setting_in<'a>(alloc: Global, action: &Declaration, locals: &'a [Declaration]) -> Setting<'a>
    ensures { view_setting result ≡ with_locals (setting_of action.now (owner.OfAction action.now)) locals.now }
{
    Setting {
        at: Environment {
            component: action.inside,
            owner: Owner::OfAction(*action),
            inner: Inner::new(alloc),
            traversal: None,
        },
        turns: Vec::new(alloc),
        locals,
    }
}

/// The steps of a body in the text of an action.
pub fn body_steps(
    numbered: &Numbered<'_>,
    action: &Declaration,
    body: &BodyNode,
) -> Result<Vec<BodyStep>, NoMemory>
    ensures { IfOk result (λ steps. map view_body_step steps.items ≡ tree.body_steps (sources_of numbered.now) (setting_of action.now (owner.OfAction action.now)) action.now (view_body body.now)) }
{
    let alloc = numbered.sources().known().alloc();
    let locals = locals_in(alloc, action, body)?;
    let mut setting = setting_in(alloc, action, locals.as_slice());
    let mut found = Vec::new(alloc);
    let statements = body.statements.as_slice();
    add_statements(numbered, &mut setting, 0, statements, &mut found)?;
    Ok(found)
}
