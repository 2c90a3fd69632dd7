//! The contents of action types.
ghost use Rattle.std.specs.Prelude.{◌≡◌, IfOk};
ghost use Rattle.std.specs.Option.{option_map};
ghost use Rattle.pst_ast.specs.ActivityView.{view_activity};
ghost use Rattle.pst_elab_rules.specs.Types as tree;
ghost use Rattle.pst_tree.specs.Contents;
ghost use Rattle.pst_model.specs.ModelTree.{Compound};
ghost use Rattle.pst_model.specs.ModelView as model;
ghost use Rattle.pst_model.specs.ModelView.{view_content};
ghost use Rattle.pst_sources.specs.Shown.{sources_of};
ghost use Rattle.pst_contents.specs.Found.{view_found};
ghost use Rattle.pst_contents.specs.Marks as marks;

use crate::found::{FoundContent, nearest_content};
use crate::handles::handle_types;
use pst_activity_steps::activity_steps;
use pst_activity_ties::ties_in;
use pst_ast::{ActivityNode, Declaration};
use pst_base::NoMemory;
use pst_body_steps::{body_steps, setting_in};
use pst_marked_bases::MarkedBases;
use pst_model::{Activity, Content};
use pst_type_numbers::Numbered;

// An activity, in the text of one action, of another one.
fn compound(
    numbered: &Numbered<'_>,
    text_of: &Declaration,
    action: &Declaration,
    activity: &ActivityNode,
) -> Result<Activity, NoMemory>
    ensures { IfOk result (λ a. Compound (model.view_activity a) ≡ tree.compound (sources_of numbered.now) text_of.now action.now (view_activity activity.now)) }
{
    let sources = numbered.sources();
    let statements = activity.statements.as_slice();
    let mut setting = setting_in(sources.known().alloc(), text_of, &[]);
    let handles = handle_types(numbered, action)?;
    let binds = ties_in(sources, &setting, statements)?;
    let steps = activity_steps(numbered, &mut setting, statements)?;
    Ok(Activity {
        handles,
        steps,
        binds,
    })
}

// The content that was found for an action.
fn content(
    numbered: &Numbered<'_>,
    action: &Declaration,
    found: Option<FoundContent<'_>>,
) -> Result<Content, NoMemory>
    ensures { IfOk result (λ c. view_content c ≡ tree.content (sources_of numbered.now) action.now (option_map view_found found.entry)) }
{
    match found {
        None => Ok(Content::Atomic(Vec::new(numbered.sources().known().alloc()))),
        Some(FoundContent::Activity(text_of, activity)) => {
            let activity = compound(numbered, &text_of, action, activity)?;
            Ok(Content::Compound(activity))
        }
        Some(FoundContent::Body(text_of, body)) => {
            let steps = body_steps(numbered, &text_of, body)?;
            Ok(Content::Atomic(steps))
        }
    }
}

/// What an action does: its own activity or body, or else that of its nearest base that has one,
/// with the action types of its handles. An action with neither has an empty body.
pub fn content_of(
    numbered: &Numbered<'_>,
    bases: &MarkedBases<'_>,
    action: &Declaration,
) -> Result<Content, NoMemory>
    requires { bases.now ≡ marks.content_bases (sources_of numbered.now) }
    ensures { IfOk result (λ c. view_content c ≡ tree.content (sources_of numbered.now) action.now (Contents.content_of (sources_of numbered.now).units action.now)) }
{
    let sites = numbered.sources().known().sites();
    let found = nearest_content(sites, bases, action);
    content(numbered, action, found)
}
