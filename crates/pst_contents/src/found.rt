//! The activity or body of an action, found in the sources.
ghost use Rattle.std.specs.Prelude.{◌≡◌, map, IfOk};
ghost use Rattle.std.specs.List.{filter, filter_map};
ghost use Rattle.std.specs.Option.{option_map};
ghost use Rattle.pst_ast.specs.ActivityView.{view_activity};
ghost use Rattle.pst_ast.specs.BodyView.{view_body};
ghost use Rattle.pst_ast.specs.DeclarationView.{view_action, view_action_part, view_unit};
ghost use Rattle.pst_tree.specs.Contents as tree;
ghost use Rattle.pst_tree.specs.Contents.{first_of};
ghost use Rattle.pst_type_rules.specs.Sites.{action_of};
ghost use Rattle.pst_sources.specs.Shown.{sources_of};
ghost use Rattle.pst_contents.specs.Found.{view_found};
ghost use Rattle.pst_contents.specs.Marks as marks;

use pst_ast::{ActionNode, ActionPart, ActivityNode, BodyNode, Declaration};
use pst_base::{NoMemory, Place};
use pst_marked_bases::MarkedBases;
use pst_sites::Sites;
use pst_sources::Known;
use std::alloc::Global;

/// An activity or a body, with the action in whose text it stands.
#[derive(Clone, Copy)]
pub enum FoundContent<'a> {
    /// An activity.
    Activity(Declaration, &'a ActivityNode),
    /// A body.
    Body(Declaration, &'a BodyNode),
}

// The first activity among the parts of an action.
fn activity_in(parts: &[ActionPart]) -> Option<&ActivityNode>
    ensures { option_map (λ a. view_activity a.now) result ≡ first_of (filter_map tree.activity_in (map view_action_part parts.now)) }
{
    for part in parts {
        if let ActionPart::Activity(activity) = part {
            let activity: &ActivityNode = activity;
            return Some(activity);
        }
    }
    None
}

// The first body among the parts of an action.
fn body_in(parts: &[ActionPart]) -> Option<&BodyNode>
    ensures { option_map (λ b. view_body b.now) result ≡ first_of (filter_map tree.body_in (map view_action_part parts.now)) }
{
    for part in parts {
        if let ActionPart::Body(body) = part {
            let body: &BodyNode = body;
            return Some(body);
        }
    }
    None
}

// The content of an action's own text.
fn content_in<'a>(action: &Declaration, node: &'a ActionNode) -> Option<FoundContent<'a>>
    ensures { option_map view_found result ≡ tree.content_in action.now (action_of (view_action node.now)) }
{
    let parts = node.parts.as_slice();
    if let Some(activity) = activity_in(parts) {
        return Some(FoundContent::Activity(*action, activity));
    }
    match body_in(parts) {
        None => None,
        Some(body) => Some(FoundContent::Body(*action, body)),
    }
}

// The own content of an action.
fn own_content<'a>(sites: &Sites<'a>, action: &Declaration) -> Option<FoundContent<'a>>
    ensures { option_map view_found result ≡ tree.own_content (map view_unit sites.now) action.now }
{
    match sites.action_at(action.name.place) {
        None => None,
        Some(node) => content_in(action, node),
    }
}

// Whether an action has an activity or a body in its own text.
fn has_own(node: &ActionNode) -> bool
    ensures { result ≡ marks.has_own (action_of (view_action node.now)) }
{
    let parts = node.parts.as_slice();
    activity_in(parts).is_some() || body_in(parts).is_some()
}

// Whether the action whose name stands at a place has an activity or a body in its own text.
fn has_content(sites: &Sites<'_>, place: Place) -> bool
    ensures { result ≡ marks.has_content (map view_unit sites.now) place }
{
    match sites.action_at(place) {
        None => false,
        Some(node) => has_own(node),
    }
}

// The places of the names of those actions that have an activity or a body in their own text.
fn places_with(
    alloc: Global,
    sites: &Sites<'_>,
    actions: &[&ActionNode],
) -> Result<Vec<Place>, NoMemory>
    ensures { IfOk result (λ places. places.items ≡ filter (marks.has_content (map view_unit sites.now)) (map (λ a. a.name.place) (map (λ a. action_of (view_action a.now)) actions.now))) }
{
    let mut places = Vec::new(alloc);
    for action in actions {
        let place = action.name.place;
        if has_content(sites, place) {
            places.push(place)?;
        }
    }
    Ok(places)
}

/// Of all actions and their bases those that have an activity or a body in their own text.
pub fn content_bases<'a>(known: &Known<'a>) -> Result<MarkedBases<'a>, NoMemory>
    ensures { IfOk result (λ m. m ≡ marks.content_bases (sources_of known.now)) }
{
    let sites = known.sites();
    let places = places_with(known.alloc(), sites, sites.actions())?;
    MarkedBases::new(known.alloc(), known.index(), places)
}

/// The content of the nearest of an action and its bases that has one.
pub fn nearest_content<'a>(
    sites: &Sites<'a>,
    bases: &MarkedBases<'_>,
    action: &Declaration,
) -> Option<FoundContent<'a>>
    requires { bases.now ≡ marks.content_bases_in (map view_unit sites.now) }
    ensures { option_map view_found result ≡ tree.content_of (map view_unit sites.now) action.now }
{
    match bases.nearest(action) {
        None => None,
        Some(base) => own_content(sites, &base),
    }
}
