//! The options of a compound action's field whose values can't be, while the activity is being read.
ghost use Rattle.std.specs.Prelude.{◌≡◌, ◌<◌, ◌≤◌, IfOk, IfSome};
ghost use Rattle.pst_model.specs.ModelView.{view_model};
ghost use Rattle.pst_model.specs.Sound.{IsSound};
ghost use Rattle.pst_shape.specs.Walks.{IfRead};
ghost use Rattle.pst_list_walk.specs.Walks.{answer};
ghost use Rattle.pst_refusals.specs.Answers.{StandEarlier};
ghost use Rattle.pst_field_values.specs.Kept.{AreOfFields};
ghost use Rattle.pst_search_loop.specs.Kept.{HasOptions, Skips};
ghost use Rattle.pst_list_values.specs.Walked.{kept_of};
ghost use Rattle.pst_list_values.specs.FieldValues.{IsFieldOf, IsPlaceOf};

use crate::skipping::is_domain;
use pst_base::NoMemory;
use pst_built::longer_lists_keep_what_is_known;
use pst_expr::domains_list_values;
use pst_field_places::{FieldPlace, fields_are_places, fields_have_values};
use pst_field_values::{excluded_fields_hold_nothing, values_of_fields};
use pst_known::Scene;
use pst_list_walk::ListWalk;
use pst_model::{Field, Model};
use pst_read_domains::{
    handles_have_their_types, legal_scenarios_are_in_domains, nodes_stand_for_pieces,
};
use pst_scen::{Act, First, Node, Scenario};
use pst_search_loop::{Conflict, Skipped};
use pst_search_places::barren_lists_conflict;
use pst_value_search::Valued;
use std::alloc::Global;

// The values of the fields of a node's compound action that are read, under the constraints on its fields.
fn values_in(
    alloc: Global,
    model: &Model,
    level: u32,
    nodes: &[Node],
    actions: &[Act],
    firsts: &[First],
    node: u32,
) -> Result<Option<Valued>, NoMemory>
    requires sound { IsSound (view_model model.now) }
    requires earlier { StandEarlier nodes.now }
    ensures { IfOk result (λ found. AreOfFields (view_model model.now) (record { level = level; nodes = nodes.now; actions = actions.now; firsts = firsts.now }) node found) }
{
    let scene = Scene {
        model,
        level,
        nodes,
        actions,
        firsts,
    };
    values_of_fields(alloc, &scene, node as usize)
}

// So of a scenario.
fn values_of(
    alloc: Global,
    model: &Model,
    scenario: &Scenario,
    node: u32,
) -> Result<Option<Valued>, NoMemory>
    requires sound { IsSound (view_model model.now) }
    requires earlier { StandEarlier scenario.now.nodes }
    ensures { IfOk result (λ found. AreOfFields (view_model model.now) scenario.now node found) }
{
    let nodes = scenario.nodes.as_slice();
    let actions = scenario.actions.as_slice();
    let firsts = scenario.firsts.as_slice();
    let found = values_in(alloc, model, scenario.level, nodes, actions, firsts, node)?;
    Ok(found)
}

// The options of the field at hand, from one on, whose values the constraints on the action's fields refuse.
fn skip_field(
    alloc: Global,
    lists: &ListWalk<'_>,
    scenario: &Scenario,
    node: u32,
    field: &Field,
    from: u64,
    count: u64,
) -> Result<Skipped, NoMemory>
    requires sound { IsSound (view_model lists.now.model) }
    requires read { IfRead (answer lists.now) (λ s. scenario.now ≡ s) }
    requires field { IsFieldOf lists.now node field.now }
    requires options { HasOptions (answer lists.now) count }
    requires some { 0 < from }
    requires named { from ≤ count }
    ensures { IfOk result (λ skipped. Skips (kept_of lists.now) from count skipped) }
{
    fields_are_places();
    fields_have_values();
    nodes_stand_for_pieces();
    handles_have_their_types();
    legal_scenarios_are_in_domains();
    longer_lists_keep_what_is_known();
    barren_lists_conflict();
    excluded_fields_hold_nothing();
    domains_list_values();
    is_domain(&field.domain);
    let places = lists.count()?;
    let conflict = Conflict::earlier(alloc, places);
    let found = values_of(alloc, lists.model(), scenario, node)?;
    match found {
        None => Ok(Skipped {
            digit: count,
            conflict,
        }),
        Some(mut valued) => {
            let start = lists.start(count)?;
            let passed = valued.skip(&field.domain, start, from)?;
            Ok(Skipped {
                digit: passed.place,
                conflict,
            })
        }
    }
}

// The field at hand, of the action of a node, where an option was passed: of its options those that are skipped.
fn skip_at_field(
    alloc: Global,
    lists: &ListWalk<'_>,
    node: u32,
    field: &Field,
    from: u64,
    count: u64,
) -> Result<Skipped, NoMemory>
    requires field { IsFieldOf lists.now node field.now }
    requires options { HasOptions (answer lists.now) count }
    requires some { 0 < from }
    requires named { from ≤ count }
    ensures { IfOk result (λ skipped. Skips (kept_of lists.now) from count skipped) }
{
    let Some(scenario) = lists.so_far()? else {
        return Ok(Skipped::nothing(alloc, from));
    };
    lists.model_is_sound();
    skip_field(alloc, lists, &scenario, node, field, from, count)
}

// So of the place of a field.
fn skip_at_place(
    alloc: Global,
    lists: &ListWalk<'_>,
    place: FieldPlace<'_>,
    from: u64,
    count: u64,
) -> Result<Skipped, NoMemory>
    requires field { IsPlaceOf lists.now place }
    requires options { HasOptions (answer lists.now) count }
    requires some { 0 < from }
    requires named { from ≤ count }
    ensures { IfOk result (λ skipped. Skips (kept_of lists.now) from count skipped) }
{
    let Some((field, _more)) = place.fields.split_first() else {
        return Ok(Skipped::nothing(alloc, from));
    };
    skip_at_field(alloc, lists, place.node, field, from, count)
}

// The place at hand, where it is that of a field and an option was passed.
fn place_at<'a>(lists: &ListWalk<'a>, from: u64) -> Option<FieldPlace<'a>>
    ensures { IfSome result (λ place. IsPlaceOf lists.now place × (0 < from)) }
{
    if from == 0 {
        return None;
    }
    lists.field()
}

/// The options of the place at hand that are skipped, from one on, before the sources are read through: where it is
/// that of a field of a compound action, those whose values the constraints on the action's fields refuse.
pub(crate) fn skip_fields(
    alloc: Global,
    lists: &ListWalk<'_>,
    from: u64,
    count: u64,
) -> Result<Skipped, NoMemory>
    requires options { HasOptions (answer lists.now) count }
    requires named { from ≤ count }
    ensures { IfOk result (λ skipped. Skips (kept_of lists.now) from count skipped) }
{
    let Some(place) = place_at(lists, from) else {
        return Ok(Skipped::nothing(alloc, from));
    };
    skip_at_place(alloc, lists, place, from, count)
}
