//! The constraints of a whole scenario.
ghost use Rattle.std.specs.Prelude.{◌≡◌, IfOk, OnOk, IfSome, All, Contains, map, true};
ghost use Rattle.pst_expr.specs.Tree.{view};
ghost use Rattle.pst_model.specs.ConstraintTree.{view_constraint};
ghost use Rattle.pst_model.specs.ModelView.{view_model};
ghost use Rattle.pst_blanks.specs.Blanks.{blank_of};
ghost use Rattle.pst_few_places.specs.Fillings.{all_blanks};
ghost use Rattle.pst_known.specs.Known.{seen};
ghost use Rattle.pst_refusals.specs.Answers.{StandEarlier};
ghost use Rattle.pst_constraint_sites.specs.Groups.{groups};
ghost use Rattle.pst_constraint_sites.specs.Laws.{HasFirstObjects};
ghost use Rattle.pst_constraint_sites.specs.Views.{view_site, view_group};
ghost use Rattle.pst_model.specs.Sound.{IsSound};
ghost use Rattle.pst_written_constraints.specs.Open.{AreAllWritten, IsAllWritten, Stay, OpenTogether};
ghost use Rattle.pst_written_constraints.specs.Spans.{blank_bound, HoldOptions};
ghost use Rattle.pst_written_constraints.specs.Written.{IsWriting, IsImplied, AreWritten};

use crate::bare::are_bare;
use crate::numbers::terms_of;
use crate::spans::spans_of;
use crate::writing::write;
use pst_base::NoMemory;
use pst_blank_values::filled_blanks_stand;
use pst_blanks::{Place, begin};
use pst_constraint_sites::{
    Group, Site, constraints_are_grouped, groups_have_constraints, groups_of, senses_tell,
};
use pst_domain::{narrower_bounds_give_inner_spans, spans_are_sane};
use pst_expr::{Expr, Span, domains_list_values};
use pst_known::Scene;
use pst_model::{Constraint, Model};
use pst_scen::Scenario;
use std::alloc::Global;

/// Constraints over the blanks of a scenario, and the spans of the blanks.
#[derive(Drop)]
pub struct Written {
    /// The constraints that are written.
    pub constraints: Vec<Expr>,
    /// From the least to the greatest value of each blank, nothing where it has none.
    pub spans: Vec<Option<Span>>,
    /// Whether each constraint of the scenario is written.
    pub whole: bool,
}

// Writes a constraint that stands at a site, if it can be written.
fn write_one(
    alloc: Global,
    scene: &Scene<'_>,
    places: &[Place],
    site: &Site,
    constraint: &Constraint,
) -> Result<Option<Expr>, NoMemory>
    ensures { IfOk result (λ found. IfSome found (λ e. IsWriting (view_model scene.now.model.now) (seen scene.now) (map blank_of places.now) (view_site site.now) (view_constraint constraint.now) (view e))) }
{
    senses_tell();
    narrower_bounds_give_inner_spans();
    let terms = terms_of(alloc, scene, places, site, constraint.slots.as_slice())?;
    write(alloc, terms.as_slice(), &constraint.expr)
}

// Adds those of a group that can be written.
fn write_group(
    alloc: Global,
    written: &mut Written,
    scene: &Scene<'_>,
    places: &[Place],
    group: &Group<'_>,
) -> Result<(), NoMemory>
    requires firsts { HasFirstObjects (view_model scene.now.model.now) (seen scene.now) }
    requires places { map blank_of places.now ≡ all_blanks (view_model scene.now.model.now) (seen scene.now) }
    requires group { Contains (groups (view_model scene.now.model.now) (seen scene.now)) (view_group group.now) }
    ensures implied { OnOk result (All (IsImplied (view_model scene.now.model.now) (seen scene.now)) (map view written.old.constraints.items) → All (IsImplied (view_model scene.now.model.now) (seen scene.now)) (map view written.new.constraints.items)) }
    ensures spans { OnOk result (written.new.spans ≡ written.old.spans) }
    ensures stay { OnOk result (Stay (map view written.old.constraints.items) (map view written.new.constraints.items)) }
    ensures before { OnOk result (written.new.whole ≡ true → written.old.whole ≡ true) }
    ensures all { OnOk result (written.new.whole ≡ true → AreAllWritten (view_model scene.now.model.now) (seen scene.now) (map blank_of places.now) (map view written.new.constraints.items) (view_group group.now)) }
{
    groups_have_constraints();
    for constraint in group.constraints {
        match write_one(alloc, scene, places, &group.site, constraint)? {
            Some(e) => written.constraints.push(e)?,
            None => written.whole = false,
        }
    }
    Ok(())
}

// Writes those of all groups that can be written.
fn write_groups(alloc: Global, scene: &Scene<'_>, places: &[Place]) -> Result<Written, NoMemory>
    requires sound { IsSound (view_model scene.now.model.now) }
    requires firsts { HasFirstObjects (view_model scene.now.model.now) (seen scene.now) }
    requires places { map blank_of places.now ≡ all_blanks (view_model scene.now.model.now) (seen scene.now) }
    ensures implied { IfOk result (λ w. All (IsImplied (view_model scene.now.model.now) (seen scene.now)) (map view w.constraints.items)) }
    ensures spans { IfOk result (λ w. w.spans.items ≡ map (blank_bound (view_model scene.now.model.now) (seen scene.now)) (map blank_of places.now)) }
    ensures all { IfOk result (λ w. w.whole ≡ true → IsAllWritten (view_model scene.now.model.now) (seen scene.now) (map blank_of places.now) (map view w.constraints.items)) }
{
    let groups = groups_of(alloc, scene)?;
    let spans = spans_of(alloc, scene, places)?;
    let mut written = Written {
        constraints: Vec::new(alloc),
        spans,
        whole: true,
    };
    for group in &groups {
        write_group(alloc, &mut written, scene, places, group)?;
    }
    Ok(written)
}

// The same of a scenario.
fn write_all(
    alloc: Global,
    model: &Model,
    scenario: &Scenario,
    places: &[Place],
) -> Result<Written, NoMemory>
    requires sound { IsSound (view_model model.now) }
    requires earlier { StandEarlier scenario.now.nodes }
    requires firsts { HasFirstObjects (view_model model.now) scenario.now }
    requires places { map blank_of places.now ≡ all_blanks (view_model model.now) scenario.now }
    ensures implied { IfOk result (λ w. All (IsImplied (view_model model.now) scenario.now) (map view w.constraints.items)) }
    ensures spans { IfOk result (λ w. w.spans.items ≡ map (blank_bound (view_model model.now) scenario.now) (map blank_of places.now)) }
    ensures all { IfOk result (λ w. w.whole ≡ true → IsAllWritten (view_model model.now) scenario.now (map blank_of places.now) (map view w.constraints.items)) }
{
    let scene = Scene {
        model,
        level: scenario.level,
        nodes: scenario.nodes.as_slice(),
        actions: scenario.actions.as_slice(),
        firsts: scenario.firsts.as_slice(),
    };
    write_groups(alloc, &scene, places)
}

/// The constraints of a scenario whose needs have their sources, of which no claim and no value is read,
/// over its blanks, and the spans of these. `linked` is that scenario; its first objects are made anew.
/// A scenario of which more is read is refused as if memory were short.
pub fn write_constraints(
    alloc: Global,
    model: &Model,
    linked: Scenario,
) -> Result<Written, NoMemory>
    requires sound { IsSound (view_model model.now) }
    requires earlier { StandEarlier linked.nodes }
    ensures written { IfOk result (λ w. AreWritten (view_model model.now) linked (map view w.constraints.items)) }
    ensures spans { IfOk result (λ w. HoldOptions (view_model model.now) linked w.spans.items) }
    ensures together { IfOk result (λ w. w.whole ≡ true → OpenTogether (view_model model.now) linked (map view w.constraints.items)) }
{
    filled_blanks_stand();
    domains_list_values();
    constraints_are_grouped();
    spans_are_sane();
    let mut scenario = linked;
    let places = begin(alloc, model, &mut scenario)?;
    if !are_bare(scenario.actions.as_slice()) {
        return Err(NoMemory);
    }
    write_all(alloc, model, &scenario, places.as_slice())
}
