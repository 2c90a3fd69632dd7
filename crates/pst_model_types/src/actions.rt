//! The action types of a model.
ghost use Rattle.std.specs.Prelude.{◌≡◌, ◌++◌, IfOk, OnOk, map};
ghost use Rattle.pst_ast.specs.DeclarationView.{view_unit};
ghost use Rattle.pst_elab_rules.specs.Types as tree;
ghost use Rattle.pst_model.specs.ModelView.{view_action};
ghost use Rattle.pst_model_members.specs.Listed.{locked_names};
ghost use Rattle.pst_ast.specs.Sorts.{is_action};
ghost use Rattle.pst_sources.specs.Shown.{sources_of};
ghost use Rattle.pst_type_rules.specs.Members.{those_that};
ghost use Rattle.pst_type_rules.specs.Sites.{fields};
ghost use Rattle.pst_model_types.specs.Marks.{AreBasesOf};

use crate::bases::{ActionBases, action_bases};
use crate::{action_constraints, component_name};
use pst_ast::{Declaration, Sort};
use pst_base::NoMemory;
use pst_contents::content_of;
use pst_model::ActionType;
use pst_model_fields::{FieldDomains, model_fields};
use pst_model_members::{claims_of, locked_places, references_of};
use pst_places::PlaceList;
use pst_sites::Sites;
use pst_type_numbers::Numbered;

// Whether an action type is abstract.
fn is_abstract(sites: &Sites<'_>, action: &Declaration) -> bool
    ensures { result ≡ tree.is_abstract (map view_unit sites.now) action.now }
{
    match sites.action_at(action.name.place) {
        None => false,
        Some(node) => node.abstract_.is_some(),
    }
}

// An action type.
fn model_action(
    numbered: &Numbered<'_>,
    bases: &ActionBases<'_>,
    domains: &FieldDomains,
    locked: &PlaceList,
    action: &Declaration,
) -> Result<ActionType, NoMemory>
    requires bases { AreBasesOf (sources_of numbered.now) bases.now }
    requires domains { domains.now.places ≡ map (λ f. f.name.place) (fields (sources_of numbered.now).units) }
    requires locked { locked.now ≡ locked_names (sources_of numbered.now) }
    ensures { IfOk result (λ a. view_action a ≡ tree.model_action (sources_of numbered.now) domains.now.domains action.now) }
{
    let sources = numbered.sources();
    let known = sources.known();
    let references = references_of(numbered, action)?;
    let claims = claims_of(numbered, locked, action)?;
    let fields = model_fields(known, domains, action)?;
    let constraints = action_constraints(sources, &bases.constraints, action)?;
    let content = content_of(numbered, &bases.contents, action)?;
    Ok(ActionType {
        name: action.name.id,
        component: component_name(known.index(), action),
        is_abstract: is_abstract(known.sites(), action),
        fields,
        references,
        claims,
        constraints,
        content,
    })
}

// Adds those of declarations that are action types.
fn add_actions(
    numbered: &Numbered<'_>,
    bases: &ActionBases<'_>,
    domains: &FieldDomains,
    locked: &PlaceList,
    found: &mut Vec<ActionType>,
    declarations: &[Declaration],
) -> Result<(), NoMemory>
    requires bases { AreBasesOf (sources_of numbered.now) bases.now }
    requires domains { domains.now.places ≡ map (λ f. f.name.place) (fields (sources_of numbered.now).units) }
    requires locked { locked.now ≡ locked_names (sources_of numbered.now) }
    ensures { OnOk result (map view_action found.new.items ≡ map view_action found.old.items ++ map (tree.model_action (sources_of numbered.now) domains.now.domains) (those_that is_action declarations.now)) }
{
    for declaration in declarations {
        if matches!(declaration.sort, Sort::Action { .. }) {
            found.push(model_action(numbered, bases, domains, locked, declaration)?)?;
        }
    }
    Ok(())
}

/// The action types of a model, in order of declaration, given the domains of all fields.
pub fn model_actions(
    numbered: &Numbered<'_>,
    domains: &FieldDomains,
) -> Result<Vec<ActionType>, NoMemory>
    requires { domains.now.places ≡ map (λ f. f.name.place) (fields (sources_of numbered.now).units) }
    ensures { IfOk result (λ found. map view_action found.items ≡ tree.model_actions (sources_of numbered.now) domains.now.domains) }
{
    let known = numbered.sources().known();
    let bases = action_bases(known)?;
    let locked = locked_places(known)?;
    let mut found = Vec::new(known.alloc());
    add_actions(
        numbered,
        &bases,
        domains,
        &locked,
        &mut found,
        known.index().as_slice(),
    )?;
    Ok(found)
}
