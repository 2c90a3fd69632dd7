//! The constraints of action types.
ghost use Rattle.std.specs.Prelude.{◌≡◌, ◌++◌, IfOk, OnOk, map};
ghost use Rattle.std.specs.List.{flat_map};
ghost use Rattle.pst_ast.specs.DeclarationView.{view_action_part};
ghost use Rattle.pst_elab_rules.specs.Types as tree;
ghost use Rattle.pst_tree.specs.Bases;
ghost use Rattle.pst_model.specs.ConstraintTree.{view_constraint};
ghost use Rattle.pst_model_types.specs.Marks.{constraint_bases};
ghost use Rattle.pst_model_types.specs.Parts.{action_part, action_parts};
ghost use Rattle.pst_path_readings.specs.Set.{view_setting};
ghost use Rattle.pst_sources.specs.Shown.{sources_of};
ghost use Rattle.pst_terms.specs.Sources.{declared_in};

use crate::setting::setting_of;
use pst_ast::{ActionPart, Declaration, Owner};
use pst_base::{NameId, NoMemory};
use pst_constraints::add_declared;
use pst_index::Index;
use pst_marked_bases::MarkedBases;
use pst_model::Constraint;
use pst_path_readings::Setting;
use pst_sources::Sources;

// Adds the constraints that a part of an action is.
fn add_part(
    sources: &Sources<'_>,
    setting: &mut Setting<'_>,
    found: &mut Vec<Constraint>,
    part: &ActionPart,
) -> Result<(), NoMemory>
    ensures found { OnOk result (map view_constraint found.new.items ≡ map view_constraint found.old.items ++ action_part (sources_of sources.now) (view_setting setting.old) (view_action_part part.now)) }
    ensures kept { OnOk result (view_setting setting.new ≡ view_setting setting.old) }
{
    match part {
        ActionPart::Constraint(declaration) => add_declared(sources, setting, found, declaration),
        _ => Ok(()),
    }
}

// Adds the constraints among the parts of an action.
#[tactic(auto, using(crate::proofs::Splitting::action_next))]
fn add_parts(
    sources: &Sources<'_>,
    setting: &mut Setting<'_>,
    found: &mut Vec<Constraint>,
    parts: &[ActionPart],
) -> Result<(), NoMemory>
    ensures { OnOk result (map view_constraint found.new.items ≡ map view_constraint found.old.items ++ action_parts (sources_of sources.now) (view_setting setting.old) (map view_action_part parts.now)) }
{
    for part in parts {
        add_part(sources, setting, found, part)?;
    }
    Ok(())
}

// Adds the constraints in the own text of an action.
fn add_own(
    sources: &Sources<'_>,
    found: &mut Vec<Constraint>,
    action: &Declaration,
) -> Result<(), NoMemory>
    ensures { OnOk result (map view_constraint found.new.items ≡ map view_constraint found.old.items ++ tree.own_constraints (sources_of sources.now) action.now) }
{
    let known = sources.known();
    match known.sites().action_at(action.name.place) {
        None => Ok(()),
        Some(node) => {
            let mut setting = setting_of(known.alloc(), action, Owner::OfAction(*action));
            add_parts(sources, &mut setting, found, node.parts.as_slice())?;
            Ok(())
        }
    }
}

// Adds the constraints in the texts of actions.
fn add_each(
    sources: &Sources<'_>,
    found: &mut Vec<Constraint>,
    actions: &[Declaration],
) -> Result<(), NoMemory>
    ensures { OnOk result (map view_constraint found.new.items ≡ map view_constraint found.old.items ++ flat_map (tree.own_constraints (sources_of sources.now)) actions.now) }
{
    for action in actions {
        add_own(sources, found, action)?;
    }
    Ok(())
}

/// The constraints of an action type, its base's first.
pub fn action_constraints(
    sources: &Sources<'_>,
    bases: &MarkedBases<'_>,
    action: &Declaration,
) -> Result<Vec<Constraint>, NoMemory>
    requires { bases.now ≡ constraint_bases (sources_of sources.now) }
    ensures { IfOk result (λ found. map view_constraint found.items ≡ flat_map (tree.own_constraints (sources_of sources.now)) (Bases.with_bases (declared_in (sources_of sources.now)) action.now)) }
{
    let alloc = sources.known().alloc();
    let those = bases.of(alloc, action)?;
    let mut found = Vec::new(alloc);
    add_each(sources, &mut found, those.as_slice())?;
    Ok(found)
}

/// The name of the component in whose text a type is declared, or its own name where there is none.
pub fn component_name(index: &Index, type_: &Declaration) -> NameId
    ensures { result ≡ tree.name_at index.now type_.now.inside type_.now.name.id }
{
    let Some(place) = type_.inside else {
        return type_.name.id;
    };
    match index.declared_at(place) {
        None => type_.name.id,
        Some(component) => component.name.id,
    }
}
