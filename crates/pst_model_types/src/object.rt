//! The constraints of object types.
ghost use Rattle.std.specs.Prelude.{◌≡◌, ◌++◌, IfOk, OnOk, map};
ghost use Rattle.pst_ast.specs.DeclarationView.{view_object_part, view_unit};
ghost use Rattle.pst_elab_rules.specs.Types as tree;
ghost use Rattle.pst_model.specs.ConstraintTree.{view_constraint};
ghost use Rattle.pst_model_types.specs.Parts.{object_part, object_parts};
ghost use Rattle.pst_path_readings.specs.Set.{view_setting};
ghost use Rattle.pst_sources.specs.Shown.{sources_of};

use crate::setting::setting_of;
use pst_ast::{Declaration, ObjectPart, Owner};
use pst_base::NoMemory;
use pst_constraints::add_declared;
use pst_declared_parts::ObjectSites;
use pst_model::Constraint;
use pst_path_readings::Setting;
use pst_sources::Sources;

// Adds the constraints that a part of an object is.
fn add_part(
    sources: &Sources<'_>,
    setting: &mut Setting<'_>,
    found: &mut Vec<Constraint>,
    part: &ObjectPart,
) -> Result<(), NoMemory>
    ensures found { OnOk result (map view_constraint found.new.items ≡ map view_constraint found.old.items ++ object_part (sources_of sources.now) (view_setting setting.old) (view_object_part part.now)) }
    ensures kept { OnOk result (view_setting setting.new ≡ view_setting setting.old) }
{
    match part {
        ObjectPart::Constraint(declaration) => add_declared(sources, setting, found, declaration),
        _ => Ok(()),
    }
}

// Adds the constraints among the parts of an object.
#[tactic(auto, using(crate::proofs::Splitting::object_next))]
fn add_parts(
    sources: &Sources<'_>,
    setting: &mut Setting<'_>,
    found: &mut Vec<Constraint>,
    parts: &[ObjectPart],
) -> Result<(), NoMemory>
    ensures { OnOk result (map view_constraint found.new.items ≡ map view_constraint found.old.items ++ object_parts (sources_of sources.now) (view_setting setting.old) (map view_object_part parts.now)) }
{
    for part in parts {
        add_part(sources, setting, found, part)?;
    }
    Ok(())
}

/// The constraints of an object type.
pub fn object_constraints(
    sources: &Sources<'_>,
    objects: &ObjectSites<'_>,
    object: &Declaration,
) -> Result<Vec<Constraint>, NoMemory>
    requires { map view_unit objects.now ≡ (sources_of sources.now).units }
    ensures { IfOk result (λ found. map view_constraint found.items ≡ tree.object_constraints (sources_of sources.now) object.now) }
{
    let alloc = sources.known().alloc();
    let mut found = Vec::new(alloc);
    match objects.at(object.name.place) {
        None => Ok(found),
        Some(node) => {
            let mut setting = setting_of(alloc, object, Owner::OfObject(*object));
            add_parts(sources, &mut setting, &mut found, node.parts.as_slice())?;
            Ok(found)
        }
    }
}
