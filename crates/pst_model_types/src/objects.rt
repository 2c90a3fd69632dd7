//! The object types of a model.
ghost use Rattle.std.specs.Prelude.{◌≡◌, ◌++◌, IfOk, OnOk, map};
ghost use Rattle.pst_ast.specs.DeclarationView.{view_unit};
ghost use Rattle.pst_elab_rules.specs.Types as tree;
ghost use Rattle.pst_model.specs.ModelView.{view_object};
ghost use Rattle.pst_ast.specs.Sorts.{is_object};
ghost use Rattle.pst_sources.specs.Shown.{sources_of};
ghost use Rattle.pst_type_rules.specs.Members.{those_that};
ghost use Rattle.pst_type_rules.specs.Sites.{fields};

use crate::object::object_constraints;
use pst_ast::{Declaration, ObjectWord, Sort};
use pst_base::NoMemory;
use pst_declared_parts::ObjectSites;
use pst_model::{ObjectKind, ObjectType};
use pst_model_fields::{FieldDomains, model_fields};
use pst_sources::Sources;

// The kind of an object type.
fn kind_in(sort: Sort) -> ObjectKind
    ensures { result ≡ tree.kind_in sort }
{
    match sort {
        Sort::Object { word } => match word {
            ObjectWord::Buffer => ObjectKind::Buffer,
            ObjectWord::Stream => ObjectKind::Stream,
            ObjectWord::State => ObjectKind::State,
            ObjectWord::Resource => ObjectKind::Resource,
        },
        _ => ObjectKind::Buffer,
    }
}

// An object type.
fn model_object(
    sources: &Sources<'_>,
    objects: &ObjectSites<'_>,
    domains: &FieldDomains,
    object: &Declaration,
) -> Result<ObjectType, NoMemory>
    requires objects { map view_unit objects.now ≡ (sources_of sources.now).units }
    requires domains { domains.now.places ≡ map (λ f. f.name.place) (fields (sources_of sources.now).units) }
    ensures { IfOk result (λ o. view_object o ≡ tree.model_object (sources_of sources.now) domains.now.domains object.now) }
{
    let fields = model_fields(sources.known(), domains, object)?;
    let constraints = object_constraints(sources, objects, object)?;
    Ok(ObjectType {
        name: object.name.id,
        kind: kind_in(object.sort),
        fields,
        constraints,
    })
}

// Adds those of declarations that are object types.
fn add_objects(
    sources: &Sources<'_>,
    objects: &ObjectSites<'_>,
    domains: &FieldDomains,
    found: &mut Vec<ObjectType>,
    declarations: &[Declaration],
) -> Result<(), NoMemory>
    requires objects { map view_unit objects.now ≡ (sources_of sources.now).units }
    requires domains { domains.now.places ≡ map (λ f. f.name.place) (fields (sources_of sources.now).units) }
    ensures { OnOk result (map view_object found.new.items ≡ map view_object found.old.items ++ map (tree.model_object (sources_of sources.now) domains.now.domains) (those_that is_object declarations.now)) }
{
    for declaration in declarations {
        if matches!(declaration.sort, Sort::Object { .. }) {
            found.push(model_object(sources, objects, domains, declaration)?)?;
        }
    }
    Ok(())
}

/// The object types of a model, in order of declaration, given the domains of all fields.
pub fn model_objects(
    sources: &Sources<'_>,
    domains: &FieldDomains,
) -> Result<Vec<ObjectType>, NoMemory>
    requires { domains.now.places ≡ map (λ f. f.name.place) (fields (sources_of sources.now).units) }
    ensures { IfOk result (λ found. map view_object found.items ≡ tree.model_objects (sources_of sources.now) domains.now.domains) }
{
    let known = sources.known();
    let objects = ObjectSites::new(known.alloc(), known.sites().sources())?;
    let mut found = Vec::new(known.alloc());
    add_objects(
        sources,
        &objects,
        domains,
        &mut found,
        known.index().as_slice(),
    )?;
    Ok(found)
}
