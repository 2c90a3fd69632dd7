//! The component instances of sources.
ghost use Rattle.std.specs.Prelude.{◌≡◌, ◌≤◌, IfErr, IfOk, IsTrue, length, map};
ghost use Rattle.std.specs.List.{Contains};
ghost use Rattle.pst_ast.specs.DeclarationView.{view_unit};
ghost use Rattle.pst_ast.specs.declared.scope_declaration.Declaration.{Declaration as Declared};
ghost use Rattle.pst_ast.specs.Breaches.{IsNone};
ghost use Rattle.pst_ast.specs.Declarations.{declarations as the_declarations};
ghost use Rattle.pst_ast.specs.NameRules.{NameBreach, Reaches, is_root_component};
ghost use Rattle.pst_ast.specs.Scopes.{AreScopes};
ghost use Rattle.pst_tree.specs.Instances;
ghost use Rattle.pst_tree.specs.Instances.{AreInstances};
ghost use Rattle.pst_tree.specs.Found.{AreFound, AreTyped, IsTreeEnd};

use crate::lasts::with_lasts;
use crate::rows::{Member, Rows};
use crate::tree::{Tree, TreeEnd};
use crate::walk::walk;
use pst_ast::{Declaration, Instance, Scope, Scopes, Sort, Unit};
use pst_base::{Items, Names, NoMemory};
use pst_collect::declarations;
use pst_index::{Index, is_text};
use std::alloc::Global;

// Whether it is the component `pss_top` of file level.
fn is_root(names: &Names, declaration: &Declaration) -> bool
    ensures { result ≡ is_root_component names.now declaration.now }
{
    declaration.sort == Sort::Component
        && declaration.scope == Scope::Files
        && is_text(names, "pss_top", declaration.name.id)
}

// The component of all others.
fn root_of(index: &Index, names: &Names) -> Option<Declaration>
    ensures { result ≡ Instances.root_of names.now index.now }
{
    for declaration in index.as_slice() {
        if is_root(names, declaration) {
            return Some(*declaration);
        }
    }
    None
}

// Whether each declared instance has a component.
fn are_typed(index: &Index) -> bool
    ensures { IsTrue result → AreTyped index.now }
{
    for declaration in index.as_slice() {
        if matches!(declaration.sort, Sort::Instance { .. })
            && index.type_of(declaration).is_none()
        {
            return false;
        }
    }
    true
}

// The instances, given what the sources declare; none where there are more than the limit.
fn instances_in(
    alloc: Global,
    units: &[Unit],
    index: &Index,
    names: &Names,
) -> Result<Option<Vec<Instance>>, NoMemory>
    requires declared { index.now ≡ the_declarations (map view_unit units.now) }
    requires no_loops { (d : Declared) → Contains index.now d → Reaches index.now d d → ⊥ }
    ensures { IfOk result (AreFound (map view_unit units.now) names.now) }
{
    let Some(root) = root_of(index, names) else {
        return Err(NoMemory);
    };
    if !are_typed(index) {
        return Err(NoMemory);
    }
    let rows = Rows::new(alloc, Member::Instance, index.as_slice())?;
    match walk(alloc, index, &rows, &root)? {
        None => Ok(None),
        Some(listed) => {
            let instances = with_lasts(alloc, listed.as_slice())?;
            Ok(Some(instances))
        }
    }
}

// The index of what sources declare.
fn index_of(alloc: Global, units: &[Unit]) -> Result<Index, NoMemory>
    ensures { IfOk result (λ index. index ≡ the_declarations (map view_unit units.now)) }
{
    let declared = declarations(alloc, units)?;
    Index::new(alloc, declared)
}

/// What `instances` answers, given the index of what the sources declare.
pub fn instances_by(
    alloc: Global,
    units: &[Unit],
    index: &Index,
    names: &Names,
    scopes: &Scopes,
) -> Result<Tree, TreeEnd>
    requires declared { index.now ≡ the_declarations (map view_unit units.now) }
    requires kept { IsNone (NameBreach (map view_unit units.now) names.now) }
    requires scopes { AreScopes (map view_unit units.now) names.now scopes.now.types scopes.now.meanings }
    ensures are { IfOk result (λ tree. AreInstances (map view_unit units.now) names.now tree.instances) }
    ensures few { IfOk result (λ tree. length tree.instances ≤ 256) }
    ensures end { IfErr result (λ end. IsTreeEnd (map view_unit units.now) names.now end) }
{
    match instances_in(alloc, units, index, names) {
        Ok(Some(instances)) => Ok(Tree {
            instances: Items::from_vec(instances),
        }),
        Ok(None) => Err(TreeEnd::Many { count: 257 }),
        Err(NoMemory) => Err(TreeEnd::NoMemory),
    }
}

/// The component instances of sources that keep the rules of names, in preorder.
///
/// `Many` comes where there are more than 256, with the count 257. `NoMemory` comes where memory ran
/// out, where there are no sources, and where names of different declarations stand at one place, so
/// that a declared instance has no component, which no tokens at rising places do.
pub fn instances(
    alloc: Global,
    units: &[Unit],
    names: &Names,
    scopes: &Scopes,
) -> Result<Tree, TreeEnd>
    requires kept { IsNone (NameBreach (map view_unit units.now) names.now) }
    requires scopes { AreScopes (map view_unit units.now) names.now scopes.now.types scopes.now.meanings }
    ensures are { IfOk result (λ tree. AreInstances (map view_unit units.now) names.now tree.instances) }
    ensures few { IfOk result (λ tree. length tree.instances ≤ 256) }
    ensures end { IfErr result (λ end. IsTreeEnd (map view_unit units.now) names.now end) }
{
    match index_of(alloc, units) {
        Ok(index) => instances_by(alloc, units, &index, names, scopes),
        Err(NoMemory) => Err(TreeEnd::NoMemory),
    }
}
