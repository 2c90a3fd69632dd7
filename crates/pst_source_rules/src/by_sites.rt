//! The rules of names and of pools, and the instances, where the sources are given by the places at
//! which things are declared.
ghost use Rattle.std.specs.Prelude.{◌≡◌, ◌≤◌, IfErr, IfOk, Ok, length, map};
ghost use Rattle.pst_ast.specs.DeclarationView.{view_unit};
ghost use Rattle.pst_ast.specs.Breaches.{IsNone};
ghost use Rattle.pst_ast.specs.Declarations.{declarations as the_declarations};
ghost use Rattle.pst_ast.specs.NameRules.{NameBreach};
ghost use Rattle.pst_ast.specs.Scopes.{AreScopes};
ghost use Rattle.pst_bind.specs.PooledSources.{ArePooled, IsPoolEnd};
ghost use Rattle.pst_names.specs.Resolved.{AreResolved, IsUnresolved};
ghost use Rattle.pst_tree.specs.Found.{IsTreeEnd};
ghost use Rattle.pst_tree.specs.Instances.{AreInstances};

use pst_ast::{Instance, Scopes};
use pst_base::Names;
use pst_bind::{PoolMap, pools_by};
use pst_index::Index;
use pst_names::{RuleEnd, resolve_by};
use pst_sites::Sites;
use pst_tree::{Tree, TreeEnd, instances_by};
use std::alloc::Global;

/// What the names of the sources stand for, or the least breach of the rules of names.
pub(crate) fn scopes_of(
    alloc: Global,
    sites: &Sites<'_>,
    index: &Index,
    names: &Names,
) -> Result<Scopes, RuleEnd>
    requires { index.now ≡ the_declarations (map view_unit sites.now) }
    ensures resolved { IfOk result (λ scopes. AreResolved (map view_unit sites.now) names.now scopes.types scopes.meanings) }
    ensures broken { IfErr result (λ end. IsUnresolved (map view_unit sites.now) names.now end) }
{
    resolve_by(alloc, sites.sources(), index, names)
}

/// The instances of sources that keep the rules of names.
pub(crate) fn tree_of(
    alloc: Global,
    sites: &Sites<'_>,
    index: &Index,
    names: &Names,
    scopes: &Scopes,
) -> Result<Tree, TreeEnd>
    requires declared { index.now ≡ the_declarations (map view_unit sites.now) }
    requires kept { IsNone (NameBreach (map view_unit sites.now) names.now) }
    requires scopes { AreScopes (map view_unit sites.now) names.now scopes.now.types scopes.now.meanings }
    ensures are { IfOk result (λ tree. AreInstances (map view_unit sites.now) names.now tree.instances) }
    ensures few { IfOk result (λ tree. length tree.instances ≤ 256) }
    ensures end { IfErr result (λ end. IsTreeEnd (map view_unit sites.now) names.now end) }
{
    instances_by(alloc, sites.sources(), index, names, scopes)
}

/// The pools and what they serve, or the least breach of the rules of pools.
pub(crate) fn pools_of(
    alloc: Global,
    sites: &Sites<'_>,
    index: &Index,
    instances: &[Instance],
) -> Result<PoolMap, RuleEnd>
    requires { index.now ≡ the_declarations (map view_unit sites.now) }
    ensures pools { IfOk result (λ found. ArePooled (map view_unit sites.now) instances.now (Ok found)) }
    ensures broken { IfErr result (λ end. IsPoolEnd (map view_unit sites.now) instances.now end) }
{
    pools_by(alloc, sites.sources(), index, instances)
}
