//! The pools of sources, and what they serve.
ghost use Rattle.std.specs.Prelude.{◌≡◌, IfErr, IfOk, map};
ghost use Rattle.pst_ast.specs.DeclarationView.{view_unit};
ghost use Rattle.pst_ast.specs.Breaches.{IsNone};
ghost use Rattle.pst_ast.specs.Declarations.{declarations as the_declarations};
ghost use Rattle.pst_ast.specs.NameRules.{NameBreach};
ghost use Rattle.pst_ast.specs.Scopes.{AreScopes};
ghost use Rattle.pst_tree.specs.Instances.{AreInstances};
ghost use Rattle.pst_type_rules.specs.TypeRules.{TypeBreach};
ghost use Rattle.pst_bound_pools.specs.Homes.{home_place};
ghost use Rattle.pst_bound_pools.specs.KeptBinds.{AreDefaultRows, AreExplicitRows, IsAimed};
ghost use Rattle.pst_pool_binds.specs.PoolBinds;
ghost use Rattle.pst_bound_pools.specs.Pools;
ghost use Rattle.pst_bind.specs.PooledSources.{AreJudged, ArePooled, IsPoolEnd};

use crate::actions::judge;
use crate::default_choices::are_behind;
use crate::judging::{Binds, Judged};
use crate::pool_map::{PoolMap, places};
use pst_ast::{Finding, Instance, Scopes, Unit};
use pst_base::{Items, Names, NoMemory, Place};
use pst_bound_pools::{DefaultRows, ExplicitRows, InstanceTable, PoolTable, components_of};
use pst_collect::declarations;
use pst_index::Index;
use pst_names::RuleEnd;
use pst_pool_binds::{default_binds, explicit_binds};
use pst_tree::{Member, Rows, Sites, Tree};
use std::alloc::Global;

// The pools of explicit binds.
fn explicit_rows(
    alloc: Global,
    units: &[Unit],
    components: &[Option<Place>],
    index: &Index,
    table: &InstanceTable,
    pools: &PoolTable,
) -> Result<ExplicitRows, NoMemory>
    requires components { components.now ≡ map (home_place index.now) table.now }
    requires pools { pools.now ≡ Pools.pools index.now table.now }
    ensures rows { IfOk result (AreExplicitRows index.now table.now (PoolBinds.explicit_binds (map view_unit units.now))) }
    ensures aimed { IfOk result IsAimed }
{
    let binds = explicit_binds(alloc, units)?;
    ExplicitRows::new(alloc, components, index, table, pools, binds.as_slice())
}

// The pools of default binds.
fn default_rows(
    alloc: Global,
    units: &[Unit],
    components: &[Option<Place>],
    index: &Index,
    table: &InstanceTable,
    pools: &PoolTable,
) -> Result<DefaultRows, NoMemory>
    requires components { components.now ≡ map (home_place index.now) table.now }
    requires pools { pools.now ≡ Pools.pools index.now table.now }
    ensures { IfOk result (AreDefaultRows index.now table.now (PoolBinds.default_binds (map view_unit units.now))) }
{
    let binds = default_binds(alloc, units)?;
    DefaultRows::new(alloc, components, index, table, pools, binds.as_slice())
}

// The least of what references and claims break, and what serves them.
fn judged_needs(
    alloc: Global,
    units: &[Unit],
    index: &Index,
    table: &InstanceTable,
    pools: &PoolTable,
) -> Result<Judged, NoMemory>
    requires declared { index.now ≡ the_declarations (map view_unit units.now) }
    requires pools { pools.now ≡ Pools.pools index.now table.now }
    ensures { IfOk result (AreJudged (map view_unit units.now) table.now) }
{
    let places = components_of(alloc, index, table)?;
    let components = places.as_slice();
    let explicit = explicit_rows(alloc, units, components, index, table, pools)?;
    let defaults = default_rows(alloc, units, components, index, table, pools)?;
    let members = Rows::new(alloc, Member::Need, index.as_slice())?;
    let sites = Sites::new(alloc, units)?;
    pst_base::places_are_ordered();
    let binds = Binds {
        alloc,
        index,
        table,
        components,
        explicit: &explicit,
        defaults: &defaults,
        behind: are_behind(table),
    };
    let judged = judge(&binds, &members, &sites)?;
    Ok(judged)
}

// The pools of sources and what they serve, or the least of what is broken.
fn pooled(
    alloc: Global,
    units: &[Unit],
    index: &Index,
    instances: &[Instance],
) -> Result<Result<PoolMap, Finding>, NoMemory>
    requires { index.now ≡ the_declarations (map view_unit units.now) }
    ensures { IfOk result (ArePooled (map view_unit units.now) instances.now) }
{
    let rows = Rows::new(alloc, Member::Pool, index.as_slice())?;
    let table = InstanceTable::new(alloc, instances)?;
    let pools = PoolTable::new(alloc, index, &rows, table.as_slice())?;
    let judged = judged_needs(alloc, units, index, &table, &pools)?;
    match judged.least {
        Some(finding) => Ok(Err(finding)),
        None => {
            let named = places(alloc, pools.as_slice())?;
            Ok(Ok(PoolMap {
                pools: Items::from_vec(named),
                served: Items::from_vec(judged.served),
            }))
        }
    }
}

// The index of what sources declare.
fn index_of(alloc: Global, units: &[Unit]) -> Result<Index, NoMemory>
    ensures { IfOk result (λ index. index ≡ the_declarations (map view_unit units.now)) }
{
    let declared = declarations(alloc, units)?;
    Index::new(alloc, declared)
}

/// What `pools` answers, given the index of what the sources declare.
pub fn pools_by(
    alloc: Global,
    units: &[Unit],
    index: &Index,
    instances: &[Instance],
) -> Result<PoolMap, RuleEnd>
    requires declared { index.now ≡ the_declarations (map view_unit units.now) }
    ensures pools { IfOk result (λ found. ArePooled (map view_unit units.now) instances.now (Rattle.std.specs.Prelude.Ok found)) }
    ensures broken { IfErr result (λ end. IsPoolEnd (map view_unit units.now) instances.now end) }
{
    match pooled(alloc, units, index, instances) {
        Ok(Ok(found)) => Ok(found),
        Ok(Err(Finding { place, rule })) => Err(RuleEnd::Broken { place, rule }),
        Err(NoMemory) => Err(RuleEnd::NoMemory),
    }
}

/// The pools of the instances of sources that keep the rules of names and of types, by instance and
/// then in order of declaration, and the pool of each reference and claim of each atomic action type
/// that isn't abstract, in each instance of its component, by action, instance and reference.
///
/// `Broken` has the least place at which rule 22 or 23 is broken, and the least rule that is broken
/// there. `NoMemory` comes where memory ran out, and where something is counted that a `u32` can't
/// hold.
pub fn pools(
    alloc: Global,
    units: &[Unit],
    names: &Names,
    scopes: &Scopes,
    tree: &Tree,
) -> Result<PoolMap, RuleEnd>
    requires names_kept { IsNone (NameBreach (map view_unit units.now) names.now) }
    requires types_kept { IsNone (TypeBreach (map view_unit units.now) names.now) }
    requires scopes { AreScopes (map view_unit units.now) names.now scopes.now.types scopes.now.meanings }
    requires tree { AreInstances (map view_unit units.now) names.now tree.now.instances }
    ensures pools { IfOk result (λ found. ArePooled (map view_unit units.now) tree.now.instances (Rattle.std.specs.Prelude.Ok found)) }
    ensures broken { IfErr result (λ end. IsPoolEnd (map view_unit units.now) tree.now.instances end) }
{
    match index_of(alloc, units) {
        Ok(index) => pools_by(alloc, units, &index, tree.instances.as_slice()),
        Err(NoMemory) => Err(RuleEnd::NoMemory),
    }
}
