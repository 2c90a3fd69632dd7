//! The pools of a model.
ghost use Rattle.std.specs.Prelude.{◌≡◌, ◌++◌, IfOk, OnOk, map};
ghost use Rattle.std.specs.Option.{option_map, option_map_or};
ghost use Rattle.pst_ast.specs.DeclarationView.{view_size, view_unit};
ghost use Rattle.pst_bind.specs.Pools as laid;
ghost use Rattle.pst_elab_rules.specs.Model as tree;
ghost use Rattle.pst_model_pools.specs.Rows.{row_pools};
ghost use Rattle.pst_sources.specs.Shown.{sources_of};
ghost use Rattle.pst_terms.specs.Sources.{declared_in};

use pst_ast::{Declaration, Instance, SizeNode, Sort};
use pst_base::NoMemory;
use pst_bind::component_of;
use pst_declared_parts::PoolSites;
use pst_model::Pool;
use pst_model_members::object_of;
use pst_sources::Known;
use pst_type_numbers::Numbered;

// A size as it is written; 1 where there is none.
fn amount_in(known: &Known<'_>, size: &Option<SizeNode>) -> u64
    ensures { result ≡ option_map_or (tree.amount_in (sources_of known.now)) (option_map view_size size.now) 1 }
{
    match size {
        None => 1,
        Some(size) => known.amount_of(&size.expr),
    }
}

// The size of a pool, as it is written.
fn pool_amount(known: &Known<'_>, pools: &PoolSites<'_>, pool: &Declaration) -> u64
    requires { map view_unit pools.now ≡ (sources_of known.now).units }
    ensures { result ≡ tree.size_of_pool (sources_of known.now) pool.now }
{
    match pools.at(pool.name.place) {
        None => 1,
        Some(node) => amount_in(known, &node.size),
    }
}

// The size of a pool.
fn pool_size(known: &Known<'_>, pools: &PoolSites<'_>, pool: &Declaration) -> Result<u32, NoMemory>
    requires { map view_unit pools.now ≡ (sources_of known.now).units }
    ensures { IfOk result (λ n. n ≡ tree.size_of_pool (sources_of known.now) pool.now) }
{
    match u32::try_from(pool_amount(known, pools, pool)) {
        Ok(size) => Ok(size),
        Err(_) => Err(NoMemory),
    }
}

// A pool of an instance.
fn model_pool(
    numbered: &Numbered<'_>,
    pools: &PoolSites<'_>,
    instance: u32,
    pool: &Declaration,
) -> Result<Pool, NoMemory>
    requires { map view_unit pools.now ≡ (sources_of numbered.now).units }
    ensures { IfOk result (λ p. p ≡ tree.model_pool (sources_of numbered.now) (instance, pool.now)) }
{
    Ok(Pool {
        name: pool.name.id,
        instance,
        object: object_of(numbered, pool)?,
        size: pool_size(numbered.sources().known(), pools, pool)?,
    })
}

// Adds those of declarations that are pools.
fn add_row(
    numbered: &Numbered<'_>,
    pools: &PoolSites<'_>,
    found: &mut Vec<Pool>,
    number: u32,
    declarations: &[Declaration],
) -> Result<(), NoMemory>
    requires { map view_unit pools.now ≡ (sources_of numbered.now).units }
    ensures { OnOk result (found.new.items ≡ found.old.items ++ row_pools (sources_of numbered.now) number declarations.now) }
{
    for declaration in declarations {
        if matches!(declaration.sort, Sort::Pool { .. }) {
            found.push(model_pool(numbered, pools, number, declaration)?)?;
        }
    }
    Ok(())
}

// Adds the pools of an instance.
fn add_instance(
    numbered: &Numbered<'_>,
    pools: &PoolSites<'_>,
    found: &mut Vec<Pool>,
    number: u32,
    instance: &Instance,
) -> Result<(), NoMemory>
    requires { map view_unit pools.now ≡ (sources_of numbered.now).units }
    ensures { OnOk result (found.new.items ≡ found.old.items ++ map (tree.model_pool (sources_of numbered.now)) (laid.pools_at (declared_in (sources_of numbered.now)) (number, instance.now))) }
{
    let known = numbered.sources().known();
    match component_of(known.index(), instance) {
        None => Ok(()),
        Some(component) => {
            let row = known.members().own(&component);
            add_row(numbered, pools, found, number, row)?;
            Ok(())
        }
    }
}

// Adds the pools of instances.
fn add_instances(
    numbered: &Numbered<'_>,
    pools: &PoolSites<'_>,
    found: &mut Vec<Pool>,
    instances: &[Instance],
) -> Result<(), NoMemory>
    requires { map view_unit pools.now ≡ (sources_of numbered.now).units }
    ensures { OnOk result (found.new.items ≡ found.old.items ++ map (tree.model_pool (sources_of numbered.now)) (laid.pools (declared_in (sources_of numbered.now)) instances.now)) }
{
    for at in 0..instances.len() {
        let Ok(number) = u32::try_from(at) else {
            return Err(NoMemory);
        };
        add_instance(numbered, pools, found, number, &instances[at])?;
    }
    Ok(())
}

/// The pools of a model, by instance and then in order of declaration.
pub fn model_pools(numbered: &Numbered<'_>, instances: &[Instance]) -> Result<Vec<Pool>, NoMemory>
    ensures { IfOk result (λ found. found.items ≡ map (tree.model_pool (sources_of numbered.now)) (laid.pools (declared_in (sources_of numbered.now)) instances.now)) }
{
    let known = numbered.sources().known();
    let pools = PoolSites::new(known.alloc(), known.sites().sources())?;
    let mut found = Vec::new(known.alloc());
    add_instances(numbered, &pools, &mut found, instances)?;
    Ok(found)
}
