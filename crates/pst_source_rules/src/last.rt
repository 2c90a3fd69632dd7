//! The rules of pools and of the root.
ghost use Rattle.std.specs.Prelude.{◌≡◌, IfOk, map, Some};
ghost use Rattle.pst_ast.specs.DeclarationView.{view_unit};
ghost use Rattle.pst_bind.specs.PooledSources.{ArePooled};
ghost use Rattle.pst_elab_rules.specs.Ends as ends;
ghost use Rattle.pst_name_rules.specs.Earlier;
ghost use Rattle.pst_ast.specs.Declarations.{declarations as the_declarations};
ghost use Rattle.pst_source_rules.specs.Judged.{IsLast, both_of, or_first};

use crate::by_sites::pools_of;
use crate::root::{RootWords, root_number};
use pst_ast::{Finding, Instance};
use pst_base::{Names, NoMemory, Place};
use pst_bind::PoolMap;
use pst_index::Index;
use pst_name_rules::earlier;
use pst_names::RuleEnd;
use pst_sites::Sites;
use std::alloc::Global;

// The pools and what they serve, or the least breach of the rules of pools.
fn pooled(
    alloc: Global,
    sites: &Sites<'_>,
    index: &Index,
    instances: &[Instance],
) -> Result<Result<PoolMap, Finding>, NoMemory>
    requires { index.now ≡ the_declarations (map view_unit sites.now) }
    ensures { IfOk result (ArePooled (map view_unit sites.now) instances.now) }
{
    match pools_of(alloc, sites, index, instances) {
        Ok(found) => Ok(Ok(found)),
        Err(RuleEnd::Broken { place, rule }) => Ok(Err(Finding { place, rule })),
        Err(RuleEnd::NoMemory) => Err(NoMemory),
    }
}

// That the words name no root.
fn no_root() -> Finding
    ensures { result ≡ record { place = ends.root_place; rule = 24 } }
{
    Finding {
        place: Place {
            file: u32::MAX,
            line: 1,
            column: 1,
        },
        rule: 24,
    }
}

// The earlier of two breaches.
fn first_of(a: Finding, b: Finding) -> Finding
    ensures { result ≡ or_first (Earlier.earlier (Some a) (Some b)) a }
{
    match earlier(Some(a), Some(b)) {
        Some(found) => found,
        None => a,
    }
}

// The rules of pools and of the root together.
fn both(pooled: Result<PoolMap, Finding>, root: Option<u32>) -> Result<(PoolMap, u32), Finding>
    ensures { result ≡ both_of pooled root }
{
    match pooled {
        Ok(found) => match root {
            Some(root) => Ok((found, root)),
            None => Err(no_root()),
        },
        Err(finding) => match root {
            Some(_) => Err(finding),
            None => Err(first_of(finding, no_root())),
        },
    }
}

/// The pools and the root where no rule of pools and of the root is broken, or else the least
/// breach.
#[tactic(auto, using(crate::proofs::Lasting::last_is))]
pub fn last(
    alloc: Global,
    sites: &Sites<'_>,
    index: &Index,
    names: &Names,
    instances: &[Instance],
    words: &RootWords<'_>,
) -> Result<Result<(PoolMap, u32), Finding>, NoMemory>
    requires { index.now ≡ the_declarations (map view_unit sites.now) }
    ensures { IfOk result (IsLast (map view_unit sites.now) names.now instances.now words.now.component.now words.now.action.now) }
{
    pst_base::places_are_ordered();
    let pooled = pooled(alloc, sites, index, instances)?;
    let root = root_number(alloc, sites, index, names, instances, words)?;
    Ok(both(pooled, root))
}
