//! Judging the names of sources.
ghost use Rattle.std.specs.Prelude.{◌≡◌, IfErr, IfOk, None, map};
ghost use Rattle.std.specs.List.{flat_map};
ghost use Rattle.pst_ast.specs.DeclarationView.{view_unit};
ghost use Rattle.pst_ast.specs.Declarations.{declarations as the_declarations};
ghost use Rattle.pst_ast.specs.NameRules.{use_finding};
ghost use Rattle.pst_ast.specs.Scopes.{use_meant};
ghost use Rattle.pst_ast.specs.Uses.{uses};
ghost use Rattle.pst_name_rules.specs.Leasts.{least_at};
ghost use Rattle.pst_names.specs.Resolved.{AreResolved, IsJudged, IsUnresolved};

use crate::breaches::least_breach;
use crate::end::RuleEnd;
use crate::judge::Judge;
use pst_ast::{Checked, Finding, Meant, Scopes, Unit};
use pst_base::{Names, NoMemory};
use pst_collect::declarations;
use pst_index::Index;
use pst_numbers::scopes;
use pst_walk::walk;
use std::alloc::Global;

// The least finding of all uses of names, and what the names that are used stand for.
#[tactic(auto, using(crate::proofs::Walked::walked))]
fn judged(
    alloc: Global,
    units: &[Unit],
    index: &Index,
    names: &Names,
) -> Result<(Option<Finding>, Vec<Meant>), NoMemory>
    ensures least { IfOk result (λ found. found.0 ≡ least_at (use_finding index.now names.now) (uses (map view_unit units.now)) None) }
    ensures meant { IfOk result (λ found. found.1.items ≡ flat_map (use_meant index.now names.now) (uses (map view_unit units.now))) }
{
    let mut judge = Judge::new(alloc, index, names);
    walk(alloc, units, &mut judge)?;
    Ok(judge.into_parts())
}

// What judging the names of sources says of them, given what they declare.
#[tactic(auto, using(crate::proofs::Resolving::is_least, crate::proofs::Resolving::is_none, crate::proofs::Resolving::are_scopes))]
fn judged_index(
    alloc: Global,
    units: &[Unit],
    index: &Index,
    names: &Names,
) -> Result<Checked<Scopes>, NoMemory>
    requires declared { index.now ≡ the_declarations (map view_unit units.now) }
    ensures { IfOk result (λ found. IsJudged (map view_unit units.now) names.now found) }
{
    let (used, meant) = judged(alloc, units, index, names)?;
    match least_breach(alloc, units, index, names, used)? {
        Some(Finding { place, rule }) => Ok(Checked::Breaks { place, rule }),
        None => {
            let scopes = scopes(alloc, index, meant.as_slice())?;
            Ok(Checked::Is(scopes))
        }
    }
}

// The index of what sources declare.
fn index_of(alloc: Global, units: &[Unit]) -> Result<Index, NoMemory>
    ensures { IfOk result (λ index. index ≡ the_declarations (map view_unit units.now)) }
{
    let declared = declarations(alloc, units)?;
    Index::new(alloc, declared)
}

/// What `resolve` answers, given the index of what the sources declare.
pub fn resolve_by(
    alloc: Global,
    units: &[Unit],
    index: &Index,
    names: &Names,
) -> Result<Scopes, RuleEnd>
    requires declared { index.now ≡ the_declarations (map view_unit units.now) }
    ensures resolved { IfOk result (λ scopes. AreResolved (map view_unit units.now) names.now scopes.types scopes.meanings) }
    ensures broken { IfErr result (λ end. IsUnresolved (map view_unit units.now) names.now end) }
{
    match judged_index(alloc, units, index, names) {
        Ok(Checked::Is(scopes)) => Ok(scopes),
        Ok(Checked::Breaks { place, rule }) => Err(RuleEnd::Broken { place, rule }),
        Err(NoMemory) => Err(RuleEnd::NoMemory),
    }
}

/// Judges the names of sources by the rules of names: the types of the sources, and what each name
/// that is used means, where none of the rules is broken.
///
/// `Broken` has the least place at which a rule is broken, and the least rule that is broken there.
/// `NoMemory` comes where memory ran out, where something is counted that a `u32` can't hold, and
/// where two names that mean different things are used at one place, which no tokens at rising
/// places are.
pub fn resolve(alloc: Global, units: &[Unit], names: &Names) -> Result<Scopes, RuleEnd>
    ensures resolved { IfOk result (λ scopes. AreResolved (map view_unit units.now) names.now scopes.types scopes.meanings) }
    ensures broken { IfErr result (λ end. IsUnresolved (map view_unit units.now) names.now end) }
{
    match index_of(alloc, units) {
        Ok(index) => resolve_by(alloc, units, &index, names),
        Err(NoMemory) => Err(RuleEnd::NoMemory),
    }
}
