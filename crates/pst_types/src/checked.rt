//! Judging the types of sources.
ghost use Rattle.std.specs.Prelude.{◌≡◌, IfErr, IfOk, map};
ghost use Rattle.pst_ast.specs.DeclarationView.{view_unit};
ghost use Rattle.pst_evaluate.specs.Kept.{known_in};
ghost use Rattle.pst_evaluate.specs.Settled.{AreItemValues};
ghost use Rattle.pst_name_rules.specs.Leasts.{IsLeastOf};
ghost use Rattle.pst_ast.specs.Breaches.{IsNone};
ghost use Rattle.pst_ast.specs.Declarations.{declarations as the_declarations};
ghost use Rattle.pst_ast.specs.NameRules.{NameBreach};
ghost use Rattle.pst_ast.specs.Scopes.{AreScopes};
ghost use Rattle.pst_type_rules.specs.Typed.{AreConstants};
ghost use Rattle.pst_types.specs.Checked.{AreTyped, IsBreach, IsChecked, IsOtherBreach, IsUntyped};

use pst_ast::{Checked, Finding, Scopes, Unit};
use pst_base::{Items, Names, NoMemory};
use pst_collect::declarations;
use pst_declaration_rules::declarations_finding;
use pst_enum_rules::enums_finding;
use pst_enum_values::EnumTable;
use pst_evaluate::{ItemValues, item_values};
use pst_handle_rules::handle_findings;
use pst_index::Index;
use pst_name_rules::earlier;
use pst_names::RuleEnd;
use pst_sites::Sites;
use pst_type_rules::{ConstantValue, Typed};
use pst_typed_uses::uses_finding;
use pst_use_rules::Facts;
use std::alloc::Global;

// The least breach apart from those of single uses.
#[tactic(auto, using(pst_name_rules::proofs::Leasts::least_of_both))]
fn others_least(
    alloc: Global,
    sites: &Sites,
    index: &Index,
    names: &Names,
    values: &ItemValues,
) -> Result<Option<Finding>, NoMemory>
    requires declared { index.now ≡ the_declarations (map view_unit sites.now) }
    requires values { AreItemValues (map view_unit sites.now) names.now (known_in values.now) }
    requires named { IsNone (NameBreach (map view_unit sites.now) names.now) }
    ensures { IfOk result (IsLeastOf (IsOtherBreach (map view_unit sites.now) names.now)) }
{
    pst_base::places_are_ordered();
    let by_enum = enums_finding(alloc, sites, names, values)?;
    let by_declaration = declarations_finding(alloc, sites, index, names, values)?;
    let (unsteady, twice) = handle_findings(alloc, sites, index, names)?;
    Ok(earlier(earlier(by_enum, by_declaration), earlier(unsteady, twice)))
}

// The least breach, and the constants, given what names stand for and the values of items.
#[tactic(auto, using(crate::proofs::Checking::all_least, crate::proofs::Checking::enums_of_sites))]
fn judged_sites(
    alloc: Global,
    sites: &Sites,
    index: &Index,
    names: &Names,
    values: &ItemValues,
) -> Result<(Option<Finding>, Vec<ConstantValue>), NoMemory>
    requires declared { index.now ≡ the_declarations (map view_unit sites.now) }
    requires values { AreItemValues (map view_unit sites.now) names.now (known_in values.now) }
    requires named { IsNone (NameBreach (map view_unit sites.now) names.now) }
    ensures least { IfOk result (λ found. IsLeastOf (IsBreach (map view_unit sites.now) names.now) found.0) }
    ensures constants { IfOk result (λ found. AreConstants (map view_unit sites.now) names.now found.1.items) }
{
    pst_base::places_are_ordered();
    let enums = EnumTable::new(alloc, sites.enums(), values)?;
    let facts = Facts {
        alloc,
        index,
        names,
        sites,
    };
    let (used, constants) = uses_finding(alloc, &facts, &enums)?;
    let others = others_least(alloc, sites, index, names, values)?;
    Ok((earlier(used, others), constants))
}

// What judging the types of sources says of them, given what they declare and where, and the values
// of their enum items.
#[tactic(auto, using(crate::proofs::Checking::is_least, crate::proofs::Checking::is_none))]
fn judged_by_values(
    alloc: Global,
    sites: &Sites,
    index: &Index,
    names: &Names,
    values: &ItemValues,
) -> Result<Checked<Typed>, NoMemory>
    requires declared { index.now ≡ the_declarations (map view_unit sites.now) }
    requires values { AreItemValues (map view_unit sites.now) names.now (known_in values.now) }
    requires named { IsNone (NameBreach (map view_unit sites.now) names.now) }
    ensures { IfOk result (λ found. IsChecked (map view_unit sites.now) names.now found) }
{
    let (least, constants) = judged_sites(alloc, sites, index, names, values)?;
    match least {
        Some(Finding { place, rule }) => Ok(Checked::Breaks { place, rule }),
        None => Ok(Checked::Is(Typed {
            constants: Items::from_vec(constants),
        })),
    }
}

// The constants, given the values of enum items.
fn typed_by_values(
    alloc: Global,
    sites: &Sites,
    index: &Index,
    names: &Names,
    values: &ItemValues,
) -> Result<Typed, RuleEnd>
    requires declared { index.now ≡ the_declarations (map view_unit sites.now) }
    requires values { AreItemValues (map view_unit sites.now) names.now (known_in values.now) }
    requires named { IsNone (NameBreach (map view_unit sites.now) names.now) }
    ensures typed { IfOk result (λ typed. AreTyped (map view_unit sites.now) names.now typed.constants) }
    ensures broken { IfErr result (λ end. IsUntyped (map view_unit sites.now) names.now end) }
{
    match judged_by_values(alloc, sites, index, names, values) {
        Ok(Checked::Is(typed)) => Ok(typed),
        Ok(Checked::Breaks { place, rule }) => Err(RuleEnd::Broken { place, rule }),
        Err(NoMemory) => Err(RuleEnd::NoMemory),
    }
}

// The values of the enum items of the sources.
fn values_of(
    alloc: Global,
    sites: &Sites,
    index: &Index,
    names: &Names,
) -> Result<ItemValues, NoMemory>
    requires { index.now ≡ the_declarations (map view_unit sites.now) }
    ensures { IfOk result (λ v. AreItemValues (map view_unit sites.now) names.now (known_in v)) }
{
    item_values(alloc, sites.sources(), index, names)
}

/// What `check` answers, and the values of the enum items of the sources, given the index of what they
/// declare and the places at which they do.
pub fn check_sites(
    alloc: Global,
    sites: &Sites,
    index: &Index,
    names: &Names,
) -> Result<(Typed, ItemValues), RuleEnd>
    requires declared { index.now ≡ the_declarations (map view_unit sites.now) }
    requires named { IsNone (NameBreach (map view_unit sites.now) names.now) }
    ensures typed { IfOk result (λ found. AreTyped (map view_unit sites.now) names.now found.0.constants) }
    ensures values { IfOk result (λ found. AreItemValues (map view_unit sites.now) names.now (known_in found.1)) }
    ensures broken { IfErr result (λ end. IsUntyped (map view_unit sites.now) names.now end) }
{
    match values_of(alloc, sites, index, names) {
        Ok(values) => {
            let typed = typed_by_values(alloc, sites, index, names, &values)?;
            Ok((typed, values))
        }
        Err(NoMemory) => Err(RuleEnd::NoMemory),
    }
}

// The index of what sources declare.
fn index_of(alloc: Global, units: &[Unit]) -> Result<Index, NoMemory>
    ensures { IfOk result (λ index. index ≡ the_declarations (map view_unit units.now)) }
{
    let declared = declarations(alloc, units)?;
    Index::new(alloc, declared)
}

// What `check` answers, and the values of the enum items, given the index of what the sources declare.
fn check_units(
    alloc: Global,
    units: &[Unit],
    index: &Index,
    names: &Names,
) -> Result<(Typed, ItemValues), RuleEnd>
    requires declared { index.now ≡ the_declarations (map view_unit units.now) }
    requires named { IsNone (NameBreach (map view_unit units.now) names.now) }
    ensures typed { IfOk result (λ found. AreTyped (map view_unit units.now) names.now found.0.constants) }
    ensures broken { IfErr result (λ end. IsUntyped (map view_unit units.now) names.now end) }
{
    match Sites::new(alloc, units) {
        Ok(sites) => check_sites(alloc, &sites, index, names),
        Err(NoMemory) => Err(RuleEnd::NoMemory),
    }
}

/// Judges sources that keep the rules of names by the rules of types: the values of the parts that
/// must be constant, in order of place, where none of the rules is broken.
///
/// `Broken` has the least place at which one of rules 9 to 21 is broken, and the least rule that is
/// broken there. `NoMemory` comes where memory ran out, where something is counted that a `u32`
/// can't hold, and where constants with different values stand at one place, which no tokens at
/// rising places do. The scopes aren't looked at: what names stand for is looked up again.
pub fn check(
    alloc: Global,
    units: &[Unit],
    names: &Names,
    scopes: &Scopes,
) -> Result<Typed, RuleEnd>
    requires named { IsNone (NameBreach (map view_unit units.now) names.now) }
    requires scopes { AreScopes (map view_unit units.now) names.now scopes.now.types scopes.now.meanings }
    ensures typed { IfOk result (λ typed. AreTyped (map view_unit units.now) names.now typed.constants) }
    ensures broken { IfErr result (λ end. IsUntyped (map view_unit units.now) names.now end) }
{
    match index_of(alloc, units) {
        Ok(index) => {
            let (typed, _) = check_units(alloc, units, &index, names)?;
            Ok(typed)
        }
        Err(NoMemory) => Err(RuleEnd::NoMemory),
    }
}
