//! Elaborating sources.
ghost use Rattle.std.specs.Prelude.{◌≡◌, IfErr, IfOk, map};
ghost use Rattle.pst_ast.specs.DeclarationView.{view_unit};
ghost use Rattle.pst_ast.specs.Declarations.{declarations as the_declarations};
ghost use Rattle.pst_elab_rules.specs.Ends.{IsElaborated};
ghost use Rattle.pst_model.specs.ModelView.{view_model};
ghost use Rattle.pst_source_rules.specs.Judged.{IsEnd};

use crate::model::model_of;
use pst_ast::Unit;
use pst_base::{Names, NoMemory};
use pst_collect::declarations;
use pst_elab_rules::ElabEnd;
use pst_index::Index;
use pst_model::Model;
use pst_sites::Sites;
use pst_source_rules::judge;
use std::alloc::Global;

// The same, given the places at which things are declared and the index of what the sources declare,
// with the names of the root as bytes.
#[tactic(auto, using(crate::proofs::Elaborating::elaborated))]
fn elaborated_by(
    alloc: Global,
    sites: &Sites<'_>,
    index: &Index,
    names: &Names,
    component: &[u8],
    action: &[u8],
) -> Result<(Model, u32), ElabEnd>
    requires { index.now ≡ the_declarations (map view_unit sites.now) }
    ensures model { IfOk result (λ found. IsElaborated (map view_unit sites.now) names.now component.now action.now (view_model found.0) found.1) }
    ensures end { IfErr result (IsEnd (map view_unit sites.now) names.now component.now action.now) }
{
    let judged = judge(alloc, sites, index, names, component, action)?;
    match model_of(alloc, sites, index, names, &judged) {
        Ok(model) => Ok((model, judged.root)),
        Err(NoMemory) => Err(ElabEnd::NoMemory),
    }
}

// The same, given the index of what the sources declare.
fn elaborated_in(
    alloc: Global,
    units: &[Unit],
    index: &Index,
    names: &Names,
    component: &[u8],
    action: &[u8],
) -> Result<(Model, u32), ElabEnd>
    requires { index.now ≡ the_declarations (map view_unit units.now) }
    ensures model { IfOk result (λ found. IsElaborated (map view_unit units.now) names.now component.now action.now (view_model found.0) found.1) }
    ensures end { IfErr result (IsEnd (map view_unit units.now) names.now component.now action.now) }
{
    match Sites::new(alloc, units) {
        Ok(sites) => elaborated_by(alloc, &sites, index, names, component, action),
        Err(NoMemory) => Err(ElabEnd::NoMemory),
    }
}

// The index of what sources declare.
fn index_of(alloc: Global, units: &[Unit]) -> Result<Index, NoMemory>
    ensures { IfOk result (λ index. index ≡ the_declarations (map view_unit units.now)) }
{
    let declared = declarations(alloc, units)?;
    Index::new(alloc, declared)
}

// The same, with the names of the root as bytes.
fn elaborated(
    alloc: Global,
    units: &[Unit],
    names: &Names,
    component: &[u8],
    action: &[u8],
) -> Result<(Model, u32), ElabEnd>
    ensures model { IfOk result (λ found. IsElaborated (map view_unit units.now) names.now component.now action.now (view_model found.0) found.1) }
    ensures end { IfErr result (IsEnd (map view_unit units.now) names.now component.now action.now) }
{
    match index_of(alloc, units) {
        Ok(index) => elaborated_in(alloc, units, &index, names, component, action),
        Err(NoMemory) => Err(ElabEnd::NoMemory),
    }
}

/// The model of the sources, and the number of the root action's type. The root is named by its
/// component and its own name.
///
/// `Broken` has the first breach of a rule: that of the least place and rule of the first of three
/// parts that has one, which are rules 1 to 8, rules 9 to 21, and rules 22 to 24. `Many` comes where
/// rules 1 to 21 are kept and there are more than 256 component instances, with the count 257. Where
/// the sources have no root of these names, rule 24 is broken behind all files. `NoMemory` comes where
/// memory ran out, and where a number doesn't fit its type.
pub fn elaborate(
    alloc: Global,
    units: &[Unit],
    names: &Names,
    root_component: &str,
    root_action: &str,
) -> Result<(Model, u32), ElabEnd>
    ensures model { IfOk result (λ found. IsElaborated (map view_unit units.now) names.now root_component.now root_action.now (view_model found.0) found.1) }
    ensures end { IfErr result (IsEnd (map view_unit units.now) names.now root_component.now root_action.now) }
{
    let component = root_component.as_bytes();
    let action = root_action.as_bytes();
    elaborated(alloc, units, names, component, action)
}
