//! Judging sources by all rules.
ghost use Rattle.std.specs.Prelude.{◌≡◌, ◌≤◌, IfErr, IfOk, length, map};
ghost use Rattle.pst_ast.specs.DeclarationView.{view_unit};
ghost use Rattle.pst_elab_rules.specs.Ends as ends;
ghost use Rattle.pst_evaluate.specs.Kept.{known_in};
ghost use Rattle.pst_evaluate.specs.Settled.{AreItemValues};
ghost use Rattle.pst_ast.specs.Breaches.{IsNone};
ghost use Rattle.pst_ast.specs.Declarations.{declarations as the_declarations};
ghost use Rattle.pst_ast.specs.NameRules.{NameBreach};
ghost use Rattle.pst_ast.specs.Scopes.{AreScopes};
ghost use Rattle.pst_source_rules.specs.Judged.{IsEnd, IsJudged};
ghost use Rattle.pst_tree.specs.Instances.{AreInstances};
ghost use Rattle.pst_type_rules.specs.Typed.{AreConstants};

use crate::by_sites::{scopes_of, tree_of};
use crate::last::last;
use crate::root::RootWords;
use pst_ast::{Finding, Scopes};
use pst_base::Names;
use pst_bind::PoolMap;
use pst_elab_rules::ElabEnd;
use pst_evaluate::ItemValues;
use pst_index::Index;
use pst_names::RuleEnd;
use pst_sites::Sites;
use pst_tree::{Tree, TreeEnd};
use pst_type_rules::Typed;
use pst_types::check_sites;
use std::alloc::Global;

/// Sources that keep all rules.
#[derive(Drop)]
pub struct Judged {
    /// The values of their constants.
    pub typed: Typed,
    /// The values of their enum items.
    pub values: ItemValues,
    /// Their component instances.
    pub tree: Tree,
    /// Their pools, and what they serve.
    pub pools: PoolMap,
    /// The number of the root's action type.
    pub root: u32,
}

// Sources that keep the rules of names and of types, with their instances.
#[tactic(auto, using(crate::proofs::Judging::judged_is, crate::proofs::Judging::broken_at_last))]
fn judged_last(
    alloc: Global,
    sites: &Sites<'_>,
    index: &Index,
    names: &Names,
    words: &RootWords<'_>,
    typed: Typed,
    values: ItemValues,
    tree: Tree,
) -> Result<Judged, ElabEnd>
    requires declared { index.now ≡ the_declarations (map view_unit sites.now) }
    requires typed { ends.AreTyped (map view_unit sites.now) names.now }
    requires constants { AreConstants (map view_unit sites.now) names.now typed.constants }
    requires values { AreItemValues (map view_unit sites.now) names.now (known_in values) }
    requires tree { AreInstances (map view_unit sites.now) names.now tree.instances }
    requires few { length tree.instances ≤ 256 }
    ensures judged { IfOk result (IsJudged (map view_unit sites.now) names.now words.now.component.now words.now.action.now) }
    ensures end { IfErr result (IsEnd (map view_unit sites.now) names.now words.now.component.now words.now.action.now) }
{
    match last(alloc, sites, index, names, tree.instances.as_slice(), words) {
        Ok(Ok((pools, root))) => Ok(Judged {
            typed,
            values,
            tree,
            pools,
            root,
        }),
        Ok(Err(Finding { place, rule })) => Err(ElabEnd::Broken { place, rule }),
        Err(_) => Err(ElabEnd::NoMemory),
    }
}

// Sources that keep the rules of names and of types.
#[tactic(auto, using(crate::proofs::Judging::many_is))]
fn judged_typed(
    alloc: Global,
    sites: &Sites<'_>,
    index: &Index,
    names: &Names,
    scopes: &Scopes,
    words: &RootWords<'_>,
    typed: Typed,
    values: ItemValues,
) -> Result<Judged, ElabEnd>
    requires declared { index.now ≡ the_declarations (map view_unit sites.now) }
    requires typed { ends.AreTyped (map view_unit sites.now) names.now }
    requires scopes { AreScopes (map view_unit sites.now) names.now scopes.now.types scopes.now.meanings }
    requires constants { AreConstants (map view_unit sites.now) names.now typed.constants }
    requires values { AreItemValues (map view_unit sites.now) names.now (known_in values) }
    ensures judged { IfOk result (IsJudged (map view_unit sites.now) names.now words.now.component.now words.now.action.now) }
    ensures end { IfErr result (IsEnd (map view_unit sites.now) names.now words.now.component.now words.now.action.now) }
{
    match tree_of(alloc, sites, index, names, scopes) {
        Ok(tree) => judged_last(alloc, sites, index, names, words, typed, values, tree),
        Err(TreeEnd::Many { count }) => Err(ElabEnd::Many { count }),
        Err(TreeEnd::NoMemory) => Err(ElabEnd::NoMemory),
    }
}

// Sources that keep the rules of names.
#[tactic(auto, using(crate::proofs::Judging::typed_is, crate::proofs::Judging::broken_in_types))]
fn judged_named(
    alloc: Global,
    sites: &Sites<'_>,
    index: &Index,
    names: &Names,
    scopes: &Scopes,
    words: &RootWords<'_>,
) -> Result<Judged, ElabEnd>
    requires declared { index.now ≡ the_declarations (map view_unit sites.now) }
    requires named { IsNone (NameBreach (map view_unit sites.now) names.now) }
    requires scopes { AreScopes (map view_unit sites.now) names.now scopes.now.types scopes.now.meanings }
    ensures judged { IfOk result (IsJudged (map view_unit sites.now) names.now words.now.component.now words.now.action.now) }
    ensures end { IfErr result (IsEnd (map view_unit sites.now) names.now words.now.component.now words.now.action.now) }
{
    match check_sites(alloc, sites, index, names) {
        Ok((typed, values)) => {
            judged_typed(alloc, sites, index, names, scopes, words, typed, values)
        }
        Err(RuleEnd::Broken { place, rule }) => Err(ElabEnd::Broken { place, rule }),
        Err(RuleEnd::NoMemory) => Err(ElabEnd::NoMemory),
    }
}

/// Judges sources by all rules, in their order: those of names, those of types, the number of
/// instances, and those of pools and of the root, whose component and action have these names. The
/// sources are given by the places at which things are declared, and the index is that of what they
/// declare.
///
/// `Broken` has the least place at which a rule of the first part is broken that has a breach, and
/// the least rule that is broken there. `Many` comes where the first two parts have none and there
/// are more than 256 instances. `NoMemory` comes where memory ran out, and where something is
/// counted that a `u32` can't hold.
#[tactic(auto, using(crate::proofs::Judging::broken_in_names))]
pub fn judge(
    alloc: Global,
    sites: &Sites<'_>,
    index: &Index,
    names: &Names,
    component: &[u8],
    action: &[u8],
) -> Result<Judged, ElabEnd>
    requires { index.now ≡ the_declarations (map view_unit sites.now) }
    ensures judged { IfOk result (IsJudged (map view_unit sites.now) names.now component.now action.now) }
    ensures end { IfErr result (IsEnd (map view_unit sites.now) names.now component.now action.now) }
{
    let words = RootWords { component, action };
    match scopes_of(alloc, sites, index, names) {
        Ok(scopes) => judged_named(alloc, sites, index, names, &scopes, &words),
        Err(RuleEnd::Broken { place, rule }) => Err(ElabEnd::Broken { place, rule }),
        Err(RuleEnd::NoMemory) => Err(ElabEnd::NoMemory),
    }
}
