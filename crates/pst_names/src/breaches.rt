//! The least breach of all rules of names.
ghost use Rattle.std.specs.Prelude.{◌≡◌, IfOk, None, map};
ghost use Rattle.std.specs.List.{list_any};
ghost use Rattle.pst_ast.specs.DeclarationView.{view_unit};
ghost use Rattle.pst_ast.specs.Declarations.{declarations};
ghost use Rattle.pst_ast.specs.NameRules.{is_root_component, use_finding};
ghost use Rattle.pst_ast.specs.Uses.{uses};
ghost use Rattle.pst_name_rules.specs.Own.{own_finding as the_own};
ghost use Rattle.pst_name_rules.specs.Leasts.{IsLeastOf, least_at};
ghost use Rattle.pst_names.specs.Resolved.{IsBreach, root_finding as the_root};

use pst_ast::{Finding, Unit};
use pst_base::{Names, NoMemory};
use pst_index::Index;
use pst_loops::first_on_loop;
use pst_name_rules::{earlier, has_root, own_finding};
use std::alloc::Global;

// The least of the findings at declarations, loops apart.
fn own_least(index: &Index, names: &Names) -> Option<Finding>
    ensures { result ≡ least_at (the_own index.now names.now) index.now None }
{
    let mut least = None;
    for declaration in index.as_slice() {
        least = earlier(least, own_finding(index, names, declaration));
    }
    least
}

// Rule 8 at the end of the last file, where no file has the component `pss_top`.
#[tactic(auto, using(crate::proofs::Rootless::finish_seen))]
fn root_finding(units: &[Unit], index: &Index, names: &Names) -> Option<Finding>
    ensures { result ≡ the_root (list_any (is_root_component names.now) index.now) (map view_unit units.now) }
{
    if has_root(index, names) {
        return None;
    }
    match units.last() {
        None => None,
        Some(last) => Some(Finding {
            place: last.finish.place,
            rule: 8,
        }),
    }
}

/// The least breach of all, given the least finding of the uses of names.
#[tactic(auto, using(crate::proofs::Resolving::least_of_parts))]
pub fn least_breach(
    alloc: Global,
    units: &[Unit],
    index: &Index,
    names: &Names,
    used: Option<Finding>,
) -> Result<Option<Finding>, NoMemory>
    requires declared { index.now ≡ declarations (map view_unit units.now) }
    requires used { used ≡ least_at (use_finding index.now names.now) (uses (map view_unit units.now)) None }
    ensures { IfOk result (λ least. IsLeastOf (IsBreach (map view_unit units.now) names.now) least) }
{
    pst_base::places_are_ordered();
    let own = own_least(index, names);
    let loops = first_on_loop(alloc, index)?;
    let root = root_finding(units, index, names);
    Ok(earlier(earlier(earlier(used, own), loops), root))
}
