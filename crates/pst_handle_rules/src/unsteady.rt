//! Handles that are named, and that an activity doesn't traverse exactly once.
ghost use Rattle.std.specs.Prelude.{◌≡◌, ◌↔◌, ◌+◌, ◌<◌, IfOk, IsTrue, length, map};
ghost use Rattle.pst_ast.specs.DeclarationView.{view_unit};
ghost use Rattle.pst_ast.specs.Declarations.{declarations};
ghost use Rattle.pst_name_rules.specs.Leasts.{IsLeastOf};
ghost use Rattle.pst_handle_rules.specs.Based.{places_of_bases};
ghost use Rattle.pst_handle_rules.specs.Judged.{IsBroken, IsBrokenBefore};
ghost use Rattle.pst_steady.specs.Derived.{AreBelow};

use crate::based::is_base;
use pst_ast::Finding;
use pst_base::NoMemory;
use pst_handle_uses::Judging;
use pst_name_rules::earlier;
use pst_places::PlaceList;
use pst_sites::Sites;
use pst_steady::{Below, Lineage, has_unsteady, is_steady_in, none_unsteady};

// Whether an activity that must traverse a handle exactly once doesn't.
fn is_broken(
    sites: &Sites,
    lineage: &Lineage,
    below: &Below,
    base_places: &PlaceList,
    judging: &Judging,
) -> Result<bool, NoMemory>
    requires declared { lineage.now.index.now ≡ declarations (map view_unit sites.now) }
    requires below { AreBelow (map view_unit sites.now) lineage.now.places.now lineage.now.bases.now lineage.now.values.now lineage.now.tallies.now below.now }
    requires bases { base_places.now ≡ places_of_bases (declarations (map view_unit sites.now)) }
    ensures { IfOk result (λ broken. IsTrue broken ↔ IsBroken (map view_unit sites.now) judging.now) }
{
    if !is_steady_in(sites, lineage, &judging.action, judging.name.id)? {
        return Ok(true);
    }
    if !judging.derived {
        return Ok(false);
    }
    if !is_base(base_places, &judging.action) {
        return Ok(false);
    }
    if none_unsteady(sites, lineage, below, &judging.action, judging.name.id) {
        return Ok(false);
    }
    has_unsteady(sites, lineage, &judging.action, judging.name.id)
}

// Whether two findings are one, or none.
fn is_same_finding(a: Option<Finding>, b: Option<Finding>) -> bool
    ensures { IsTrue result ↔ (a ≡ b) }
{
    a == b
}

// The least finding with that at a further handle, which is looked at only where it is no later.
fn least_with(
    sites: &Sites,
    lineage: &Lineage,
    below: &Below,
    base_places: &PlaceList,
    judgings: &[Judging],
    at: usize,
    least: Option<Finding>,
) -> Result<Option<Finding>, NoMemory>
    requires declared { lineage.now.index.now ≡ declarations (map view_unit sites.now) }
    requires below { AreBelow (map view_unit sites.now) lineage.now.places.now lineage.now.bases.now lineage.now.values.now lineage.now.tallies.now below.now }
    requires bases { base_places.now ≡ places_of_bases (declarations (map view_unit sites.now)) }
    requires within { at < length judgings.now }
    requires least { IsLeastOf (IsBrokenBefore (map view_unit sites.now) judgings.now at) least }
    ensures { IfOk result (IsLeastOf (IsBrokenBefore (map view_unit sites.now) judgings.now (at + 1))) }
{
    pst_base::places_are_ordered();
    let judging = &judgings[at];
    let here = Finding {
        place: judging.name.place,
        rule: 18,
    };
    let next = earlier(least, Some(here));
    if is_same_finding(next, least) {
        return Ok(least);
    }
    let broken = is_broken(sites, lineage, below, base_places, judging)?;
    if broken { Ok(next) } else { Ok(least) }
}

/// The least of the findings at handles that are named.
pub fn unsteady_among(
    sites: &Sites,
    lineage: &Lineage,
    below: &Below,
    base_places: &PlaceList,
    judgings: &[Judging],
) -> Result<Option<Finding>, NoMemory>
    requires declared { lineage.now.index.now ≡ declarations (map view_unit sites.now) }
    requires below { AreBelow (map view_unit sites.now) lineage.now.places.now lineage.now.bases.now lineage.now.values.now lineage.now.tallies.now below.now }
    requires bases { base_places.now ≡ places_of_bases (declarations (map view_unit sites.now)) }
    ensures { IfOk result (IsLeastOf (IsBrokenBefore (map view_unit sites.now) judgings.now (length judgings.now))) }
{
    let mut least = None;
    for at in 0..judgings.len() {
        least = least_with(sites, lineage, below, base_places, judgings, at, least)?;
    }
    Ok(least)
}
