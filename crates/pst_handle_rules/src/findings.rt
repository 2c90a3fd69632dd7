//! The least findings of the rules of handles.
ghost use Rattle.std.specs.Prelude.{◌≡◌, IfOk, length, map};
ghost use Rattle.std.specs.HashMap.{get};
ghost use Rattle.pst_ast.specs.DeclarationView.{view_action, view_unit};
ghost use Rattle.pst_ast.specs.Declarations.{declarations};
ghost use Rattle.pst_type_rules.specs.Sites.{action_of};
ghost use Rattle.pst_name_rules.specs.Leasts.{IsLeastOf};
ghost use Rattle.pst_steady.specs.Numbered.{AreBases};
ghost use Rattle.pst_steady.specs.Reached.{AreReached};
ghost use Rattle.pst_steady.specs.Seeded.{AreSeeds};
ghost use Rattle.pst_traversals.specs.Tallied.{same_key, tally_of};
ghost use Rattle.pst_handle_rules.specs.Broken.{IsBoundTwice, IsUnsteady};
ghost use Rattle.pst_handle_rules.specs.Judged.{IsBrokenBefore};

use crate::based::base_places;
use crate::twice::twice_in;
use crate::unsteady::unsteady_among;
use pst_ast::{ActionNode, Declaration, Finding};
use pst_base::{Names, NoMemory};
use pst_handle_uses::{Judging, handle_uses};
use pst_index::Index;
use pst_places::PlaceList;
use pst_sites::Sites;
use pst_steady::{
    Below, Lineage, Seed, are_ranged, bases_of, order_of, ranges_of, reached, runs_of, seeds_of,
    slots_of,
};
use pst_traversals::{TallyKey, tallies};
use std::alloc::Global;

// The places of the names that are declared.
fn places_of(alloc: Global, declarations: &[Declaration]) -> Result<PlaceList, NoMemory> {
    let mut places = Vec::new(alloc);
    for declaration in declarations {
        places.push(declaration.name.place)?;
    }
    PlaceList::new(alloc, places)
}

// What is known of declarations and their bases.
#[derive(Clone, Copy)]
struct Declared<'a> {
    alloc: Global,
    index: &'a Index,
    places: &'a PlaceList,
    bases: &'a [Option<usize>],
}

// The least finding, where it is known which activity each declaration has.
fn unsteady_by_lineage(
    sites: &Sites,
    lineage: &Lineage,
    seeds: &[Seed],
    actions: &[&ActionNode],
    judgings: &[Judging],
) -> Result<Option<Finding>, NoMemory>
    requires declared { lineage.now.index.now ≡ declarations (map view_unit sites.now) }
    requires bases { AreBases (declarations (map view_unit sites.now)) lineage.now.bases.now }
    requires seeds { AreSeeds (map view_unit sites.now) (declarations (map view_unit sites.now)) (length (declarations (map view_unit sites.now))) (map (λ a. action_of (view_action a.now)) actions.now) seeds.now }
    requires values { AreReached seeds.now lineage.now.bases.now lineage.now.values.now }
    requires tallies { (key : TallyKey) → get same_key lineage.now.tallies.now key ≡ tally_of (map (λ a. action_of (view_action a.now)) actions.now) key }
    ensures { IfOk result (IsLeastOf (IsBrokenBefore (map view_unit sites.now) judgings.now (length judgings.now))) }
{
    let alloc = lineage.alloc;
    let base_places = base_places(alloc, lineage.index)?;
    let all_ranges = ranges_of(alloc, seeds, lineage.bases, lineage.order)?;
    let ranges = all_ranges.as_slice();
    let all_slots = slots_of(alloc, seeds, ranges)?;
    let slots = all_slots.as_slice();
    let runs = runs_of(alloc, lineage.tallies, slots, actions)?;
    let declarations = lineage.index.as_slice();
    let right = are_ranged(
        lineage.places,
        declarations,
        seeds,
        lineage.bases,
        ranges,
        slots,
    );
    let below = Below {
        ranges,
        slots,
        runs: &runs,
        right,
    };
    unsteady_among(sites, lineage, &below, &base_places, judgings)
}

// The least finding, where it is known where each declaration has its activity from.
fn unsteady_by_seeds(
    sites: &Sites,
    declared: &Declared,
    seeds: &[Seed],
    actions: &[&ActionNode],
    judgings: &[Judging],
) -> Result<Option<Finding>, NoMemory>
    requires declared { declared.now.index.now ≡ declarations (map view_unit sites.now) }
    requires bases { AreBases (declarations (map view_unit sites.now)) declared.now.bases.now }
    requires seeds { AreSeeds (map view_unit sites.now) (declarations (map view_unit sites.now)) (length (declarations (map view_unit sites.now))) (map (λ a. action_of (view_action a.now)) actions.now) seeds.now }
    ensures { IfOk result (IsLeastOf (IsBrokenBefore (map view_unit sites.now) judgings.now (length judgings.now))) }
{
    let alloc = declared.alloc;
    let order = order_of(alloc, declared.bases)?;
    let values = reached(alloc, seeds, declared.bases, order.as_slice())?;
    let tallies = tallies(alloc, actions)?;
    let lineage = Lineage {
        alloc,
        index: declared.index,
        places: declared.places,
        bases: declared.bases,
        values: values.as_slice(),
        tallies: &tallies,
        order: order.as_slice(),
    };
    unsteady_by_lineage(sites, &lineage, seeds, actions, judgings)
}

// The least finding, where bases are known by their numbers.
fn unsteady_by_bases(
    sites: &Sites,
    declared: &Declared,
    judgings: &[Judging],
) -> Result<Option<Finding>, NoMemory>
    requires declared { declared.now.index.now ≡ declarations (map view_unit sites.now) }
    requires bases { AreBases (declarations (map view_unit sites.now)) declared.now.bases.now }
    ensures { IfOk result (IsLeastOf (IsBrokenBefore (map view_unit sites.now) judgings.now (length judgings.now))) }
{
    let mut actions = Vec::new(declared.alloc);
    let seeds = seeds_of(
        declared.alloc,
        sites,
        declared.index.as_slice(),
        &mut actions,
    )?;
    unsteady_by_seeds(
        sites,
        declared,
        seeds.as_slice(),
        actions.as_slice(),
        judgings,
    )
}

// The least finding at handles that are named.
fn unsteady_by_judgings(
    alloc: Global,
    sites: &Sites,
    index: &Index,
    judgings: &[Judging],
) -> Result<Option<Finding>, NoMemory>
    requires declared { index.now ≡ declarations (map view_unit sites.now) }
    ensures { IfOk result (IsLeastOf (IsBrokenBefore (map view_unit sites.now) judgings.now (length judgings.now))) }
{
    let places = places_of(alloc, index.as_slice())?;
    let bases = bases_of(alloc, index, &places)?;
    let declared = Declared {
        alloc,
        index,
        places: &places,
        bases: bases.as_slice(),
    };
    unsteady_by_bases(sites, &declared, judgings)
}

/// The least findings of the two rules of handles. The first is the least name of a handle in a
/// constraint, an inline constraint, a body or a bind that an activity which must traverse it exactly
/// once doesn't, or does so within a `select`, `repeat`, `if` or `match`, as rule 18. The second is the
/// least place at which an activity binds an input twice, or the output of a stream, as rule 20.
pub fn handle_findings(
    alloc: Global,
    sites: &Sites,
    index: &Index,
    names: &Names,
) -> Result<(Option<Finding>, Option<Finding>), NoMemory>
    requires declared { index.now ≡ declarations (map view_unit sites.now) }
    ensures unsteady { IfOk result (λ found. IsLeastOf (IsUnsteady (map view_unit sites.now) names.now) found.0) }
    ensures twice { IfOk result (λ found. IsLeastOf (IsBoundTwice (map view_unit sites.now) names.now) found.1) }
{
    pst_base::places_are_ordered();
    let found = handle_uses(alloc, sites.sources(), index, names)?;
    let unsteady = unsteady_by_judgings(alloc, sites, index, found.judgings())?;
    let twice = twice_in(alloc, found.ties())?;
    Ok((unsteady, twice))
}
