//! The sources of a need.
ghost use Rattle.std.specs.Prelude.{◌≡◌, ◌++◌, IfOk, OnOk};
ghost use Rattle.pst_scen.specs.declared.act.Flow.TheVariants as flow;
ghost use Rattle.pst_scen.specs.declared.act.Link.TheVariants as link;
ghost use Rattle.pst_legal.specs.SupplyReading.{is_previous};
ghost use Rattle.pst_ties.specs.Tieds.{fixed_of};
ghost use Rattle.pst_pool_sources.specs.Offers.{free_ends};
ghost use Rattle.pst_open_ends.specs.Spots.{read_spot, given_sources};
ghost use Rattle.pst_open_ends.specs.Options.{free_with, fixed_by, options_with};

use crate::among::{add_fixed, add_old, may_be_initial};
use crate::flows::is_nothing;
use crate::spot::{Source, Spot};
use pst_base::NoMemory;
use pst_scen::Act;
use pst_ties::End;
use std::alloc::Global;

// The sources of a need that no bind fixes.
fn free_sources(
    alloc: Global,
    acts: &[Act],
    free: &[End],
    begun: bool,
    new: &[Source],
    need: &Spot,
) -> Result<Vec<Source>, NoMemory>
    requires free { free.now ≡ free_ends need.now.flow need.now.pool acts.now }
    requires begun { begun ≡ is_previous acts.now need.now.pool link.Initial }
    ensures { IfOk result (λ found. given_sources found.items ≡ free_with acts.now (given_sources new.now) (read_spot need.now)) }
{
    let mut found = Vec::new(alloc);
    if may_be_initial(acts, begun, need) {
        found.push(Source::Initially)?;
    }
    add_old(&mut found, acts, free, need)?;
    found.extend_from_slice(new)?;
    Ok(found)
}

// The source of a need that a bind fixes, if it may still be linked.
fn fixed_sources(
    alloc: Global,
    acts: &[Act],
    writers: &[End],
    need: &Spot,
    end: End,
) -> Result<Vec<Source>, NoMemory>
    requires { writers.now ≡ free_ends flow.StateIn need.now.pool acts.now }
    ensures { IfOk result (λ found. given_sources found.items ≡ fixed_by acts.now (read_spot need.now) (end.act, end.reference)) }
{
    let mut found = Vec::new(alloc);
    if is_nothing(need.link) {
        add_fixed(&mut found, acts, writers, need, end)?;
    }
    Ok(found)
}

/// The sources of a need, in order. `free`: the references of its pool that may still be linked to it;
/// `writers`: the writers of the pool; `begun`: one of them replaces its first object; `new`: its
/// sources among new actions; `fixed`: the reference that a bind fixes.
pub fn sources(
    alloc: Global,
    acts: &[Act],
    free: &[End],
    writers: &[End],
    begun: bool,
    new: &[Source],
    need: &Spot,
    fixed: Option<End>,
) -> Result<Vec<Source>, NoMemory>
    requires free { free.now ≡ free_ends need.now.flow need.now.pool acts.now }
    requires writers { writers.now ≡ free_ends flow.StateIn need.now.pool acts.now }
    requires begun { begun ≡ is_previous acts.now need.now.pool link.Initial }
    ensures { IfOk result (λ found. given_sources found.items ≡ options_with acts.now (given_sources new.now) (read_spot need.now) (fixed_of fixed)) }
{
    match fixed {
        None => free_sources(alloc, acts, free, begun, new, need),
        Some(end) => fixed_sources(alloc, acts, writers, need, end),
    }
}
