//! What a list of choices comes to, and what refuses it.
//!
//! A list behind which there is no legal scenario is refused, and the search goes back. The tests that refuse lists come
//! in this order: the first in `look_given`, the second in `look`, the others in `unless_refused`.
//!
//! | Test | What it refuses | Proved by |
//! |---|---|---|
//! | `refusal_at` | values behind the sources that can't be: a conflict of few places | `pst_list_values`, `pst_value_search` |
//! | `shown_at` | a dead end | `pst_built` |
//! | `constraint_refuses` | a constraint that fails at all that is still open | `pst_refusals`, `pst_read_domains` |
//! | `need_refuses` | a need that no action serves, while the sources are being linked | `pst_open_needs` |
//! | `order_refuses` | sources that no order of the actions allows, while they are being linked | `pst_link_order`, `pst_order_ahead` |
//! | `claims_refuse` | claims that need more instances than there are, where the sources have just been read through | `pst_claim_counts` |
//! | `plan_refuses` | what has no plan, where the sources, of which some are linked, or the claims have just been read through | `pst_graph`, `pst_plan_so_far` |
//!
//! A whole list that passes them all is refused where it has no plan (`plan_whole`), and where a constraint doesn't hold
//! (`judge_at`).
ghost use Rattle.std.specs.Prelude.{◌≡◌, IfOk, IfSome, length, true, false};
ghost use Rattle.pst_model.specs.ModelView.{view_model};
ghost use Rattle.pst_model.specs.Sound.{IsSound};
ghost use Rattle.pst_scen.specs.declared.next.Next.TheVariants as next_to;
ghost use Rattle.pst_legal.specs.First.{NoneRefused};
ghost use Rattle.pst_order_ahead.specs.LaidOut.{ReadsTree};
ghost use Rattle.pst_shape.specs.Walks.{next_of, IfRead};
ghost use Rattle.pst_list_walk.specs.Walks.{answer, IsRead};
ghost use Rattle.pst_search_loop.specs.Kept.{Shows, IsConflict, HasOptions, Rests};
ghost use Rattle.pst_search_loop.specs.Conflicts.{IsEarlier};
ghost use Rattle.pst_list_values.specs.Tied.{IsTied, IsOf};
ghost use Rattle.pst_list_values.specs.Walked.{kept_of};
ghost use Rattle.pst_search.specs.Readings.{barren_at, IsAnswer, IsShown};

use crate::judging::has_plan;
use crate::linked::is_some_linked;
use pst_base::NoMemory;
use pst_built::dead_stays_dead;
use pst_claim_counts::{has_too_few_instances, too_many_claims_refuse_lists};
use pst_link_order::is_refused_ahead;
use pst_list_values::{
    Behind, barren_lists_conflict, of_places, places_rest_on_earlier_ones,
    places_rest_on_the_sources, refusal_at, refused_lists_are_barren,
};
use pst_list_walk::ListWalk;
use pst_open_needs::{has_unserved_need, unserved_needs_refuse_lists};
use pst_order_ahead::{refusals_ahead_stay, trees_are_laid_out};
use pst_plan_so_far::{plans_refuse_lists, sources_are_built};
use pst_scen::{Next, Scenario};
use pst_search_loop::{Conflict, Look};
use std::alloc::Global;

// All places of the list.
fn all_places(alloc: Global, lists: &ListWalk<'_>) -> Result<Conflict, NoMemory>
    ensures { IfOk result (λ c. IsEarlier c (length lists.now.choices)) }
{
    let count = lists.count()?;
    let all = Conflict::earlier(alloc, count);
    Ok(all)
}

/// Where no longer list reads a legal scenario, all places are a conflict.
pub(crate) fn closed(alloc: Global, lists: &ListWalk<'_>) -> Result<Conflict, NoMemory>
    requires { barren_at lists.now }
    ensures { IfOk result (λ c. IsConflict (kept_of lists.now) c) }
{
    barren_lists_conflict();
    let all = all_places(alloc, lists)?;
    Ok(all)
}

// The list is refused.
fn refused(alloc: Global, lists: &ListWalk<'_>) -> Result<Look, NoMemory>
    requires { barren_at lists.now }
    ensures { IfOk result (λ look. Shows (kept_of lists.now) look) }
{
    let conflict = closed(alloc, lists)?;
    Ok(Look::Closed(conflict))
}

// A dead end.
fn dead(alloc: Global, lists: &ListWalk<'_>) -> Result<Look, NoMemory>
    requires { next_of (answer lists.now) ≡ next_to.Dead }
    ensures { IfOk result (λ look. Shows (kept_of lists.now) look) }
{
    dead_stays_dead();
    refused(alloc, lists)
}

// A place or a whole scenario, and nothing at a dead end.
fn shown_at(lists: &ListWalk<'_>) -> Option<Look>
    ensures { IsShown (answer lists.now) result }
{
    match lists.next() {
        Next::Options(count) => Some(Look::Options(count)),
        Next::Whole => Some(Look::Whole),
        Next::Dead => None,
    }
}

// Whether a constraint of what is read is refused at what is known. `free`: it is known that none is.
fn constraint_refuses(lists: &ListWalk<'_>, free: bool) -> Result<bool, NoMemory>
    requires sound { IsSound (view_model lists.now.model) }
    requires read { IsRead (answer lists.now) }
    requires free { free ≡ true → IfRead (answer lists.now) (NoneRefused (view_model lists.now.model)) }
    ensures refused { IfOk result (λ r. r ≡ true → barren_at lists.now) }
    ensures passed { IfOk result (λ r. r ≡ false → IfRead (answer lists.now) (NoneRefused (view_model lists.now.model))) }
{
    refused_lists_are_barren();
    if free {
        return Ok(false);
    }
    let refused = lists.some_refused()?;
    Ok(refused)
}

// Whether a need is left that no action serves, where the order is to be judged.
fn need_refuses(lists: &ListWalk<'_>, linking: &Option<Scenario>) -> bool
    requires read { IsRead (answer lists.now) }
    requires linking { IfSome linking.now (λ t. IfRead (answer lists.now) (λ s. t ≡ s)) }
    requires tree { IfSome linking.now (λ t. ReadsTree (view_model lists.now.model) lists.now.root lists.now.seed lists.now.level lists.now.choices) }
    ensures { result ≡ true → barren_at lists.now }
{
    let _ = lists;
    unserved_needs_refuse_lists();
    match linking {
        None => false,
        Some(scenario) => has_unserved_need(scenario),
    }
}

// Whether the order of what is linked so far refuses it, where that is to be judged.
fn order_refuses(
    alloc: Global,
    lists: &ListWalk<'_>,
    linking: &Option<Scenario>,
) -> Result<bool, NoMemory>
    requires read { IsRead (answer lists.now) }
    requires linking { IfSome linking.now (λ t. IfRead (answer lists.now) (λ s. t ≡ s)) }
    requires tree { IfSome linking.now (λ t. ReadsTree (view_model lists.now.model) lists.now.root lists.now.seed lists.now.level lists.now.choices) }
    ensures { IfOk result (λ r. r ≡ true → barren_at lists.now) }
{
    let _ = lists;
    trees_are_laid_out();
    refusals_ahead_stay();
    match linking {
        None => Ok(false),
        Some(scenario) => is_refused_ahead(alloc, scenario),
    }
}

// Whether the sources have just been read through.
fn is_just_behind(lists: &ListWalk<'_>) -> Result<bool, NoMemory> {
    let Some(front) = lists.front()? else {
        return Ok(false);
    };
    let count = lists.count()?;
    Ok(front == count)
}

// Whether the claims of what is read need more instances than there are, where that may just have become known.
fn claims_refuse(alloc: Global, lists: &ListWalk<'_>) -> Result<bool, NoMemory>
    requires { IsRead (answer lists.now) }
    ensures { IfOk result (λ r. r ≡ true → barren_at lists.now) }
{
    sources_are_built();
    too_many_claims_refuse_lists();
    if !is_just_behind(lists)? {
        return Ok(false);
    }
    let Some(scenario) = lists.scenario() else {
        return Ok(false);
    };
    let short = has_too_few_instances(alloc, lists.model(), scenario)?;
    Ok(short)
}

// Whether the sources, or the claims behind them, have just been read through, and more is to be read. Where nothing is
// linked, the order is that of the activity alone: nothing but claims refuses it.
fn is_time_to_plan(lists: &ListWalk<'_>, scenario: &Scenario) -> Result<bool, NoMemory> {
    if let Next::Whole = lists.next() {
        return Ok(false);
    }
    if lists.is_just_behind_claims() {
        return Ok(true);
    }
    let behind = is_just_behind(lists)?;
    Ok(behind && is_some_linked(scenario))
}

// Whether the plan refuses what is read, where that may just have become known.
fn plan_refuses(alloc: Global, lists: &ListWalk<'_>) -> Result<bool, NoMemory>
    requires { IsRead (answer lists.now) }
    ensures { IfOk result (λ r. r ≡ true → barren_at lists.now) }
{
    sources_are_built();
    plans_refuse_lists();
    let Some(scenario) = lists.scenario() else {
        return Ok(false);
    };
    if !is_time_to_plan(lists, scenario)? {
        return Ok(false);
    }
    let planned = has_plan(alloc, scenario)?;
    Ok(!planned)
}

// A place or a whole scenario, unless a test refuses what is read. `free`: it is known to refuse no constraint.
fn unless_refused(
    alloc: Global,
    lists: &ListWalk<'_>,
    free: bool,
    shown: Look,
) -> Result<Look, NoMemory>
    requires sound { IsSound (view_model lists.now.model) }
    requires free { free ≡ true → IfRead (answer lists.now) (NoneRefused (view_model lists.now.model)) }
    requires read { IsRead (answer lists.now) }
    requires shown { IsAnswer (answer lists.now) shown }
    ensures { IfOk result (λ look. Shows (kept_of lists.now) look) }
{
    let unmet = constraint_refuses(lists, free)?;
    if unmet {
        return refused(alloc, lists);
    }
    let linking = lists.linking()?;
    let lacking = need_refuses(lists, &linking);
    if lacking {
        return refused(alloc, lists);
    }
    let disordered = order_refuses(alloc, lists, &linking)?;
    if disordered {
        return refused(alloc, lists);
    }
    let short = claims_refuse(alloc, lists)?;
    if short {
        return refused(alloc, lists);
    }
    let unplanned = plan_refuses(alloc, lists)?;
    if unplanned {
        return refused(alloc, lists);
    }
    Ok(shown)
}

// What the list comes to, behind the test of values. `free`: it is known to refuse no constraint.
fn look(alloc: Global, lists: &ListWalk<'_>, free: bool) -> Result<Look, NoMemory>
    requires sound { IsSound (view_model lists.now.model) }
    requires free { free ≡ true → IfRead (answer lists.now) (NoneRefused (view_model lists.now.model)) }
    ensures { IfOk result (λ look. Shows (kept_of lists.now) look) }
{
    match shown_at(lists) {
        None => dead(alloc, lists),
        Some(shown) => unless_refused(alloc, lists, free, shown),
    }
}

// What the list comes to where values behind the sources are kept. Where each constraint was written and none is
// refused, no constraint is looked at.
fn look_given(alloc: Global, lists: &ListWalk<'_>, behind: &Behind) -> Result<Look, NoMemory>
    requires sound { IsSound (view_model lists.now.model) }
    requires given { IsOf lists.now behind.now }
    ensures { IfOk result (λ look. Shows (kept_of lists.now) look) }
{
    match refusal_at(alloc, lists, behind)? {
        None => look(alloc, lists, behind.whole),
        Some(conflict) => Ok(Look::Closed(conflict)),
    }
}

/// What the list comes to.
pub(crate) fn look_behind(
    alloc: Global,
    lists: &ListWalk<'_>,
    behind: &Option<Behind>,
) -> Result<Look, NoMemory>
    requires sound { IsSound (view_model lists.now.model) }
    requires tied { IsTied lists.now behind.now }
    ensures { IfOk result (λ look. Shows (kept_of lists.now) look) }
{
    match behind {
        None => look(alloc, lists, false),
        Some(behind) => look_given(alloc, lists, behind),
    }
}

/// What a place rests on: behind the sources the last one up to them alone, else all places before it.
pub(crate) fn rests_on(
    alloc: Global,
    lists: &ListWalk<'_>,
    count: u64,
) -> Result<Conflict, NoMemory>
    requires { HasOptions (answer lists.now) count }
    ensures { IfOk result (λ c. Rests (kept_of lists.now) count c) }
{
    let _ = count;
    places_rest_on_earlier_ones();
    places_rest_on_the_sources();
    let Some(front) = lists.front()? else {
        let all = all_places(alloc, lists)?;
        return Ok(all);
    };
    let last = of_places(alloc, front, &[])?;
    Ok(last)
}
