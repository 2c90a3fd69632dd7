//! The options that the values behind the sources refuse.
ghost use Rattle.std.specs.Prelude.{◌≡◌, ◌≤◌, IfOk, IfSome};
ghost use Rattle.pst_expr.specs.Spans.{IsDomain};
ghost use Rattle.pst_list_walk.specs.Walks.{answer};
ghost use Rattle.pst_search_loop.specs.Kept.{HasOptions, Skips};
ghost use Rattle.pst_list_values.specs.Walked.{kept_of};
ghost use Rattle.pst_list_values.specs.Tied.{IsTied, IsOf, IsGivenAt, IsUsable};

use crate::behind::Behind;
use crate::fields::skip_fields;
use pst_base::NoMemory;
use pst_expr::{Domain, domains_list_values};
use pst_list_walk::ListWalk;
use pst_search_loop::Skipped;
use pst_search_places::{few_places_exclude, of_places};
use pst_value_search::{Valued, excluded_values_hold_nothing};
use std::alloc::Global;

/// The spans of a domain are in order.
pub(crate) fn is_domain(domain: &Domain)
    ensures { IsDomain domain.now }
{
    let _spans = domain.spans();
}

// The values that the blank at hand may have, where an option was passed.
fn domain_at<'a>(lists: &ListWalk<'a>, from: u64, count: u64) -> Option<&'a Domain>
    ensures { IfSome result (λ domain. IsUsable lists.now from count domain.now) }
{
    let Some(domain) = lists.domain() else {
        return None;
    };
    if from == 0 {
        return None;
    }
    let size = domain.size();
    if size != count {
        return None;
    }
    is_domain(domain);
    Some(domain)
}

// Behind so many choices, the options of the place at hand, from one on, whose values can't be given.
fn skip_values(
    alloc: Global,
    lists: &ListWalk<'_>,
    front: usize,
    valued: &mut Valued,
    from: u64,
    count: u64,
) -> Result<Skipped, NoMemory>
    requires given { IsGivenAt lists.now front valued.old }
    requires options { HasOptions (answer lists.now) count }
    requires named { from ≤ count }
    ensures same { valued.new ≡ valued.old }
    ensures skips { IfOk result (λ skipped. Skips (kept_of lists.now) from count skipped) }
{
    excluded_values_hold_nothing();
    few_places_exclude();
    domains_list_values();
    let Some(domain) = domain_at(lists, from, count) else {
        return Ok(Skipped::nothing(alloc, from));
    };
    let start = lists.start(count)?;
    let found = valued.skip(domain, start, from)?;
    let conflict = of_places(alloc, front, found.reasons.as_slice())?;
    Ok(Skipped {
        digit: found.place,
        conflict,
    })
}

// The options of the place at hand that are skipped, from one on, where values are kept.
fn skip_behind(
    alloc: Global,
    lists: &ListWalk<'_>,
    behind: &mut Behind,
    from: u64,
    count: u64,
) -> Result<Skipped, NoMemory>
    requires given { IsOf lists.now behind.old }
    requires options { HasOptions (answer lists.now) count }
    requires named { from ≤ count }
    ensures given { IsOf lists.now behind.new }
    ensures skips { IfOk result (λ skipped. Skips (kept_of lists.now) from count skipped) }
{
    match &mut behind.valued {
        None => Ok(Skipped::nothing(alloc, from)),
        Some(valued) => skip_values(alloc, lists, behind.front, valued, from, count),
    }
}

/// The options of the place at hand that are skipped, from one on: behind the sources those whose values can't be
/// given, and before at a field of a compound action those that the constraints on its fields refuse. The first option
/// is never skipped.
pub fn skip_at(
    alloc: Global,
    lists: &ListWalk<'_>,
    behind: &mut Option<Behind>,
    from: u64,
    count: u64,
) -> Result<Skipped, NoMemory>
    requires tied { IsTied lists.now behind.old }
    requires options { HasOptions (answer lists.now) count }
    requires named { from ≤ count }
    ensures tied { IsTied lists.now behind.new }
    ensures skips { IfOk result (λ skipped. Skips (kept_of lists.now) from count skipped) }
{
    match behind {
        None => skip_fields(alloc, lists, from, count),
        Some(behind) => skip_behind(alloc, lists, behind, from, count),
    }
}
