//! The pools that may serve a reference or claim.
ghost use Rattle.std.specs.Prelude.{◌≡◌, map, IfOk};
ghost use Rattle.pst_bound_pools.specs.Serving;
ghost use Rattle.pst_bound_pools.specs.Serving.{first_filled};
ghost use Rattle.pst_bound_pools.specs.KeptBinds.{IsAimed};
ghost use Rattle.pst_bind.specs.Nearest.{explicit_row, default_row};

use pst_base::{NameId, NoMemory, Place};
use pst_bound_pools::{DefaultRows, ExplicitRows, InstanceTable};
use std::alloc::Global;

// The pools of the explicit binds of the nearest instance that has one.
fn nearest_explicit<'a>(
    rows: &'a ExplicitRows,
    above: &[u32],
    to: u32,
    action: NameId,
    need: NameId,
) -> &'a [u32]
    ensures { result.now ≡ first_filled (map (explicit_row rows.now to action need) above.now) }
{
    for from in above {
        let row = rows.at(*from, to, action, need);
        if !row.is_empty() {
            return row;
        }
    }
    &[]
}

/// The pools of the default binds of the nearest instance that has one of an object type.
pub fn nearest_default<'a>(rows: &'a DefaultRows, above: &[u32], place: Place) -> &'a [u32]
    ensures { result.now ≡ first_filled (map (default_row rows.now place) above.now) }
{
    for from in above {
        let row = rows.at(*from, place);
        if !row.is_empty() {
            return row;
        }
    }
    &[]
}

/// The pools of the explicit binds of a reference or claim of an action type in an instance, of the
/// nearest instance that has one.
pub fn explicit_candidates<'a>(
    alloc: Global,
    rows: &'a ExplicitRows,
    table: &InstanceTable,
    to: u32,
    action: NameId,
    need: NameId,
) -> Result<&'a [u32], NoMemory>
    requires { IsAimed rows.now }
    ensures { IfOk result (λ row. row.now ≡ first_filled (map (explicit_row rows.now to action need) (Serving.with_those_above table.now to))) }
{
    if !rows.is_aimed(to, action, need) {
        return Ok(&[]);
    }
    let above = table.with_those_above(alloc, to)?;
    Ok(nearest_explicit(rows, above.as_slice(), to, action, need))
}
