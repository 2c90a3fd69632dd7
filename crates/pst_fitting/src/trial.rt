// Trials of spans for a variable.
ghost use Rattle.std.specs.Prelude.{◌≡◌, ◌<◌, ◌≤ℤ◌, length, IfOk};
ghost use Rattle.pst_reasons.specs.Giving.{IsKept, IsAt};
ghost use Rattle.pst_fitting.specs.Places.{AreBelow};
ghost use Rattle.pst_fitting.specs.Passed.{Tries};

use crate::places::add_places;
use pst_base::NoMemory;
use pst_expr::Span;
use pst_reasons::Narrowed;
use std::alloc::Global;

/// Whether a variable can be given a span; then it is taken back again. Where it can't, the places of the spans given
/// on which that rests are added to the reasons.
pub fn can_give(
    alloc: Global,
    narrowed: &mut Narrowed,
    variable: u32,
    span: Span,
    reasons: &mut Vec<u32>,
) -> Result<bool, NoMemory>
    requires kept { IsKept narrowed.old }
    requires variable { variable < length narrowed.old.bounds }
    requires span { span.low ≤ℤ span.high }
    requires below { AreBelow reasons.old.items (length narrowed.old.given.items) }
    ensures at { IsAt narrowed.old narrowed.new narrowed.old.given.items }
    ensures tries { IfOk result (λ fits. Tries fits narrowed.old variable span reasons.old.items reasons.new.items) }
{
    match narrowed.give(alloc, variable, span)? {
        None => {
            narrowed.take_back();
            Ok(true)
        }
        Some(places) => {
            add_places(places.as_slice(), narrowed.given.len(), reasons)?;
            Ok(false)
        }
    }
}
