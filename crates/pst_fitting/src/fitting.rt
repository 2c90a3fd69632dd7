// The first value that fits.
ghost use Rattle.std.specs.Prelude.{◌≡◌, ◌<◌, ◌≤◌, length, IfOk};
ghost use Rattle.pst_expr.specs.Spans.{size_of};
ghost use Rattle.pst_reasons.specs.Giving.{IsKept, IsAt};
ghost use Rattle.pst_fitting.specs.Passed.{Passes};

use crate::portions::{inner_of, next_width, portion_at};
use crate::trial::can_give;
use pst_base::NoMemory;
use pst_expr::Domain;
use pst_reasons::Narrowed;
use pst_values::{run_at, span_of_run};
use std::alloc::Global;

/// What the values of a variable come to, from a place of the seed's order on.
#[derive(Debug, Drop)]
pub struct Fitting {
    /// The first place whose value can be given, or how many values there are where none can.
    pub place: u64,
    /// Places of the spans that variables were given, on which it rests that the values before it are passed: no
    /// values of the variables that lie in these spans meet all constraints with one of those.
    pub reasons: Vec<u32>,
}

/// The first value of a variable, from a place of the seed's order on, that can be given without that a constraint is
/// refused. The order begins at the value of the start's index and goes on in ascending order, behind the greatest
/// value with the least. Nothing more is given then.
///
/// Values are tried in runs, as one span: where it is refused, all its values are passed. Those below the variable's
/// present bounds are one run, and so are those above them. Between them a run of twice the length follows one that is
/// refused; else half of it is tried, until one value is left. Where a run outside the bounds isn't refused, they are left
/// aside from there on.
pub fn first_fitting(
    alloc: Global,
    narrowed: &mut Narrowed,
    variable: u32,
    domain: &Domain,
    start: u64,
    from: u64,
) -> Result<Fitting, NoMemory>
    requires kept { IsKept narrowed.old }
    requires variable { variable < length narrowed.old.bounds }
    requires start { start < size_of domain.now }
    requires from { from ≤ size_of domain.now }
    ensures at { IsAt narrowed.old narrowed.new narrowed.old.given.items }
    ensures passes { IfOk result (λ found. Passes narrowed.old variable domain.now start from found) }
{
    let size = domain.size();
    let mut reasons = Vec::new(alloc);
    let inner = inner_of(narrowed, variable, domain);
    let mut bounded = true;
    let mut place = from;
    let mut width = 1;
    while place < size {
        let run = run_at(start, size, place);
        let portion = portion_at(bounded, inner, run, width);
        let count = portion.count;
        let is_outer = portion.outer;
        let span = span_of_run(domain, run.index, count);
        if !can_give(alloc, narrowed, variable, span, &mut reasons)? {
            place += count;
            width = next_width(portion, width);
        } else if count == 1 {
            return Ok(Fitting { place, reasons });
        } else if is_outer {
            bounded = false;
        } else {
            width = count / 2;
        }
    }
    Ok(Fitting { place, reasons })
}
