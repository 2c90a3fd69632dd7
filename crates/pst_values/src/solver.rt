// Constraints with the bounds of their variables, and trials of spans for one variable.
ghost use Rattle.std.specs.Prelude.{◌≡◌, ◌<◌, ◌≤ℤ◌, length, map, true};
ghost use Rattle.pst_domain.specs.Bounds.{AreUpright};
ghost use Rattle.pst_expr.specs.Spans.{size_of};
ghost use Rattle.pst_expr.specs.Tree.{view};
ghost use Rattle.pst_narrow.specs.Narrowing.{AreOpen};
ghost use Rattle.pst_narrow.specs.Watch.{IsWatch};
ghost use Rattle.pst_values.specs.Solver.{bounds_at, IsReady, IsTried};
ghost use Rattle.pst_values.specs.Searched.{IsSearched};

use crate::options::{run_at, span_of_run};
use pst_base::NoMemory;
use pst_domain::Bounds;
use pst_expr::{Domain, Expr, Span};
use pst_narrow::{Trail, Watch, others_dont_matter};

/// Constraints with their index, the bounds of their variables, and the way back to former bounds.
#[derive(Drop)]
pub struct Solver {
    pub constraints: Vec<Expr>,
    pub watch: Watch,
    pub bounds: Bounds,
    pub trail: Trail,
}

impl Solver {
    /// Goes back to `mark`, gives a variable a span there, and narrows. False tells that no values within the bounds
    /// of the mark, with the variable in the span, meet all constraints. Where no constraint is refused at the mark,
    /// `settled` says so, and constraints are looked at only where a bound moves.
    pub fn admits(
        &mut self,
        mark: usize,
        settled: bool,
        variable: u32,
        span: Span,
    ) -> Result<bool, NoMemory>
        requires ready { IsReady self.old.constraints.items mark self.old.trail self.old.bounds }
        requires variable { variable < length self.old.bounds }
        requires upright { span.low ≤ℤ span.high }
        requires watch { IsWatch (map view self.old.constraints.items) (length self.old.bounds) self.old.watch }
        requires settled { settled ≡ true → AreOpen (map view self.old.constraints.items) (bounds_at mark self.old.trail self.old.bounds) }
        ensures same { self.new.constraints ≡ self.old.constraints }
        ensures watch { self.new.watch ≡ self.old.watch }
        ensures tried { IsTried self.old.constraints.items mark variable span self.old.trail self.new.trail self.old.bounds self.new.bounds result }
    {
        others_dont_matter();
        self.trail.undo(mark, &mut self.bounds);
        self.trail.set(variable, Some(span), &mut self.bounds)?;
        if settled {
            return self
                .watch
                .settle(&self.constraints, mark, &mut self.bounds, &mut self.trail);
        }
        self.watch
            .narrow(&self.constraints, &mut self.bounds, &mut self.trail)
    }

    /// The first place of the seed's order, from `from` on, at whose value narrowing leaves values, `None` where there
    /// is none. A run of places is tried as one span: where it is refused a longer one follows, else a shorter one.
    pub fn first_admitted(
        &mut self,
        mark: usize,
        settled: bool,
        variable: u32,
        domain: &Domain,
        start: u64,
        from: u64,
    ) -> Result<Option<u64>, NoMemory>
        requires ready { IsReady self.old.constraints.items mark self.old.trail self.old.bounds }
        requires variable { variable < length self.old.bounds }
        requires bounds { AreUpright self.old.bounds }
        requires start { start < size_of domain.now }
        requires watch { IsWatch (map view self.old.constraints.items) (length self.old.bounds) self.old.watch }
        requires settled { settled ≡ true → AreOpen (map view self.old.constraints.items) (bounds_at mark self.old.trail self.old.bounds) }
        ensures same { self.new.constraints ≡ self.old.constraints }
        ensures watch { self.new.watch ≡ self.old.watch }
        ensures searched { IsSearched self.old.constraints.items mark variable domain.now start from self.old.trail self.new.trail self.old.bounds self.new.bounds result }
    {
        let size = domain.size();
        let mut place = from;
        let mut width = 1;
        while place < size {
            let run = run_at(start, size, place);
            let count = run.count.min(width);
            let span = span_of_run(domain, run.index, count);
            if !self.admits(mark, settled, variable, span)? {
                place += count;
                width = count.saturating_add(count);
            } else if count == 1 {
                return Ok(Some(place));
            } else {
                width = count / 2;
            }
        }
        Ok(None)
    }
}
