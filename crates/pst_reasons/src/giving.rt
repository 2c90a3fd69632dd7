// Spans that are given to variables, and taken back.
ghost use Rattle.std.specs.Prelude.{◌≡◌, ◌<◌, ◌≤ℤ◌, length, map, IfOk, OnOk, OnErr};
ghost use Rattle.pst_expr.specs.Tree.{view};
ghost use Rattle.pst_domain.specs.Bounds.{AreUpright};
ghost use Rattle.pst_narrow.specs.Narrowing.{HaveVariablesBelow};
ghost use Rattle.pst_reasons.specs.Giving.{IsKept, Begins, Gives, IsTakenBack, IsNotedGiven, IsSame, IsUnsettled, IsNarrower, Settles, CanGoBack, IsBack};

use crate::firsts::{forget_changes, note_changes};
use crate::marks::Marks;
use crate::reasons::Narrowed;
use crate::settling::settle;
use crate::step::{Cause, Given, Mark, Step};
use pst_base::NoMemory;
use pst_domain::Bounds;
use pst_expr::{Expr, Span};
use pst_narrow::{Trail, Watch, others_dont_matter};
use std::alloc::Global;
use std::mem;

impl Narrowed {
    /// Bounds narrowed by all constraints, where no variable was given a span yet. `None` where no values within the
    /// bounds meet all constraints.
    pub fn new(
        alloc: Global,
        constraints: Vec<Expr>,
        bounds: Bounds,
    ) -> Result<Option<Narrowed>, NoMemory>
        requires upright { AreUpright bounds }
        requires variables { HaveVariablesBelow (length bounds) (map view constraints.items) }
        ensures { IfOk result (λ begun. Begins constraints.items bounds begun) }
    {
        let mut bounds = bounds;
        let mut trail = Trail::new(alloc);
        let watch = Watch::new(alloc, &constraints, bounds.spans().len())?;
        if !watch.narrow(&constraints, &mut bounds, &mut trail)? {
            return Ok(None);
        }
        let firsts = Vec::from_elem(alloc, usize::MAX, bounds.spans().len())?;
        Ok(Some(Narrowed {
            constraints,
            watch,
            bounds,
            trail: Trail::new(alloc),
            steps: Vec::new(alloc),
            given: Vec::new(alloc),
            marks: Vec::new(alloc),
            firsts,
            flags: Marks::new(alloc),
        }))
    }

    // Notes a span that a variable is given. At `NoMemory` nothing changes.
    fn note_given(&mut self, variable: u32, span: Span) -> Result<(), NoMemory>
        requires { variable < length self.old.bounds }
        ensures noted { OnOk result (IsNotedGiven self.old self.new variable span) }
        ensures same { OnErr result (IsSame self.old self.new) }
    {
        if self.given.len() > u32::MAX as usize {
            return Err(NoMemory);
        }
        let place = self.given.len() as u32;
        let mark = self.trail.mark();
        let steps = self.steps.len();
        self.given.reserve(1)?;
        self.steps.reserve(1)?;
        self.marks.reserve(1)?;
        self.trail.set(variable, Some(span), &mut self.bounds)?;
        self.given.push_reserved(Given { variable, span });
        self.steps.push_reserved(Step {
            cause: Cause::Given(place),
            mark,
        });
        self.marks.push_reserved(Mark { trail: mark, steps });
        Ok(())
    }

    // Narrows by what was changed from a mark of the trail on; places of the spans given where a constraint can't hold.
    fn settle_from(&mut self, alloc: Global, mark: usize) -> Result<Option<Vec<u32>>, NoMemory>
        requires { IsUnsettled self.old mark }
        ensures narrower { IsNarrower self.old self.new }
        ensures settles { IfOk result (λ found. Settles found self.old self.new) }
    {
        let found = settle(
            &self.constraints,
            &self.watch,
            mark,
            &mut self.bounds,
            &mut self.trail,
            &mut self.steps,
        )?;
        note_changes(&mut self.firsts, self.trail.formers(), mark);
        match found {
            None => Ok(None),
            Some(failed) => {
                let mut flags = mem::replace(&mut self.flags, Marks::new(alloc));
                let places = self.reasons(alloc, failed, &mut flags)?;
                self.flags = flags;
                Ok(Some(places))
            }
        }
    }

    // Takes what came since the last mark back.
    fn go_back(&mut self)
        requires some { 0 < length self.old.marks.items }
        requires can { CanGoBack self.old }
        ensures { IsBack self.old self.new }
    {
        let Some(mark) = self.marks.pop() else {
            return;
        };
        forget_changes(&mut self.firsts, self.trail.formers(), mark.trail);
        self.trail.undo(mark.trail, &mut self.bounds);
        self.steps.truncate(mark.steps);
        self.given.truncate(self.marks.len());
    }

    /// Gives a variable a span, and narrows by what that moves. `None` where it fits. Else it isn't given: places of
    /// the spans given, its own among them where it matters, on which it rests that it doesn't fit. At `NoMemory` it
    /// isn't given either.
    pub fn give(
        &mut self,
        alloc: Global,
        variable: u32,
        span: Span,
    ) -> Result<Option<Vec<u32>>, NoMemory>
        requires kept { IsKept self.old }
        requires variable { variable < length self.old.bounds }
        requires span { span.low ≤ℤ span.high }
        ensures { Gives result self.old self.new variable span }
    {
        others_dont_matter();
        let mark = self.trail.mark();
        self.note_given(variable, span)?;
        match self.settle_from(alloc, mark) {
            Ok(None) => Ok(None),
            Ok(Some(places)) => {
                self.go_back();
                Ok(Some(places))
            }
            Err(error) => {
                self.go_back();
                Err(error)
            }
        }
    }

    /// Takes the last span that was given back. It takes no memory.
    pub fn take_back(&mut self)
        requires kept { IsKept self.old }
        requires some { 0 < length self.old.given.items }
        ensures { IsTakenBack self.old self.new }
    {
        self.go_back();
    }
}
