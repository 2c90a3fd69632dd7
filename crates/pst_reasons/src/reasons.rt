// Backwards along the steps of a trail, from a constraint that can't hold.
ghost use Rattle.std.specs.Prelude.{◌≡◌, ℕ, ◌<◌, length, map, reverse, false, Contains, IfOk, OnOk};
ghost use Rattle.pst_expr.specs.Tree.{Expression, view};
ghost use Rattle.pst_narrow.specs.Trail.{put_back};
ghost use Rattle.pst_narrow.specs.Local.{IsLocallyUnmet};
ghost use Rattle.pst_narrow.specs.Watch.{IsWatch, IsNumbered};
ghost use Rattle.pst_reasons.specs.Explained.{AreExplained};
ghost use Rattle.pst_reasons.specs.Firsts.{AreFirsts};
ghost use Rattle.pst_reasons.specs.Marks.{IsMarkedToo, AreMarked, AreUnmarked, NoneIsMarked};
ghost use Rattle.pst_reasons.specs.Reasons.{IsNamed, IsKnownCause, IsBack, AreReasons};

use crate::firsts::first_at;
use crate::marks::Marks;
use crate::step::{Cause, Given, Mark, Step};
use pst_base::NoMemory;
use pst_domain::Bounds;
use pst_expr::Expr;
use pst_narrow::{Former, Trail, Watch};
use std::alloc::Global;

// Marks a variable, where it was changed before a mark of the trail.
fn mark_if_changed(variable: u32, firsts: &[usize], mark: usize, marks: &mut Marks)
    requires { variable < length marks.old }
    ensures { IsMarkedToo variable firsts.now mark marks.old marks.new }
{
    let first = first_at(firsts, variable);
    if first >= mark {
        return;
    }
    marks.put(variable);
}

// Marks those of the variables that were changed before a mark of the trail.
fn mark_changed(variables: &[u32], firsts: &[usize], mark: usize, marks: &mut Marks)
    requires { (v : ℕ) → Contains variables.now v → v < length marks.old }
    ensures { AreMarked variables.now firsts.now mark marks.old marks.new }
{
    for variable in variables {
        mark_if_changed(*variable, firsts, mark, marks);
    }
}

// Takes the mark off a variable, where it wasn't changed before a mark of the trail.
fn unmark_if_unchanged(variable: u32, firsts: &[usize], mark: usize, marks: &mut Marks)
    ensures { AreUnmarked firsts.now mark marks.old marks.new }
{
    let first = first_at(firsts, variable);
    if first < mark {
        return;
    }
    marks.take(variable);
}

// Takes the marks off those that weren't changed before a mark of the trail.
fn unmark_unchanged(changes: &[Former], firsts: &[usize], mark: usize, marks: &mut Marks)
    ensures { AreUnmarked firsts.now mark marks.old marks.new }
{
    for change in changes {
        unmark_if_unchanged(change.variable, firsts, mark, marks);
    }
}

// Whether a variable that was changed is marked.
fn is_any_marked(marks: &Marks, changes: &[Former]) -> bool
    ensures { result ≡ false → NoneIsMarked marks.now changes.now }
{
    for change in changes {
        if marks.has(change.variable) {
            return true;
        }
    }
    false
}

// Names a place, and takes the mark off its variable.
fn name_given(
    place: u32,
    variable: u32,
    marks: &mut Marks,
    places: &mut Vec<u32>,
) -> Result<(), NoMemory>
    ensures { OnOk result (IsNamed place variable marks.old marks.new places.old.items places.new.items) }
{
    places.push(place)?;
    marks.take(variable);
    Ok(())
}

// Back over one step.
fn step_back(
    watch: &Watch,
    step: Step,
    changes: &[Former],
    firsts: &[usize],
    marks: &mut Marks,
    places: &mut Vec<u32>,
) -> Result<(), NoMemory>
    requires { IsKnownCause watch.now step.cause (length marks.old) }
    ensures { OnOk result (IsBack watch.now step.cause firsts.now step.mark changes.now marks.old marks.new places.old.items places.new.items) }
{
    if !is_any_marked(marks, changes) {
        return Ok(());
    }
    match step.cause {
        Cause::Constraint(number) => {
            mark_changed(watch.variables_of(number), firsts, step.mark, marks);
            unmark_unchanged(changes, firsts, step.mark, marks);
            Ok(())
        }
        Cause::Given(place) => match changes.first() {
            Some(change) => name_given(place, change.variable, marks, places),
            None => Ok(()),
        },
    }
}

/// Constraints with their index, the bounds of their variables, and by what these were moved.
#[derive(Drop)]
pub struct Narrowed {
    /// The constraints.
    pub constraints: Vec<Expr>,
    /// Their index.
    pub watch: Watch,
    /// The bounds as they are.
    pub bounds: Bounds,
    /// The changes that were made since the start.
    pub trail: Trail,
    /// By what, in the order in which they were made.
    pub steps: Vec<Step>,
    /// The spans that variables were given, in order.
    pub given: Vec<Given>,
    /// How much there was before each of these.
    pub marks: Vec<Mark>,
    /// Where on the trail each variable was changed first.
    pub(crate) firsts: Vec<usize>,
    /// Marks of variables, to be used again.
    pub(crate) flags: Marks,
}

impl Narrowed {
    /// On which of the given spans it rests that no values within the bounds meet a constraint: places of these, such
    /// that no values within the bounds at the start that lie in the spans given at these places meet all constraints.
    /// It ends as soon as no marked variable was changed any earlier.
    pub(crate) fn reasons(
        &self,
        alloc: Global,
        failed: u32,
        marks: &mut Marks,
    ) -> Result<Vec<u32>, NoMemory>
        requires watch { IsWatch (map view self.now.constraints.items) (length self.now.bounds) self.now.watch }
        requires explained { AreExplained (map view self.now.constraints.items) self.now.given.items (reverse self.now.steps.items) self.now.trail self.now.bounds }
        requires firsts { AreFirsts self.now.firsts.items self.now.trail }
        requires unmet { (e : Expression) × IsNumbered (map view self.now.constraints.items) failed e × IsLocallyUnmet e self.now.bounds }
        ensures { IfOk result (λ places. AreReasons (map view self.now.constraints.items) self.now.given.items (put_back self.now.trail self.now.bounds) places.items) }
    {
        marks.make_room(self.bounds.spans().len())?;
        let firsts = self.firsts.as_slice();
        let formers = self.trail.formers();
        let mut end = formers.len();
        mark_changed(self.watch.variables_of(failed), firsts, end, marks);
        let mut places = Vec::new(alloc);
        let mut left = self.steps.len();
        while left > 0 {
            if marks.is_empty() {
                return Ok(places);
            }
            left -= 1;
            let step = self.steps[left];
            let changes = &formers[step.mark..end];
            step_back(&self.watch, step, changes, firsts, marks, &mut places)?;
            end = step.mark;
        }
        Ok(places)
    }
}
