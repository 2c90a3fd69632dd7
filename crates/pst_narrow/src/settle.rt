//! Looking at constraints again where a bound of one of their variables moved.
ghost use Rattle.std.specs.Prelude.{◌≡◌, ℕ, ◌<◌, ◌≤◌, length, map, drop, true, Ok, Contains};
ghost use Rattle.pst_expr.specs.Tree.{view};
ghost use Rattle.pst_domain.specs.Bounds.{AreUpright, HasVariablesBelow};
ghost use Rattle.pst_narrow.specs.Solutions.{IsMet, AreMet};
ghost use Rattle.pst_narrow.specs.Trail.{AreBelow};
ghost use Rattle.pst_narrow.specs.Narrowing.{IsStep, HaveVariablesBelow, AreOpen};
ghost use Rattle.pst_narrow.specs.Cuts.{CutIsMade, CutsAreMade};
ghost use Rattle.pst_narrow.specs.Watch.{IsWatch};
ghost use Rattle.pst_narrow.specs.Settled.{IsUnrefused, QuietAreOpen, AreLookedAt, IsOfRow};

use crate::revise::revise;
use crate::trail::Trail;
use crate::watch::Watch;
use pst_base::NoMemory;
use pst_domain::{Bounds, refused};
use pst_expr::Expr;

// How many changes may be made beside those of each constraint, before constraints are only tested.
const CHANGES: usize = 2_000;

// Cuts the bounds to those under which a constraint can hold, and tests it. False where it can't hold.
fn look_at(constraint: &Expr, bounds: &mut Bounds, trail: &mut Trail) -> Result<bool, NoMemory>
    requires upright { AreUpright bounds.old }
    requires variables { HasVariablesBelow (length bounds.old) (view constraint.now) }
    ensures step { IsStep (IsMet (view constraint.now)) bounds.old bounds.new trail.old trail.new result }
    ensures cut { result ≡ Ok true → CutIsMade (view constraint.now) bounds.old bounds.new }
    ensures tested { result ≡ Ok true → IsUnrefused (view constraint.now) bounds.new }
{
    if !revise(constraint, bounds, trail)? {
        return Ok(false);
    }
    Ok(!refused(constraint, bounds))
}

/// Cuts the bounds to those under which a constraint can hold, where the trail is no longer than a limit, and tests it.
/// False where it can't hold.
pub fn look_again(
    constraint: &Expr,
    limit: usize,
    bounds: &mut Bounds,
    trail: &mut Trail,
) -> Result<bool, NoMemory>
    requires upright { AreUpright bounds.old }
    requires variables { HasVariablesBelow (length bounds.old) (view constraint.now) }
    ensures step { IsStep (IsMet (view constraint.now)) bounds.old bounds.new trail.old trail.new result }
    ensures tested { result ≡ Ok true → IsUnrefused (view constraint.now) bounds.new }
{
    if trail.mark() <= limit {
        return look_at(constraint, bounds, trail);
    }
    Ok(!refused(constraint, bounds))
}

// Each constraint once.
fn look_at_all(
    constraints: &[Expr],
    bounds: &mut Bounds,
    trail: &mut Trail,
) -> Result<bool, NoMemory>
    requires upright { AreUpright bounds.old }
    requires variables { HaveVariablesBelow (length bounds.old) (map view constraints.now) }
    ensures step { IsStep (AreMet (map view constraints.now)) bounds.old bounds.new trail.old trail.new result }
    ensures cuts { result ≡ Ok true → CutsAreMade (map view constraints.now) bounds.old bounds.new }
    ensures looked { result ≡ Ok true → AreLookedAt (λ c e. Unit {0}) (map view constraints.now) trail.old trail.new bounds.new }
{
    for constraint in constraints {
        if !look_at(constraint, bounds, trail)? {
            return Ok(false);
        }
    }
    Ok(true)
}

// Each constraint of a row once.
fn look_at_row(
    constraints: &[Expr],
    row: &[u32],
    limit: usize,
    bounds: &mut Bounds,
    trail: &mut Trail,
) -> Result<bool, NoMemory>
    requires upright { AreUpright bounds.old }
    requires variables { HaveVariablesBelow (length bounds.old) (map view constraints.now) }
    requires numbers { (c : ℕ) → Contains row.now c → c < length constraints.now }
    ensures step { IsStep (AreMet (map view constraints.now)) bounds.old bounds.new trail.old trail.new result }
    ensures looked { result ≡ Ok true → AreLookedAt (IsOfRow row.now bounds.old) (map view constraints.now) trail.old trail.new bounds.new }
{
    for number in row {
        if !look_again(&constraints[*number as usize], limit, bounds, trail)? {
            return Ok(false);
        }
    }
    Ok(true)
}

impl Watch {
    /// Narrows by the constraints whose variables were changed from a place of the trail on, and so on while bounds
    /// move. Each other constraint isn't refused at the beginning; where the answer is true, none is at the end.
    pub fn settle(
        &self,
        constraints: &[Expr],
        from: usize,
        bounds: &mut Bounds,
        trail: &mut Trail,
    ) -> Result<bool, NoMemory>
        requires upright { AreUpright bounds.old }
        requires watch { IsWatch (map view constraints.now) (length bounds.old) self.now }
        requires variables { HaveVariablesBelow (length bounds.old) (map view constraints.now) }
        requires changed { AreBelow (length bounds.old) (drop from trail.old) }
        requires room { from ≤ length trail.old }
        requires quiet { QuietAreOpen (map view constraints.now) (drop from trail.old) bounds.old }
        ensures step { IsStep (AreMet (map view constraints.now)) bounds.old bounds.new trail.old trail.new result }
        ensures unrefused { result ≡ Ok true → AreOpen (map view constraints.now) bounds.new }
    {
        let limit = trail
            .mark()
            .saturating_add(constraints.len().saturating_mul(64));
        let limit = limit.saturating_add(CHANGES);
        for at in from..usize::MAX {
            if at >= trail.mark() {
                return Ok(true);
            }
            let row = self.constraints_of(trail.formers()[at].variable);
            if !look_at_row(constraints, row, limit, bounds, trail)? {
                return Ok(false);
            }
        }
        // No trail is that long.
        Err(NoMemory)
    }

    /// Narrows by all constraints, and again by those whose variables were changed, while bounds move.
    pub fn narrow(
        &self,
        constraints: &[Expr],
        bounds: &mut Bounds,
        trail: &mut Trail,
    ) -> Result<bool, NoMemory>
        requires upright { AreUpright bounds.old }
        requires watch { IsWatch (map view constraints.now) (length bounds.old) self.now }
        requires variables { HaveVariablesBelow (length bounds.old) (map view constraints.now) }
        ensures step { IsStep (AreMet (map view constraints.now)) bounds.old bounds.new trail.old trail.new result }
        ensures unrefused { result ≡ Ok true → AreOpen (map view constraints.now) bounds.new }
        ensures cuts { result ≡ Ok true → CutsAreMade (map view constraints.now) bounds.old bounds.new }
    {
        let mark = trail.mark();
        if !look_at_all(constraints, bounds, trail)? {
            return Ok(false);
        }
        self.settle(constraints, mark, bounds, trail)
    }
}
