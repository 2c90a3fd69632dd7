// Looking at constraints again where a bound of one of their variables moved, with what moved noted.
ghost use Rattle.std.specs.Prelude.{◌≡◌, ℕ, ◌<◌, ◌≤◌, length, map, drop, true, false, None, Some, Ok, Contains, OnOk, OnErr, Option, Bool};
ghost use Rattle.pst_expr.specs.Tree.{Expression, view};
ghost use Rattle.pst_domain.specs.Bounds.{AreUpright};
ghost use Rattle.pst_narrow.specs.Trail.{AreBelow};
ghost use Rattle.pst_narrow.specs.Solutions.{IsMet, AreMet};
ghost use Rattle.pst_narrow.specs.Narrowing.{IsStep, HaveVariablesBelow, AreOpen};
ghost use Rattle.pst_narrow.specs.Watch.{IsNumbered, IsWatch};
ghost use Rattle.pst_narrow.specs.Settled.{IsUnrefused, QuietAreOpen, AreLookedAt, IsOfRow};
ghost use Rattle.pst_reasons.specs.Settled.{fits, KeepExplained, IsUnmetAt, IsNoted, IsAppended};

use crate::step::{Cause, Step};
use pst_base::NoMemory;
use pst_domain::Bounds;
use pst_expr::Expr;
use pst_narrow::{Trail, Watch, look_again, narrowing_is_local};

// How many changes may be made beside those of each constraint, before constraints are only tested.
const CHANGES: usize = 2_000;

// Notes what a constraint moved, where it moved anything.
fn note(number: u32, mark: usize, trail: &Trail, steps: &mut Vec<Step>) -> Result<(), NoMemory>
    ensures noted { OnOk result (IsNoted number mark trail.now steps.old.items steps.new.items) }
    ensures same { OnErr result (steps.new.items ≡ steps.old.items) }
{
    if trail.mark() <= mark {
        return Ok(());
    }
    steps.push(Step {
        cause: Cause::Constraint(number),
        mark,
    })?;
    Ok(())
}

// Looks at a constraint, and notes what it moved. False where it can't hold; then nothing is changed.
fn look_at(
    constraints: &[Expr],
    number: u32,
    limit: usize,
    bounds: &mut Bounds,
    trail: &mut Trail,
    steps: &mut Vec<Step>,
) -> Result<bool, NoMemory>
    requires upright { AreUpright bounds.old }
    requires variables { HaveVariablesBelow (length bounds.old) (map view constraints.now) }
    requires number { number < length constraints.now }
    ensures step { (e : Expression) → IsNumbered (map view constraints.now) number e → IsStep (IsMet e) bounds.old bounds.new trail.old trail.new result }
    ensures tested { result ≡ Ok true → (e : Expression) → IsNumbered (map view constraints.now) number e → IsUnrefused e bounds.new }
    ensures explained { (b : Bool) → result ≡ Ok b → KeepExplained (map view constraints.now) steps.old.items steps.new.items trail.old trail.new bounds.old bounds.new }
    ensures unmet { result ≡ Ok false → IsUnmetAt (map view constraints.now) number bounds.new }
    ensures appended { IsAppended steps.old.items steps.new.items }
{
    narrowing_is_local();
    let mark = trail.mark();
    if !look_again(&constraints[number as usize], limit, bounds, trail)? {
        trail.undo(mark, bounds);
        return Ok(false);
    }
    note(number, mark, trail, steps)?;
    Ok(true)
}

// Each constraint of a row once. The number of one that can't hold.
fn look_at_row(
    constraints: &[Expr],
    row: &[u32],
    limit: usize,
    bounds: &mut Bounds,
    trail: &mut Trail,
    steps: &mut Vec<Step>,
) -> Result<Option<u32>, NoMemory>
    requires upright { AreUpright bounds.old }
    requires variables { HaveVariablesBelow (length bounds.old) (map view constraints.now) }
    requires numbers { (c : ℕ) → Contains row.now c → c < length constraints.now }
    ensures step { IsStep (AreMet (map view constraints.now)) bounds.old bounds.new trail.old trail.new (fits result) }
    ensures looked { result ≡ Ok None → AreLookedAt (IsOfRow row.now bounds.old) (map view constraints.now) trail.old trail.new bounds.new }
    ensures explained { (found : Option ℕ) → result ≡ Ok found → KeepExplained (map view constraints.now) steps.old.items steps.new.items trail.old trail.new bounds.old bounds.new }
    ensures unmet { (c : ℕ) → result ≡ Ok (Some c) → IsUnmetAt (map view constraints.now) c bounds.new }
    ensures appended { IsAppended steps.old.items steps.new.items }
{
    for number in row {
        if !look_at(constraints, *number, limit, bounds, trail, steps)? {
            return Ok(Some(*number));
        }
    }
    Ok(None)
}

/// Narrows by the constraints whose variables were changed from a place of the trail on, and so on while bounds move,
/// and notes by which constraints. The number of a constraint that can't hold within the bounds, or none.
pub fn settle(
    constraints: &[Expr],
    watch: &Watch,
    from: usize,
    bounds: &mut Bounds,
    trail: &mut Trail,
    steps: &mut Vec<Step>,
) -> Result<Option<u32>, NoMemory>
    requires upright { AreUpright bounds.old }
    requires watch { IsWatch (map view constraints.now) (length bounds.old) watch.now }
    requires variables { HaveVariablesBelow (length bounds.old) (map view constraints.now) }
    requires changed { AreBelow (length bounds.old) (drop from trail.old) }
    requires room { from ≤ length trail.old }
    requires quiet { QuietAreOpen (map view constraints.now) (drop from trail.old) bounds.old }
    ensures step { IsStep (AreMet (map view constraints.now)) bounds.old bounds.new trail.old trail.new (fits result) }
    ensures unrefused { result ≡ Ok None → AreOpen (map view constraints.now) bounds.new }
    ensures explained { (found : Option ℕ) → result ≡ Ok found → KeepExplained (map view constraints.now) steps.old.items steps.new.items trail.old trail.new bounds.old bounds.new }
    ensures unmet { (c : ℕ) → result ≡ Ok (Some c) → IsUnmetAt (map view constraints.now) c bounds.new }
    ensures appended { IsAppended steps.old.items steps.new.items }
{
    let limit = trail
        .mark()
        .saturating_add(constraints.len().saturating_mul(64));
    let limit = limit.saturating_add(CHANGES);
    for at in from..usize::MAX {
        if at >= trail.mark() {
            return Ok(None);
        }
        let row = watch.constraints_of(trail.formers()[at].variable);
        match look_at_row(constraints, row, limit, bounds, trail, steps)? {
            Some(number) => return Ok(Some(number)),
            None => {}
        }
    }
    // No trail is that long.
    Err(NoMemory)
}
