//! Whether a constraint is refused at what is known of its slots, or doesn't hold at their values.
ghost use Rattle.std.specs.Prelude.{◌≡◌, map, not, IfOk, true};
ghost use Rattle.std.specs.List.{list_any};
ghost use Rattle.pst_expr.specs.Tree.{view};
ghost use Rattle.pst_domain.specs.Bounds.{AreUpright, HasVariablesBelow};
ghost use Rattle.pst_model.specs.ConstraintTree.{view_slot, view_constraint};
ghost use Rattle.pst_model.specs.Sound.{IsSound};
ghost use Rattle.pst_legal.specs.Pieces.{is_true};
ghost use Rattle.pst_legal.specs.Standing.{bound_of, value_of};
ghost use Rattle.pst_legal.specs.Constraints.{is_refused_at, value_at};
ghost use Rattle.pst_known.specs.Known.{known_of};
ghost use Rattle.pst_slots.specs.Listed.{stating};
ghost use Rattle.pst_refusals.specs.Failing.{bound_in, value_in, fails_at, fails};

use crate::site::Site;
use pst_base::NoMemory;
use pst_domain::{Bounds, refused};
use pst_expr::{Env, Expr, Span, eval};
use pst_known::Known;
use pst_model::{Constraint, Slot};
use std::alloc::Global;

// The bounds of a slot.
fn bound(known: Known) -> Option<Span>
    ensures { result ≡ bound_in known }
{
    match known {
        Known::Value(value) => Some(Span {
            low: value,
            high: value,
        }),
        Known::Open(span) => Some(span),
        Known::Lacking => None,
    }
}

// The value of a slot, where it is read.
fn value(known: Known) -> Option<i64>
    ensures { result ≡ value_in known }
{
    match known {
        Known::Value(value) => Some(value),
        Known::Open(_) => None,
        Known::Lacking => None,
    }
}

// The bounds of the slots.
fn bounds<S: Site>(alloc: Global, site: &S, slots: &[Slot]) -> Result<Vec<Option<Span>>, NoMemory>
    requires { IsSound (S.of site.now) }
    ensures { IfOk result (λ found. found.items ≡ map (λ slot. bound_of (S.standing site.now slot)) (map view_slot slots.now)) }
{
    let mut found = Vec::new(alloc);
    for slot in slots {
        found.push(bound(site.known(alloc, slot)?))?;
    }
    Ok(found)
}

// The values of the slots.
fn values<S: Site>(alloc: Global, site: &S, slots: &[Slot]) -> Result<Vec<Option<i64>>, NoMemory>
    requires { IsSound (S.of site.now) }
    ensures { IfOk result (λ found. found.items ≡ map (λ slot. value_of (S.standing site.now slot)) (map view_slot slots.now)) }
{
    let mut found = Vec::new(alloc);
    for slot in slots {
        found.push(value(site.known(alloc, slot)?))?;
    }
    Ok(found)
}

// Whether no span is reversed.
fn are_upright(bounds: &[Option<Span>]) -> bool
    ensures { result ≡ true → AreUpright bounds.now }
{
    for bound in bounds {
        if let Some(span) = bound {
            if span.low > span.high {
                return false;
            }
        }
    }
    true
}

// Whether each variable of an expression is below n, and so are all elements of each array.
fn is_below(n: usize, expr: &Expr) -> bool
    ensures { result ≡ true → HasVariablesBelow n (view expr.now) }
{
    let mut rest = expr;
    loop {
        match rest {
            Expr::Constant(_) => return true,
            Expr::Variable(variable) => return (*variable as usize) < n,
            Expr::Unary(_, operand) => rest = operand,
            Expr::Binary(_, left, right) => {
                if !is_below(n, right) {
                    return false;
                }
                rest = left;
            }
            Expr::Element(first, count, index) => {
                if *first as usize + *count as usize > n {
                    return false;
                }
                rest = index;
            }
        }
    }
}

// Whether a constraint is refused there. A sound model has no reversed span and no variable beyond
// the slots.
fn is_refused<S: Site>(alloc: Global, site: &S, constraint: &Constraint) -> Result<bool, NoMemory>
    requires { IsSound (S.of site.now) }
    ensures { IfOk result (λ r. r ≡ is_refused_at (view_constraint constraint.now) (S.standing site.now)) }
{
    let found = bounds(alloc, site, constraint.slots.as_slice())?;
    if !are_upright(&found) {
        return Err(NoMemory);
    }
    if !is_below(found.len(), &constraint.expr) {
        return Err(NoMemory);
    }
    Ok(refused(&constraint.expr, &Bounds::new(found)))
}

// Whether a constraint doesn't hold at the values that are read there.
fn is_unmet<S: Site>(alloc: Global, site: &S, constraint: &Constraint) -> Result<bool, NoMemory>
    requires { IsSound (S.of site.now) }
    ensures { IfOk result (λ r. r ≡ not (is_true (value_at (view_constraint constraint.now) (S.standing site.now)))) }
{
    let found = values(alloc, site, constraint.slots.as_slice())?;
    match eval(&constraint.expr, &Env::new(found)) {
        None => Ok(true),
        Some(value) => Ok(value == 0),
    }
}

// Whether a constraint fails there: by what is known of its slots, or by their values.
fn fails<S: Site>(
    alloc: Global,
    site: &S,
    constraint: &Constraint,
    by_values: bool,
) -> Result<bool, NoMemory>
    requires { IsSound (S.of site.now) }
    ensures { IfOk result (λ r. r ≡ fails_at by_values (view_constraint constraint.now) (S.standing site.now)) }
{
    if by_values {
        is_unmet(alloc, site, constraint)
    } else {
        is_refused(alloc, site, constraint)
    }
}

/// Whether some of these constraints fails there.
pub(crate) fn some_fails<S: Site>(
    alloc: Global,
    site: &S,
    constraints: &[Constraint],
    by_values: bool,
) -> Result<bool, NoMemory>
    requires { IsSound (S.of site.now) }
    ensures { IfOk result (λ r. r ≡ list_any (fails by_values) (map (stating (S.standing site.now)) (map view_constraint constraints.now))) }
{
    for constraint in constraints {
        if fails(alloc, site, constraint, by_values)? {
            return Ok(true);
        }
    }
    Ok(false)
}
