//! Values that are given one after another.
ghost use Rattle.std.specs.Prelude.{◌≡◌, ℕ, ℤ, ◌<◌, ◌≤◌, ◌++◌, length, map, filter, nat_lt, if◌then◌else◌, [], ◌∷◌, None, IfOk, IfSome, OnOk, OnErr};
ghost use Rattle.pst_expr.specs.Tree.{view};
ghost use Rattle.pst_expr.specs.Spans.{size_of};
ghost use Rattle.pst_domain.specs.Bounds.{AreUpright};
ghost use Rattle.pst_narrow.specs.Narrowing.{HaveVariablesBelow};
ghost use Rattle.pst_reasons.specs.Giving.{IsKept, IsAt};
ghost use Rattle.pst_fitting.specs.Passed.{Passes};
ghost use Rattle.pst_value_search.specs.Values.{with_value, Refuses, RefusesNothing, Skips, Begins};
ghost use Rattle.pst_value_search.specs.Made.{IsThere, GivesValue};

use pst_base::NoMemory;
use pst_domain::Bounds;
use pst_expr::{Domain, Expr, Span};
use pst_fitting::{Fitting, first_fitting};
use pst_reasons::{Narrowed, given_spans_refuse_nothing};
use std::alloc::Global;
use std::marker::Model;

// Adds a place where it is below a count.
fn keep(kept: &mut Vec<u32>, place: u32, count: usize) -> Result<(), NoMemory>
    ensures { OnOk result (kept.new.items ≡ kept.old.items ++ (if nat_lt place count then place ∷ [] else [])) }
{
    if place as usize >= count {
        return Ok(());
    }
    kept.push(place)?;
    Ok(())
}

// Those of the places that are below a count.
fn places_below(alloc: Global, places: &[u32], count: usize) -> Result<Vec<u32>, NoMemory>
    ensures { IfOk result (λ kept. kept.items ≡ filter (λ i. nat_lt i count) places.now) }
{
    let mut kept = Vec::new(alloc);
    for place in places {
        keep(&mut kept, *place, count)?;
    }
    Ok(kept)
}

// Whether places are there.
fn is_some(places: &Option<Vec<u32>>) -> bool
    ensures { IsThere places.now result }
{
    match places {
        None => false,
        Some(_) => true,
    }
}

// Gives the variable of that number a value. Places of the values given, where it doesn't fit; then it isn't given.
fn give_to(
    alloc: Global,
    narrowed: &mut Narrowed,
    number: usize,
    value: i64,
) -> Result<Option<Vec<u32>>, NoMemory>
    requires kept { IsKept narrowed.old }
    requires number { number ≡ length narrowed.old.given.items }
    ensures { GivesValue result narrowed.old narrowed.new number value }
{
    if number >= narrowed.bounds.spans().len() || number >= u32::MAX as usize {
        return Err(NoMemory);
    }
    let span = Span {
        low: value,
        high: value,
    };
    match narrowed.give(alloc, number as u32, span)? {
        None => Ok(None),
        Some(places) => {
            let kept = places_below(alloc, places.as_slice(), number + 1)?;
            Ok(Some(kept))
        }
    }
}

// The first value of the variable of that number that fits, from a place of the order on.
fn first_for(
    alloc: Global,
    narrowed: &mut Narrowed,
    number: usize,
    domain: &Domain,
    start: u64,
    from: u64,
) -> Result<Fitting, NoMemory>
    requires kept { IsKept narrowed.old }
    requires start { start < size_of domain.now }
    requires from { from ≤ size_of domain.now }
    ensures at { IsAt narrowed.old narrowed.new narrowed.old.given.items }
    ensures passes { IfOk result (λ found. Passes narrowed.old number domain.now start from found) }
{
    if number >= narrowed.bounds.spans().len() || number >= u32::MAX as usize {
        return Err(NoMemory);
    }
    let found = first_fitting(alloc, narrowed, number as u32, domain, start, from)?;
    Ok(found)
}

/// Variables, by number, that are given values one after another, under constraints. Contracts see the constraints,
/// the bounds of the variables and the values.
#[derive(Drop)]
pub struct Valued {
    alloc: Global,
    narrowed: Narrowed,
    refused: Option<Vec<u32>>,
    values: Vec<i64>,
}

impl Model for Valued {
    ghost use Rattle.pst_value_search.specs.Values.{Kept};
    ghost use Rattle.pst_value_search.specs.Made.{kept_by, IsValued};
    ghost use Rattle.std.specs.Coded.{codes};
    ghost use Rattle.pst_expr.specs.contracts.tree.Expr as the_expr;

    ghost Value = { Kept };

    ghost coded = { Prim.hlevel (codes, the_expr.the_row.coded) };

    ghost view = { kept_by };

    ghost invariant = { IsValued };
}

impl Valued {
    /// No value is given. Nothing where no values within the bounds meet the constraints.
    pub fn new(
        alloc: Global,
        constraints: Vec<Expr>,
        bounds: Bounds,
    ) -> Result<Option<Valued>, NoMemory>
        requires upright { AreUpright bounds }
        requires variables { HaveVariablesBelow (length bounds) (map view constraints.items) }
        ensures { IfOk result (λ begun. Begins constraints.items bounds begun) }
    {
        match Narrowed::new(alloc, constraints, bounds)? {
            None => Ok(None),
            Some(narrowed) => Ok(Some(Valued {
                alloc,
                narrowed,
                refused: None,
                values: Vec::new(alloc),
            })),
        }
    }

    /// Gives the next variable a value. Where one was refused before, nothing is looked at.
    pub fn give(&mut self, value: i64) -> Result<(), NoMemory>
        ensures ok { OnOk result (self.new ≡ with_value self.old value) }
        ensures err { OnErr result (self.new ≡ self.old) }
    {
        self.values.reserve(1)?;
        let is_refused = is_some(&self.refused);
        if is_refused {
            self.values.push_reserved(value);
            return Ok(());
        }
        let number = self.values.len();
        let refused = give_to(self.alloc, &mut self.narrowed, number, value)?;
        self.refused = refused;
        self.values.push_reserved(value);
        Ok(())
    }

    /// Takes the last value back.
    pub fn take_back(&mut self)
        requires { 0 < length self.old.values }
        ensures { (value : ℤ) × (self.old ≡ with_value self.new value) }
    {
        let Some(_value) = self.values.pop() else {
            return;
        };
        let is_refused = is_some(&self.refused);
        if !is_refused {
            self.narrowed.take_back();
            return;
        }
        if self.values.len() > self.narrowed.given.len() {
            return;
        }
        self.refused = None;
    }

    /// Why the values can't be: places of them, such that no values that meet the constraints and lie within the
    /// bounds are the same there. Nothing where no constraint is refused at them.
    pub fn refusal(&self) -> Option<&[u32]>
        ensures why { IfSome result (λ places. Refuses self.now places.now) }
        ensures none { result ≡ None → RefusesNothing self.now }
    {
        given_spans_refuse_nothing();
        match &self.refused {
            None => None,
            Some(places) => Some(places.as_slice()),
        }
    }

    /// The first value of the next variable, from a place of the seed's order on, that can be given, and why those
    /// before it can't be. The values are those of the domain, and the order begins at the one of that index.
    pub fn skip(&mut self, domain: &Domain, start: u64, from: u64) -> Result<Fitting, NoMemory>
        requires start { start < size_of domain.now }
        requires from { from ≤ size_of domain.now }
        ensures same { self.new ≡ self.old }
        ensures skips { IfOk result (λ found. Skips self.old domain.now start from found) }
    {
        let is_refused = is_some(&self.refused);
        if is_refused {
            return Ok(Fitting {
                place: from,
                reasons: Vec::new(self.alloc),
            });
        }
        let number = self.values.len();
        let found = first_for(self.alloc, &mut self.narrowed, number, domain, start, from)?;
        Ok(found)
    }
}
