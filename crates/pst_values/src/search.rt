// The search for values.
ghost use Rattle.std.specs.Prelude.{◌≡◌, ◌≢◌, ◌+◌, ◌-◌, ◌^◌, ◌<◌, ◌≤◌, ℤ, ◌∷◌, [], length, map, true, false, Some, None, Ok, IfOk, OnErr};
ghost use Rattle.pst_expr.specs.Tree.{view};
ghost use Rattle.pst_narrow.specs.Narrowing.{HaveVariablesBelow};
ghost use Rattle.pst_values.specs.Search.{Search, Gives, Ends, GoesOn, GoesBack, fresh};
ghost use Rattle.pst_values.specs.Kept.{AreHulls};

use crate::options::{run_at, span_of_run};
use crate::solver::Solver;
use crate::tried::{Level, Tried};
use pst_base::NoMemory;
use pst_domain::{Bounds, narrower_bounds_give_inner_spans, spans_are_sane};
use pst_expr::{Domain, Expr, Span, domains_list_values};
use pst_narrow::{Trail, Watch};
use pst_rng::start;
use std::alloc::Global;
use std::marker::Model;

/// A search for values of variables under constraints, variable after variable, each over its domain in the order of a
/// seed.
#[derive(Drop)]
pub struct ValueSearch {
    domains: Vec<Domain>,
    solver: Solver,
    seed: u64,
    place: u64,
    earlier: Vec<Level>,
    current: Level,
    // Whether the bounds know the current variable's value and those before it.
    is_known: bool,
}

impl Model for ValueSearch {
    ghost use Rattle.std.specs.Coded.{codes};
    ghost use Rattle.pst_expr.specs.contracts.tree.Expr as the_expr;
    ghost use Rattle.pst_values.specs.Search.{Search};
    ghost use Rattle.pst_values.specs.Kept.{IsKept, view_of};

    ghost Value = { Search };

    ghost coded = { Prim.hlevel (codes, the_expr.the_row.coded) };

    ghost view = { view_of };

    ghost invariant = { IsKept };
}

// The span of each domain, from its least to its greatest value.
fn hulls(alloc: Global, domains: &[Domain]) -> Result<Vec<Option<Span>>, NoMemory>
    ensures { IfOk result (λ spans. AreHulls domains.now (length domains.now) spans.items) }
{
    let mut spans = Vec::with_capacity(alloc, domains.len())?;
    for domain in domains {
        domains_list_values();
        domain.spans();
        spans.push(Some(span_of_run(domain, 0, domain.size())))?;
    }
    Ok(spans)
}

impl ValueSearch {
    /// A search that begins at the first variable, which has no value. The variable i is read at the seed's place
    /// `place` + i.
    pub fn new(
        alloc: Global,
        domains: Vec<Domain>,
        constraints: Vec<Expr>,
        seed: u64,
        place: u64,
    ) -> Result<ValueSearch, NoMemory>
        requires some { 0 < length domains.items }
        requires variables { HaveVariablesBelow (length domains.items) (map view constraints.items) }
        requires places { place + length domains.items ≤ 2 ^ 64 - 1 }
        ensures { IfOk result (λ s. s ≡ record { domains = domains.items; constraints = constraints.items; seed = seed; place = place; earlier = []; current = fresh }) }
    {
        if domains.len() > u32::MAX as usize {
            return Err(NoMemory);
        }
        let spans = hulls(alloc, &domains)?;
        let earlier = Vec::with_capacity(alloc, domains.len())?;
        let watch = Watch::new(alloc, &constraints, domains.len())?;
        let solver = Solver {
            constraints,
            watch,
            bounds: Bounds::new(spans),
            trail: Trail::new(alloc),
        };
        let tried = Tried {
            passed: 0,
            value: None,
        };
        Ok(ValueSearch {
            domains,
            solver,
            seed,
            place,
            earlier,
            current: Level {
                mark: 0,
                known: true,
                tried,
            },
            is_known: false,
        })
    }

    /// Goes on to the next variable, which has no value then. False, and nothing changes, where there is none.
    ///
    /// It takes no memory.
    pub fn advance(&mut self) -> bool
        requires { self.old.current.value ≢ None }
        ensures on { result ≡ true → GoesOn self.old self.new }
        ensures last { result ≡ false → (self.new ≡ self.old) × (length self.old.domains ≡ length self.old.earlier + 1) }
    {
        if self.earlier.len() + 1 == self.domains.len() {
            return false;
        }
        let current = self.current;
        self.current = Level {
            mark: self.solver.trail.mark(),
            known: self.is_known,
            tried: Tried {
                passed: 0,
                value: None,
            },
        };
        self.earlier.push_reserved(current);
        self.is_known = false;
        true
    }

    /// Goes back to the variable before, which keeps its value. False, and nothing changes, where there is none.
    ///
    /// It takes no memory.
    pub fn undo(&mut self) -> bool
        ensures back { result ≡ true → GoesBack self.old self.new }
        ensures first { result ≡ false → (self.new ≡ self.old) × (self.old.earlier ≡ []) }
    {
        let Some(last) = self.earlier.pop() else {
            return false;
        };
        self.solver
            .trail
            .undo(self.current.mark, &mut self.solver.bounds);
        self.is_known = self.current.known;
        self.current = last;
        true
    }

    /// Gives the current variable its next value in the seed's order at which narrowing leaves values, `None` where
    /// none is left; then it has no value. With the value no constraint is refused. At `NoMemory` nothing changes; where
    /// the variable had a value then, calls for variables behind it answer `NoMemory` too, until one goes back to it.
    pub fn next_value(&mut self) -> Result<Option<i64>, NoMemory>
        ensures some { (v : ℤ) → result ≡ Ok (Some v) → Gives self.old self.new v }
        ensures none { result ≡ Ok None → Ends self.old self.new }
        ensures no_memory { OnErr result (self.new ≡ self.old) }
    {
        if !self.current.known {
            return Err(NoMemory);
        }
        narrower_bounds_give_inner_spans();
        spans_are_sane();
        domains_list_values();
        let variable = self.earlier.len();
        let domain = &self.domains[variable];
        domain.spans();
        let size = domain.size();
        let from = start(self.seed, self.place + variable as u64, size);
        let mark = self.current.mark;
        let passed = self.current.tried.passed;
        match self
            .solver
            .first_admitted(mark, variable > 0, variable as u32, domain, from, passed)
        {
            Err(error) => {
                self.solver.trail.undo(mark, &mut self.solver.bounds);
                self.is_known = false;
                Err(error)
            }
            Ok(None) => {
                self.solver.trail.undo(mark, &mut self.solver.bounds);
                self.current.tried = Tried {
                    passed: size,
                    value: None,
                };
                self.is_known = false;
                Ok(None)
            }
            Ok(Some(at)) => {
                let value = domain.at(run_at(from, size, at).index);
                self.current.tried = Tried {
                    passed: at + 1,
                    value: Some(value),
                };
                self.is_known = true;
                Ok(Some(value))
            }
        }
    }
}
