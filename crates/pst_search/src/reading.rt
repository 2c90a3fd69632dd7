//! The walker of whole lists of choices.
ghost use Rattle.std.specs.Prelude.{◌≡◌, IfOk, OnOk, []};
ghost use Rattle.pst_model.specs.ModelView.{view_model};
ghost use Rattle.pst_model.specs.Sound.{IsSound};
ghost use Rattle.pst_built.specs.Laws.{IsConcreteRoot};
ghost use Rattle.pst_list_walk.specs.Walks.{answer};
ghost use Rattle.pst_list_walk.specs.Made.{kept_at};
ghost use Rattle.pst_search_loop.specs.Kept.{IsWhole, Shows};
ghost use Rattle.pst_search_loop.specs.declared.walker.Look.TheVariants as look;
ghost use Rattle.pst_list_values.specs.Walked.{kept_of};
ghost use Rattle.pst_search.specs.Readings.{IsFound};

use crate::looking::{look_behind, rests_on};
use crate::planned::Planned;
use crate::whole::{found_at, found_with, judge_at, plan_whole};
use pst_base::NoMemory;
use pst_list_values::{Behind, back_at, choose_at, skip_at};
use pst_list_walk::ListWalk;
use pst_model::Model;
use pst_scen::{Plan, Scenario};
use pst_search_loop::{Conflict, Judged, Look, Skipped, Walker};
use std::alloc::Global;

/// A walker through whole lists of choices. Up to the sources each choice stands for the list that it ends, behind
/// them for its own place.
/// Contracts see its model, its root, its seed, its level and its choices.
#[derive(Drop)]
pub(crate) struct Reading<'a> {
    alloc: Global,
    lists: ListWalk<'a>,
    behind: Option<Behind>,
    plan: Option<Plan>,
}

impl<'a> std::marker::Model for Reading<'a> {
    ghost use Rattle.pst_link_walk.specs.Walks.{Kept};
    ghost use Rattle.pst_search.specs.Made.{kept_by, IsReading};
    ghost use Rattle.std.specs.Coded.{codes};
    ghost use Rattle.pst_model.specs.contracts.activity.Step as the_step;
    ghost use Rattle.pst_model.specs.contracts.body.BodyStep as the_body_step;
    ghost use Rattle.pst_model.specs.contracts.constraint.Slot as the_slot;
    ghost use Rattle.pst_expr.specs.contracts.tree.Expr as the_expr;

    ghost Value = { Kept };

    ghost coded = { Prim.hlevel (codes, the_step.the_row.coded, the_body_step.the_row.coded, the_slot.the_row.coded, the_expr.the_row.coded) };

    ghost view = { kept_by };

    ghost invariant = { IsReading };
}

impl<'a> Reading<'a> {
    /// The walker at the empty list of the level without inferred actions.
    pub(crate) fn new(
        alloc: Global,
        model: &'a Model,
        root: u32,
        seed: u64,
    ) -> Result<Reading<'a>, NoMemory>
        requires sound { IsSound (view_model model.now) }
        requires concrete { IsConcreteRoot (view_model model.now) root }
        ensures { IfOk result (λ r. r ≡ kept_at model.now root seed 0 []) }
    {
        let lists = ListWalk::new(alloc, model, root, seed, 0)?;
        Ok(Reading {
            alloc,
            lists,
            behind: None,
            plan: None,
        })
    }

    /// The whole scenario of the list, which has a plan, and that plan.
    pub(crate) fn found(&mut self) -> Result<(Scenario, Plan), NoMemory>
        requires { IsWhole (answer self.old) }
        ensures { IfOk result (λ found. IsFound self.old found) }
    {
        let plan = self.plan.take();
        match plan {
            Some(plan) => found_with(self.alloc, &self.lists, plan),
            None => found_at(self.alloc, &self.lists),
        }
    }

    // A whole list, which keeps its plan, unless it has none.
    fn planned(&mut self) -> Result<Look, NoMemory>
        requires { Shows (kept_of self.old) look.Whole }
        ensures same { OnOk result (self.new ≡ self.old) }
        ensures shows { IfOk result (λ shown. Shows (kept_of self.old) shown) }
    {
        let planned = plan_whole(self.alloc, &self.lists)?;
        match planned {
            Planned::There(plan) => {
                self.plan = Some(plan);
                Ok(Look::Whole)
            }
            Planned::Refused(conflict) => Ok(Look::Closed(conflict)),
        }
    }
}

impl Walker for Reading<'_> {
    ghost use Rattle.pst_list_values.specs.Walked.{kept_of};

    ghost kept = { kept_of };

    fn look(&mut self) -> Result<Look, NoMemory> {
        let shown = look_behind(self.alloc, &self.lists, &self.behind)?;
        match shown {
            Look::Whole => self.planned(),
            shown => Ok(shown),
        }
    }

    fn rests(&self, count: u64) -> Result<Conflict, NoMemory> {
        rests_on(self.alloc, &self.lists, count)
    }

    fn skip(&mut self, from: u64, count: u64) -> Result<Skipped, NoMemory> {
        skip_at(self.alloc, &self.lists, &mut self.behind, from, count)
    }

    fn choose(&mut self, digit: u64) -> Result<(), NoMemory> {
        self.plan = None;
        let behind = self.behind.take();
        self.behind = choose_at(self.alloc, &mut self.lists, behind, digit)?;
        Ok(())
    }

    fn back(&mut self) {
        self.plan = None;
        let behind = self.behind.take();
        self.behind = back_at(&mut self.lists, behind);
    }

    fn judge(&self) -> Result<Judged, NoMemory> {
        judge_at(self.alloc, &self.lists, &self.plan)
    }

    fn begin(&mut self, level: u32) -> Result<(), NoMemory> {
        self.behind = None;
        self.plan = None;
        self.lists.restart(level)?;
        Ok(())
    }
}
