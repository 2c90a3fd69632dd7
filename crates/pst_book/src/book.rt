//! The book of a run.
ghost use Rattle.std.specs.Prelude.{◌≡◌, length, ◌*◌, ◌^◌, ◌↔◌, ◌<◌, ◌≤◌, ◌∷◌, ◌++◌, [], ℕ, List, IfOk, IsTrue, IsSome, MatchOption};
ghost use Rattle.std.specs.Bool.{OnTrue, OnFalse};
ghost use Rattle.pst_scen.specs.Trace.{StartsOn, Ended, Runs, IsHeld, IsWhole, Prefix};
ghost use Rattle.pst_scen.specs.Plan.{widest};
ghost use Rattle.pst_scen.specs.Plans.{IsPlanOf};
ghost use Rattle.pst_scen.specs.Core.{Open, Close, Step, Core, commands_of};
ghost use Rattle.pst_order.specs.Facts.{LinksStates};
ghost use Rattle.pst_order.specs.Rule.{open_count, close_count};
ghost use Rattle.pst_book.specs.Books.{with_trace, IsShut, DidOpen};

use crate::open::{count_members, start};
use crate::ready::{all_marked, candidate, mark_row};
use crate::run::Run;
use crate::waiting::waiting;
use pst_base::NoMemory;
use pst_order::{
    core_is_by_rule, core_is_one, groups_are_whole, members_are_those, rule_fits, rule_goes_on,
    rule_is_prefix, whole_is_sound,
};
use pst_scen::{Event, Plan, Scenario};
use std::alloc::Global;
use std::marker::Model;

/// A block of starts in the trace: the place of its first event, and the number of its events.
#[derive(Clone, Copy, Debug, PartialEq, Eq)]
pub struct Opened {
    pub first: u32,
    pub count: u32,
}

/// A run of a scenario on some lanes: which actions started and ended so far.
///
/// Contracts see it as its scenario, plan, number of lanes and trace. The core made the trace from
/// the commands that the book was given.
#[derive(Drop)]
pub struct Book<'a> {
    scenario: &'a Scenario,
    plan: &'a Plan,
    /// The run, by a plan of fewer pairs that waits as long.
    run: Run,
    /// For each 64 actions whether the number of a group that is ready may lie there.
    ready: Vec<bool>,
}

impl<'a> Model for Book<'a> {
    ghost use Rattle.pst_book.specs.Books.{View};

    ghost Value = { View };

    ghost use Rattle.pst_book.specs.Kept.{view_of, IsBook};

    ghost view = { view_of };

    ghost invariant = { IsBook };
}

impl<'a> Book<'a> {
    /// The book of a run in which nothing has started. It reserves the whole trace, so no later
    /// call takes memory. The plan is the scenario's, which has fewer than 2^31 actions, and the lanes,
    /// from 1 to 16, are enough for the widest group. Links of state references lead to outputs of the
    /// same pool, and no two outputs to one pool have the same link.
    pub fn new(
        alloc: Global,
        scenario: &'a Scenario,
        plan: &'a Plan,
        lanes: u32,
    ) -> Result<Book<'a>, NoMemory>
        requires links { LinksStates scenario.now }
        requires planned { IsPlanOf scenario.now plan.now }
        requires small { length scenario.now.actions < 2 ^ 31 }
        requires some { 1 ≤ lanes }
        requires few { lanes ≤ 16 }
        requires wide { widest plan.now.groups ≤ lanes }
        ensures { IfOk result (λ b. b ≡ record { scenario = scenario.now; plan = plan.now; lanes = lanes; trace = [] }) }
    {
        let run = Run::new(alloc, waiting(alloc, plan)?, lanes)?;
        let ready = all_marked(alloc, plan.len())?;
        Ok(Book {
            scenario,
            plan,
            run,
            ready,
        })
    }

    /// The number of lanes.
    pub fn lanes(&self) -> u32
        ensures { result ≡ self.now.lanes }
    {
        self.run.lanes()
    }

    /// Shows its caller's proof how many lanes and actions there are. It does nothing.
    pub fn show_limits(&self)
        ensures lanes { (1 ≤ self.now.lanes) × (self.now.lanes ≤ 16) }
        ensures wide { widest self.now.plan.groups ≤ self.now.lanes }
        ensures small { length self.now.scenario.actions < 2 ^ 31 }
    {
        let _ = &self.run;
    }

    /// The trace. It begins a whole legal trace on the book's lanes, has at most two events for each
    /// action, and the core makes it of its own commands, of which no more open, and no more end,
    /// than there are actions. Actions start on the book's lanes alone.
    pub fn trace(&self) -> &[Event]
        ensures value { result.now ≡ self.now.trace }
        ensures prefix { Prefix self.now.scenario self.now.lanes result.now }
        ensures fits { length result.now ≤ 2 * length self.now.scenario.actions }
        ensures core { Core self.now.scenario self.now.lanes (commands_of result.now) result.now }
        ensures few_opens { open_count (commands_of result.now) ≤ length self.now.scenario.actions }
        ensures few_ends { close_count (commands_of result.now) ≤ length self.now.scenario.actions }
        ensures lanes { (a lane : ℕ) → StartsOn result.now a lane → lane < self.now.lanes }
    {
        core_is_by_rule();
        core_is_one();
        rule_is_prefix();
        rule_fits();
        self.run.trace()
    }

    /// Starts the least startable group on the least idle lanes, its members ascending, and tells
    /// where its events stand. It answers none exactly where no group is startable, and then
    /// nothing changes. Where nothing runs and not every action has ended, a group starts.
    pub fn open(&mut self) -> Option<Opened>
        ensures step { MatchOption result ((self.new ≡ self.old) × IsShut self.old) (λ o. DidOpen self.old self.new o.first o.count) }
        ensures core { Step self.old.scenario self.old.lanes self.old.trace Open self.new.trace }
        ensures goes_on { ((a : ℕ) → Runs self.old.trace a → ⊥) → (IsWhole self.old.scenario self.old.trace → ⊥) → IsSome result }
        ensures fits { length self.new.trace ≤ 2 * length self.new.scenario.actions }
    {
        core_is_by_rule();
        rule_fits();
        rule_goes_on();
        whole_is_sound();
        members_are_those();
        groups_are_whole();
        let group = candidate(&self.run, &mut self.ready)?;
        let first = self.run.trace().len() as u32;
        let count = count_members(&self.run, group);
        start(&mut self.run, group, count);
        Some(Opened { first, count })
    }

    /// Records the end of the action. It answers false exactly where the action doesn't run, and
    /// then nothing changes.
    pub fn end(&mut self, act: u32) -> bool
        ensures is { IsTrue result ↔ Runs self.old.trace act }
        ensures yes { OnTrue result (self.new ≡ with_trace self.old (self.old.trace ++ Event.End act ∷ [])) }
        ensures no { OnFalse result (self.new ≡ self.old) }
        ensures core { Step self.old.scenario self.old.lanes self.old.trace (Close act) self.new.trace }
        ensures fits { length self.new.trace ≤ 2 * length self.new.scenario.actions }
    {
        core_is_by_rule();
        rule_fits();
        if !self.run.runs(act) {
            return false;
        }
        self.run.end(act);
        mark_row(&self.run, &mut self.ready, self.run.plan().must_rows(), act);
        mark_row(
            &self.run,
            &mut self.ready,
            self.run.plan().conflict_rows(),
            act,
        );
        true
    }

    /// Whether every action has ended.
    pub fn finished(&self) -> bool
        ensures { IsTrue result ↔ IsWhole self.now.scenario self.now.trace }
    {
        self.run.all_ended()
    }

    /// The action that runs on the lane.
    pub fn running_on(&self, lane: u32) -> Option<u32>
        ensures { MatchOption result (IsHeld self.now.trace lane → ⊥) (λ a. StartsOn self.now.trace a lane × (Ended self.now.trace a → ⊥)) }
    {
        self.run.holder(lane)
    }
}
