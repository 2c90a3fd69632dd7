//! Tests of the starts of a block, which look at one action or reference each.
ghost use Rattle.std.specs.Prelude.{◌≡◌, ◌<◌, ◌↔◌, ◌⊎◌, length, IsTrue};
ghost use Rattle.pst_scen.specs.declared.act.Act.{Act};
ghost use Rattle.pst_scen.specs.Flows.{IsAct};
ghost use Rattle.pst_scen.specs.Laws.{IsPreorder, HasOneLeafEach};
ghost use Rattle.pst_scen.specs.Plans.{IsPlanOf};
ghost use Rattle.pst_scen.specs.Trace.{Names};
ghost use Rattle.pst_check.specs.Tests.{AtSome, IsStatementOpen, HasStatementOpen, HasProducerOpen, HasOtherWriter, IsInTheWay, HasInTheWay, IsReaderOf, HasReference, IsOpenReader, HasReaderOpen};

use crate::past::{Past, has_ended, last_writer, runs};
use pst_nodes::stands_before;
use pst_scen::{Filled, Flow, Link, Plan, Scenario, before_is_never_itself};

/// The references of the action.
fn references_of(scenario: &Scenario, a: u32) -> &[Filled]
    requires { a < length scenario.now.actions }
    ensures { (act : Act) × IsAct scenario.now a act × (result.now ≡ act.references) }
{
    scenario.actions.as_slice()[a as usize]
        .references
        .as_slice()
}

fn is_flow(one: Flow, other: Flow) -> bool
    ensures { IsTrue result ↔ one ≡ other }
{
    one == other
}

fn is_link(one: Link, other: Link) -> bool
    ensures { IsTrue result ↔ one ≡ other }
{
    one == other
}

/// Whether the action stands in an earlier statement, not released, and hasn't ended.
fn is_statement_open(scenario: &Scenario, plan: &Plan, past: &Past<'_>, a: u32, b: u32) -> bool
    requires planned { IsPlanOf scenario.now plan.now }
    requires preorder { IsPreorder scenario.now.nodes }
    requires one_leaf { HasOneLeafEach scenario.now.nodes }
    requires a_in { a < length plan.now.groups }
    requires b_in { b < length plan.now.groups }
    ensures { IsTrue result ↔ IsStatementOpen scenario.now past.now b a }
{
    before_is_never_itself();
    if has_ended(past, a) {
        return false;
    }
    if !plan.must(a, b) {
        return false;
    }
    stands_before(scenario, a, b)
}

/// Whether an action of an earlier statement, which isn't released, hasn't ended.
pub(crate) fn has_statement_open(scenario: &Scenario, plan: &Plan, past: &Past<'_>, b: u32) -> bool
    requires planned { IsPlanOf scenario.now plan.now }
    requires preorder { IsPreorder scenario.now.nodes }
    requires one_leaf { HasOneLeafEach scenario.now.nodes }
    requires b_in { b < length plan.now.groups }
    ensures { IsTrue result ↔ HasStatementOpen scenario.now past.now b }
{
    for a in 0..plan.len() {
        if is_statement_open(scenario, plan, past, a, b) {
            return true;
        }
    }
    false
}

/// Whether the reference consumes a buffer whose producer hasn't ended.
fn is_producer_open(past: &Past<'_>, filled: &Filled) -> bool
    ensures { IsTrue result ↔ HasProducerOpen past.now filled.now }
{
    if !is_flow(filled.flow, Flow::BufferIn) {
        return false;
    }
    match filled.link {
        Link::Act { act, .. } => !has_ended(past, act),
        _ => false,
    }
}

fn are_producers_open(past: &Past<'_>, references: &[Filled]) -> bool
    ensures { IsTrue result ↔ AtSome references.now (HasProducerOpen past.now) }
{
    for i in 0..references.len() {
        if is_producer_open(past, &references[i]) {
            return true;
        }
    }
    false
}

/// Whether the producer of a buffer that the action consumes hasn't ended.
pub(crate) fn has_producer_open(scenario: &Scenario, past: &Past<'_>, b: u32) -> bool
    requires { b < length scenario.now.actions }
    ensures { IsTrue result ↔ HasReference scenario.now b (HasProducerOpen past.now) }
{
    are_producers_open(past, references_of(scenario, b))
}

/// Whether the link names the writer, or the first object where there is none.
fn names(link: Link, last: Option<u32>) -> bool
    ensures { IsTrue result ↔ Names link last }
{
    match (link, last) {
        (Link::Initial, None) => true,
        (Link::Act { act, .. }, Some(writer)) => act == writer,
        _ => false,
    }
}

fn is_state(flow: Flow) -> bool
    ensures { IsTrue result ↔ (flow ≡ Flow.StateIn) ⊎ (flow ≡ Flow.StateOut) }
{
    match flow {
        Flow::StateIn => true,
        Flow::StateOut => true,
        _ => false,
    }
}

/// Whether the reference is to a state pool, and its link names another than the last writer.
fn is_writer_other(scenario: &Scenario, past: &Past<'_>, filled: &Filled) -> bool
    ensures { IsTrue result ↔ HasOtherWriter scenario.now past.now filled.now }
{
    if !is_state(filled.flow) {
        return false;
    }
    !names(filled.link, last_writer(scenario, filled.pool, past))
}

fn are_writers_other(scenario: &Scenario, past: &Past<'_>, references: &[Filled]) -> bool
    ensures { IsTrue result ↔ AtSome references.now (HasOtherWriter scenario.now past.now) }
{
    for i in 0..references.len() {
        if is_writer_other(scenario, past, &references[i]) {
            return true;
        }
    }
    false
}

/// Whether the last writer of a state pool isn't the source or previous writer of the action.
pub(crate) fn has_other_writer(scenario: &Scenario, past: &Past<'_>, b: u32) -> bool
    requires { b < length scenario.now.actions }
    ensures { IsTrue result ↔ HasReference scenario.now b (HasOtherWriter scenario.now past.now) }
{
    are_writers_other(scenario, past, references_of(scenario, b))
}

/// Whether the first action runs and conflicts with the second.
fn is_in_the_way(plan: &Plan, past: &Past<'_>, a: u32, b: u32) -> bool
    requires a_in { a < length plan.now.groups }
    requires b_in { b < length plan.now.groups }
    ensures { IsTrue result ↔ IsInTheWay plan.now past.now b a }
{
    if !runs(past, a) {
        return false;
    }
    plan.conflict(a, b)
}

/// Whether a running action conflicts with the action.
pub(crate) fn has_in_the_way(plan: &Plan, past: &Past<'_>, b: u32) -> bool
    requires { b < length plan.now.groups }
    ensures { IsTrue result ↔ HasInTheWay plan.now past.now b }
{
    for a in 0..plan.len() {
        if is_in_the_way(plan, past, a, b) {
            return true;
        }
    }
    false
}

/// Whether the reader's reference reads the object that the writer's replaces.
fn is_reader_of(writer: &Filled, reader: &Filled) -> bool
    ensures { IsTrue result ↔ IsReaderOf writer.now reader.now }
{
    if !is_flow(reader.flow, Flow::StateIn) {
        return false;
    }
    if reader.pool != writer.pool {
        return false;
    }
    is_link(reader.link, writer.link)
}

fn are_readers_of(writer: &Filled, references: &[Filled]) -> bool
    ensures { IsTrue result ↔ AtSome references.now (IsReaderOf writer.now) }
{
    for i in 0..references.len() {
        if is_reader_of(writer, &references[i]) {
            return true;
        }
    }
    false
}

fn reads(scenario: &Scenario, a: u32, writer: &Filled) -> bool
    requires { a < length scenario.now.actions }
    ensures { IsTrue result ↔ HasReference scenario.now a (IsReaderOf writer.now) }
{
    are_readers_of(writer, references_of(scenario, a))
}

/// Whether the action is another one that reads what the reference replaces, and hasn't ended.
fn is_open_reader(scenario: &Scenario, past: &Past<'_>, a: u32, b: u32, writer: &Filled) -> bool
    requires { a < length scenario.now.actions }
    ensures { IsTrue result ↔ IsOpenReader scenario.now past.now b writer.now a }
{
    if a == b {
        return false;
    }
    if !reads(scenario, a, writer) {
        return false;
    }
    !has_ended(past, a)
}

fn is_reader_open(scenario: &Scenario, past: &Past<'_>, count: u32, b: u32, writer: &Filled) -> bool
    requires { count ≡ length scenario.now.actions }
    ensures { IsTrue result ↔ HasReaderOpen scenario.now past.now b writer.now }
{
    if !is_flow(writer.flow, Flow::StateOut) {
        return false;
    }
    for a in 0..count {
        if is_open_reader(scenario, past, a, b, writer) {
            return true;
        }
    }
    false
}

fn are_readers_open(
    scenario: &Scenario,
    past: &Past<'_>,
    count: u32,
    b: u32,
    references: &[Filled],
) -> bool
    requires { count ≡ length scenario.now.actions }
    ensures { IsTrue result ↔ AtSome references.now (HasReaderOpen scenario.now past.now b) }
{
    for i in 0..references.len() {
        if is_reader_open(scenario, past, count, b, &references[i]) {
            return true;
        }
    }
    false
}

/// Whether another action, which reads an object that the action replaces, hasn't ended.
pub(crate) fn has_reader_open(scenario: &Scenario, past: &Past<'_>, count: u32, b: u32) -> bool
    requires count { count ≡ length scenario.now.actions }
    requires b_in { b < length scenario.now.actions }
    ensures { IsTrue result ↔ HasReference scenario.now b (HasReaderOpen scenario.now past.now b) }
{
    are_readers_open(scenario, past, count, b, references_of(scenario, b))
}
