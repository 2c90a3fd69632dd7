//! Replies to requests.
ghost use Rattle.std.specs.Prelude.{◌≡◌, List, ◌↔◌, [], ◌∷◌, min, drop, length, string_bytes, vec_len, IfOk, IfErr, IsTrue};
ghost use Rattle.pst_words.specs.declared.command.Lines.TheVariants as lines;
ghost use Rattle.pst_model.specs.ModelView.{view_model};
ghost use Rattle.pst_run_alone.specs.Lanes.{lane as lane_of, Lane, AreUncalled, HasMade, HaveMade, lanes_told};
ghost use Rattle.pst_outcome.specs.Tasks.{IsSeveral, IsSweep};
ghost use Rattle.pst_outcome.specs.Models.{OfModel};
ghost use Rattle.pst_outcome.specs.Outcome.{bytes_of};
ghost use Rattle.pst_portable.specs.Requests.{IsReady, IsServable, IsAnswered};

use crate::request::{Question, Request};
use pst_base::NoMemory;
use pst_front::trace_of;
use pst_outcome::{Reply, Work};
use pst_shared_answers::{answer_model, answer_shared};
use pst_sweep_replies::answer_sweep;
use pst_target::{Gate, Target};
use std::alloc::Global;
use std::sync::Wait;
use std::thread::Threads;

// The reply to a question that is answered on one lane.
fn answer_alone<T: Target>(
    alloc: Global,
    question: &Question,
    lane: &mut T,
) -> Result<Reply, NoMemory>
    requires { IsReady lines.WithoutSweep 1 question.now }
    ensures done { IfOk result (λ reply. OfModel question.now.names (view_model question.now.model) question.now.root question.now.task (bytes_of question.now.trace)
        (lane_of (T.calls lane.old) (T.calls lane.new) (T.faults lane.old) (T.faults lane.new) ∷ []) reply.answer (string_bytes reply.text)) }
    ensures memory { IfErr result (λ e. HasMade (lane_of (T.calls lane.old) (T.calls lane.new) (T.faults lane.old) (T.faults lane.new))) }
{
    let trace = trace_of(&question.trace);
    let Question {
        names,
        model,
        root,
        task,
        trace: _,
    } = question;
    answer_model(alloc, names, model, *root, *task, trace, lane)
}

/// The reply to a request on one lane.
pub(crate) fn reply_alone<T: Target>(
    alloc: Global,
    request: Request,
    lane: &mut T,
) -> Result<Reply, NoMemory>
    requires { IsServable lines.WithoutSweep 1 request }
    ensures done { IfOk result (λ reply. IsAnswered request (lane_of (T.calls lane.old) (T.calls lane.new) (T.faults lane.old) (T.faults lane.new) ∷ []) reply.answer (string_bytes reply.text)) }
    ensures memory { IfErr result (λ e. HasMade (lane_of (T.calls lane.old) (T.calls lane.new) (T.faults lane.old) (T.faults lane.new))) }
{
    match request {
        Request::Answered(reply) => Ok(reply),
        Request::Asked(question) => answer_alone(alloc, &question, lane),
    }
}

// The reply to a question that is answered on the first of some lanes.
fn answer_on_first<T: Target>(
    alloc: Global,
    question: &Question,
    lanes: &mut Vec<T>,
) -> Result<Reply, NoMemory>
    requires ready { IsReady lines.WithoutSweep (min (vec_len lanes.old) 16) question.now }
    requires one { IsSeveral question.now.task.work → ⊥ }
    ensures done { IfOk result (λ reply. OfModel question.now.names (view_model question.now.model) question.now.root question.now.task (bytes_of question.now.trace)
        (lanes_told T.calls T.faults lanes.old.items lanes.new.items) reply.answer (string_bytes reply.text)) }
    ensures memory { IfErr result (λ e. HaveMade (lanes_told T.calls T.faults lanes.old.items lanes.new.items)) }
    ensures others { drop 1 lanes.new.items ≡ drop 1 lanes.old.items }
    ensures as_many { length lanes.new.items ≡ length lanes.old.items }
{
    match lanes.first_mut() {
        Some(lane) => answer_alone(alloc, question, lane),
        None => unreachable!(),
    }
}

// Whether a scenario is to be run on several lanes.
fn is_several(work: Work) -> bool
    ensures { IsTrue result ↔ IsSeveral work }
{
    match work {
        Work::Run { lanes } => lanes > 1,
        Work::Generate { size: _, lanes } => lanes > 1,
        Work::Solve => false,
        Work::Check => false,
        Work::Place { space: _ } => false,
        Work::Sweep { first: _, count: _ } => false,
        Work::Static { over: _ } => false,
    }
}

// Whether many seeds are to be searched.
fn is_sweep(work: Work) -> bool
    ensures { IsTrue result ↔ IsSweep work }
{
    match work {
        Work::Sweep { first: _, count: _ } => true,
        Work::Run { lanes: _ } => false,
        Work::Solve => false,
        Work::Check => false,
        Work::Place { space: _ } => false,
        Work::Generate { size: _, lanes: _ } => false,
        Work::Static { over: _ } => false,
    }
}

// The reply to a question that asks for a sweep. No lane is called.
fn answer_swept(
    rt: &(impl Threads + Sync),
    alloc: Global,
    question: &Question,
) -> Result<Reply, NoMemory>
    requires ready { IsReady lines.SweepAlone 1 question.now }
    ensures { (told : List Lane) → AreUncalled told → IfOk result (λ reply. OfModel question.now.names (view_model question.now.model) question.now.root question.now.task (bytes_of question.now.trace) told reply.answer (string_bytes reply.text)) }
{
    let Question {
        names,
        model,
        root,
        task,
        trace: _,
    } = question;
    answer_sweep(rt, alloc, names, model, *root, *task)
}

/// The reply to a request that may ask for a sweep alone. No lane is called.
pub(crate) fn reply_swept(
    rt: &(impl Threads + Sync),
    alloc: Global,
    request: Request,
) -> Result<Reply, NoMemory>
    requires servable { IsServable lines.SweepAlone 1 request }
    ensures { IfOk result (λ reply. IsAnswered request [] reply.answer (string_bytes reply.text)) }
{
    match request {
        Request::Answered(reply) => Ok(reply),
        Request::Asked(question) => answer_swept(rt, alloc, &question),
    }
}

// The reply to a question that asks for a scenario, on some lanes.
fn answer_with_lanes<R: Threads + Wait + Sync, T: Target + Send, G: Gate + Sync>(
    rt: &R,
    alloc: Global,
    question: &Question,
    lanes: &mut Vec<T>,
    gate: &G,
) -> Result<Reply, NoMemory>
    requires ready { IsReady lines.WithoutSweep (min (vec_len lanes.old) 16) question.now }
    ensures done { IfOk result (λ reply. OfModel question.now.names (view_model question.now.model) question.now.root question.now.task (bytes_of question.now.trace)
        (lanes_told T.calls T.faults lanes.old.items lanes.new.items) reply.answer (string_bytes reply.text)) }
    ensures memory { IfErr result (λ e. HaveMade (lanes_told T.calls T.faults lanes.old.items lanes.new.items)) }
    ensures others { drop 16 lanes.new.items ≡ drop 16 lanes.old.items }
    ensures as_many { length lanes.new.items ≡ length lanes.old.items }
{
    if !is_several(question.task.work) {
        return answer_on_first(alloc, question, lanes);
    }
    let Question {
        names,
        model,
        root,
        task,
        trace: _,
    } = question;
    answer_shared(rt, alloc, names, model, *root, *task, lanes, gate)
}

// The reply to a question that is answered on some lanes, or without any.
fn answer_on_lanes<R: Threads + Wait + Sync, T: Target + Send, G: Gate + Sync>(
    rt: &R,
    alloc: Global,
    question: &Question,
    lanes: &mut Vec<T>,
    gate: &G,
) -> Result<Reply, NoMemory>
    requires ready { IsReady lines.All (min (vec_len lanes.old) 16) question.now }
    ensures done { IfOk result (λ reply. OfModel question.now.names (view_model question.now.model) question.now.root question.now.task (bytes_of question.now.trace)
        (lanes_told T.calls T.faults lanes.old.items lanes.new.items) reply.answer (string_bytes reply.text)) }
    ensures memory { IfErr result (λ e. HaveMade (lanes_told T.calls T.faults lanes.old.items lanes.new.items)) }
    ensures others { drop 16 lanes.new.items ≡ drop 16 lanes.old.items }
    ensures as_many { length lanes.new.items ≡ length lanes.old.items }
{
    if is_sweep(question.task.work) {
        answer_swept(rt, alloc, question)
    } else {
        answer_with_lanes(rt, alloc, question, lanes, gate)
    }
}

/// The reply to a request on some lanes, of which as many of the first are used as it asks for.
pub(crate) fn reply_on_lanes<R: Threads + Wait + Sync, T: Target + Send, G: Gate + Sync>(
    rt: &R,
    alloc: Global,
    request: Request,
    lanes: &mut Vec<T>,
    gate: &G,
) -> Result<Reply, NoMemory>
    requires servable { IsServable lines.All (min (vec_len lanes.old) 16) request }
    ensures done { IfOk result (λ reply. IsAnswered request (lanes_told T.calls T.faults lanes.old.items lanes.new.items) reply.answer (string_bytes reply.text)) }
    ensures memory { IfErr result (λ e. HaveMade (lanes_told T.calls T.faults lanes.old.items lanes.new.items)) }
    ensures others { drop 16 lanes.new.items ≡ drop 16 lanes.old.items }
    ensures as_many { length lanes.new.items ≡ length lanes.old.items }
{
    match request {
        Request::Answered(reply) => Ok(reply),
        Request::Asked(question) => answer_on_lanes(rt, alloc, &question, lanes, gate),
    }
}
