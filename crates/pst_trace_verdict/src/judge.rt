//! The verdict on the text of a trace.
ghost use Rattle.std.specs.Prelude.{◌≡◌, ◌<◌, ◌^◌, length, IfOk};
ghost use Rattle.pst_model.specs.ModelView.{view_model};
ghost use Rattle.pst_scen.specs.Judging.{AreWholeBlocks};
ghost use Rattle.pst_scen.specs.Plans.{IsPlanOf};
ghost use Rattle.pst_scen.specs.Laws.{IsPreorder, HasOneLeafEach};
ghost use Rattle.pst_order.specs.Facts.{LinksStates};
ghost use Rattle.pst_trace_verdict.specs.declared.verdict.TraceVerdict.TheVariants.{Illegal as AtLine};
ghost use Rattle.pst_trace_verdict.specs.Verdicts.{OfEvents, IsTraceVerdict};

use crate::events::{count_blocks, fits};
use crate::header::leaves_at;
use crate::verdict::TraceVerdict;
use pst_base::{Names, NoMemory};
use pst_check::{Verdict, check};
use pst_model::Model;
use pst_scen::{Event, Plan, Scenario};
use pst_trace_lines::LastLine;
use pst_trace_reader::TraceText;
use pst_trace_writer::header;
use std::alloc::Global;

/// A line that breaks a rule. Where its number isn't below 2^32 the answer is `NoMemory`.
fn breach(line: u64, rule: u8) -> Result<TraceVerdict, NoMemory>
    ensures { IfOk result (λ verdict. verdict ≡ AtLine line rule) }
{
    match u32::try_from(line) {
        Ok(line) => Ok(TraceVerdict::Illegal { line, rule }),
        Err(_) => Err(NoMemory),
    }
}

/// How many lines these are. Where the number isn't below 2^32 the answer is `NoMemory`.
fn count_of(lines: &[String]) -> Result<u32, NoMemory>
    ensures { IfOk result (λ count. count ≡ length lines.now) }
{
    match u32::try_from(lines.len()) {
        Ok(count) => Ok(count),
        Err(_) => Err(NoMemory),
    }
}

/// The verdict on the blocks and the last line behind so many lines of a header.
fn judge_events(
    scenario: &Scenario,
    plan: &Plan,
    lines: u32,
    events: &[Event],
    last: LastLine,
) -> Result<TraceVerdict, NoMemory>
    requires links { LinksStates scenario.now }
    requires planned { IsPlanOf scenario.now plan.now }
    requires preorder { IsPreorder scenario.now.nodes }
    requires one_leaf { HasOneLeafEach scenario.now.nodes }
    requires small { length scenario.now.actions < 2 ^ 31 }
    requires blocks { AreWholeBlocks events.now }
    ensures { IfOk result (OfEvents scenario.now lines events.now last) }
{
    let last_line = lines as u64 + count_blocks(events) as u64 + 1;
    match check(scenario, plan, events) {
        Verdict::Illegal { block, rule } => breach(lines as u64 + block as u64 + 1, rule),
        Verdict::Whole => {
            if !fits(scenario, events, last, true) {
                return breach(last_line, 10);
            }
            Ok(TraceVerdict::Whole)
        }
        Verdict::Prefix => {
            if !fits(scenario, events, last, false) {
                return breach(last_line, 10);
            }
            Ok(TraceVerdict::Prefix)
        }
    }
}

/// Judges the text of a trace: the first line that breaks a rule, with the least rule that it
/// breaks, or whether the trace is whole.
///
/// The scenario's plan is given, and the events are whole blocks. It has fewer than 2^31 actions, links
/// of state references lead to outputs of the same pool, and no two outputs to one pool have the same link; its
/// nodes stand in preorder, and each action has one leaf at most.
///
/// A line of the header breaks rule 1
/// where it isn't that of the scenario's header in the format of the text, the first line where there
/// is no such header; a block breaks the rules of blocks; the last line breaks rule 10 where it doesn't
/// fit. Where memory runs out, or a line's number isn't below 2^32, the answer is `NoMemory`.
pub fn judge_trace(
    alloc: Global,
    names: &Names,
    model: &Model,
    scenario: &Scenario,
    plan: &Plan,
    text: &TraceText,
) -> Result<TraceVerdict, NoMemory>
    requires links { LinksStates scenario.now }
    requires planned { IsPlanOf scenario.now plan.now }
    requires preorder { IsPreorder scenario.now.nodes }
    requires one_leaf { HasOneLeafEach scenario.now.nodes }
    requires small { length scenario.now.actions < 2 ^ 31 }
    requires blocks { AreWholeBlocks text.now.events.items }
    ensures { IfOk result (IsTraceVerdict names.now (view_model model.now) scenario.now text.now) }
{
    let Some(own) = header(alloc, names, model, scenario, text.format)? else {
        return breach(1, 1);
    };
    if let Some(at) = leaves_at(own.as_bytes(), text.header.as_slice()) {
        return breach(at as u64 + 1, 1);
    }
    let lines = count_of(text.header.as_slice())?;
    judge_events(scenario, plan, lines, text.events.as_slice(), text.last)
}
