//! The answer of a trace file.
ghost use Rattle.std.specs.Prelude.{◌≡◌, ◌<◌, ◌^◌, ◌-◌, length, nat_eq, IfOk, string_bytes};
ghost use Rattle.std.specs.List.{count_by};
ghost use Rattle.pst_model.specs.ModelView.{view_model};
ghost use Rattle.pst_scen.specs.Laws.{IsPreorder, HasOneLeafEach};
ghost use Rattle.pst_scen.specs.Plans.{IsPlanOf};
ghost use Rattle.pst_order.specs.Facts.{LinksStates};
ghost use Rattle.pst_scenario_answers.specs.declared.check.CheckAnswer.TheVariants.{Illegal as AtLine};
ghost use Rattle.pst_scenario_answers.specs.Checked as spec;

use pst_base::{Names, NoMemory};
use pst_model::Model;
use pst_scen::{Plan, Scenario};
use pst_trace_reader::{TraceEnd, read_trace};
use pst_trace_verdict::{TraceVerdict, judge_trace, read_events_are_blocks};
use std::alloc::Global;

/// What is answered of a trace file.
#[derive(Clone, Copy, Debug, PartialEq, Eq)]
pub enum CheckAnswer {
    /// It is that of a whole legal trace.
    Whole,
    /// It begins that of one, up to an action that failed or trapped.
    Prefix,
    /// It isn't the text of a trace.
    BadTrace {
        /// The number of the first bad line, counted from 1.
        line: u32,
    },
    /// A line breaks a rule.
    Illegal {
        /// The number of the first such line, counted from 1.
        line: u32,
        /// The least rule that it breaks.
        rule: u8,
    },
}

impl CheckAnswer {
    /// The line that is printed.
    pub fn text(self, alloc: Global) -> Result<String, NoMemory>
        ensures { IfOk result (λ text. string_bytes text ≡ spec.answer_text self) }
    {
        match self {
            CheckAnswer::Whole => Ok(String::from_str(alloc, "check whole\n")?),
            CheckAnswer::Prefix => Ok(String::from_str(alloc, "check prefix\n")?),
            CheckAnswer::BadTrace { line } => Ok(format!(in alloc; "badtrace {line}\n")?),
            CheckAnswer::Illegal { line, rule } => illegal_line(alloc, line, rule),
        }
    }
}

// `illegal LINE RULE`.
fn illegal_line(alloc: Global, line: u32, rule: u8) -> Result<String, NoMemory>
    ensures { IfOk result (λ text. string_bytes text ≡ spec.answer_text (AtLine line rule)) }
{
    Ok(format!(in alloc; "illegal {line} {rule}\n")?)
}

// The answer that tells a verdict.
fn answer_of(verdict: TraceVerdict) -> CheckAnswer
    ensures { result ≡ spec.answer_of verdict }
{
    match verdict {
        TraceVerdict::Whole => CheckAnswer::Whole,
        TraceVerdict::Prefix => CheckAnswer::Prefix,
        TraceVerdict::Illegal { line, rule } => CheckAnswer::Illegal { line, rule },
    }
}

/// Judges a trace file against a scenario, whose plan is given: its first bad line, or the first line
/// that breaks a rule, or whether it is whole. The file has fewer than 2^32 - 2 line feeds.
///
/// The scenario has fewer than 2^31 actions. Links of state references lead to outputs of the same pool,
/// and no two outputs to one pool have the same link. The nodes stand in preorder, and each
/// action has one leaf at most.
pub fn checked(
    alloc: Global,
    names: &Names,
    model: &Model,
    scenario: &Scenario,
    plan: &Plan,
    text: &[u8],
) -> Result<CheckAnswer, NoMemory>
    requires links { LinksStates scenario.now }
    requires planned { IsPlanOf scenario.now plan.now }
    requires preorder { IsPreorder scenario.now.nodes }
    requires one_leaf { HasOneLeafEach scenario.now.nodes }
    requires small { length scenario.now.actions < 2 ^ 31 }
    requires few { count_by (nat_eq 10) text.now < 2 ^ 32 - 2 }
    ensures { IfOk result (spec.IsChecked names.now (view_model model.now) scenario.now text.now) }
{
    read_events_are_blocks();
    match read_trace(alloc, text) {
        Ok(trace) => {
            let verdict = judge_trace(alloc, names, model, scenario, plan, &trace)?;
            Ok(answer_of(verdict))
        }
        Err(TraceEnd::Bad { line }) => Ok(CheckAnswer::BadTrace { line }),
        Err(TraceEnd::NoMemory) => Err(NoMemory),
    }
}
