//! Single steps of their parts.
ghost use Rattle.std.specs.Prelude.{◌≡◌, IfOk, map};
ghost use Rattle.std.specs.Option.{option_map};
ghost use Rattle.pst_ast.specs.ActivityView.{view_join};
ghost use Rattle.pst_elab_rules.specs.Steps as tree;
ghost use Rattle.pst_model.specs.ActivityTree as model;
ghost use Rattle.pst_model.specs.ConstraintTree.{view_constraint};
ghost use Rattle.pst_model.specs.ModelView.{maybe_step, view_branch, view_step};
ghost use Rattle.pst_sources.specs.Shown.{sources_of};
ghost use Rattle.pst_walk_parts.specs.Shown.{view_statements};
ghost use Rattle.pst_step_forms.specs.Listed.{arm_row, branch_row, step_row};
ghost use Rattle.pst_step_forms.specs.Shown.{view_arms};

use crate::arms::Arms;
use pst_ast::{JoinNode, StatementNode, TogetherWord};
use pst_base::NoMemory;
use pst_model::{Branch, Constraint, Join, Step};
use pst_sources::Known;
use pst_step_parts::join_of;

/// Steps one after another.
pub fn sequence(steps: Vec<Step>) -> Step
    ensures { view_step result ≡ model.Sequence (step_row (map view_step steps.items)) }
{
    Step::Sequence(steps)
}

// Steps in parallel.
fn parallel(steps: Vec<Step>) -> Step
    ensures { view_step result ≡ model.Parallel (step_row (map view_step steps.items)) }
{
    Step::Parallel(steps)
}

// Steps in any order.
fn schedule(steps: Vec<Step>) -> Step
    ensures { view_step result ≡ model.Schedule (step_row (map view_step steps.items)) }
{
    Step::Schedule(steps)
}

// Whether it is the word of steps that run in parallel.
fn is_parallel(word: TogetherWord) -> bool
    ensures { result ≡ tree.is_parallel word }
{
    match word {
        TogetherWord::Parallel => true,
        TogetherWord::Schedule => false,
    }
}

// A block with a join form.
fn joined(parallel: bool, join: Join, steps: Vec<Step>) -> Step
    ensures { view_step result ≡ model.Joined parallel join (step_row (map view_step steps.items)) }
{
    Step::Joined {
        parallel,
        join,
        steps,
    }
}

/// A block of `parallel` or `schedule`, of these statements.
#[tactic(auto, using(crate::proofs::Rows::together_is))]
pub fn together(
    known: &Known<'_>,
    word: TogetherWord,
    join: &Option<JoinNode>,
    statements: &[StatementNode],
    steps: Vec<Step>,
) -> Result<Step, NoMemory>
    ensures { IfOk result (λ step. view_step step ≡ tree.together_step (sources_of known.now) word (option_map view_join join.now) (view_statements statements.now) (step_row (map view_step steps.items))) }
{
    match join {
        None => match word {
            TogetherWord::Parallel => Ok(parallel(steps)),
            TogetherWord::Schedule => Ok(schedule(steps)),
        },
        Some(join) => {
            let join = join_of(known, statements, join)?;
            Ok(joined(is_parallel(word), join, steps))
        }
    }
}

/// A choice of one branch.
pub fn select(branches: Vec<Branch>) -> Step
    ensures { view_step result ≡ model.Select (branch_row (map view_branch branches.items)) }
{
    Step::Select(branches)
}

/// A conditional step of its parts.
pub fn if_of(condition: Constraint, step: Box<Step>, other: Option<Box<Step>>) -> Step
    ensures { view_step result ≡ model.If (view_constraint condition) (view_step step.value) (maybe_step other) }
{
    Step::If {
        condition,
        yes: step,
        no: other,
    }
}

/// A repetition of its parts.
pub fn repeat_of(count: Constraint, step: Box<Step>) -> Step
    ensures { view_step result ≡ model.Repeat (view_constraint count) (view_step step.value) }
{
    Step::Repeat { count, body: step }
}

/// A choice by value of its parts.
pub fn match_of(value: Constraint, found: Arms) -> Step
    ensures { view_step result ≡ model.Match (view_constraint value) (arm_row (view_arms found).arms) (view_arms found).other }
{
    let Arms { arms, other } = found;
    Step::Match { value, arms, other }
}
