//! Activities as texts.
use crate::expressions::{write_constraint, write_constraints, write_spans};
use crate::page::Page;
use pst_model::{Activity, Arm, Branch, Constraint, Join, Step, Tie};

// A traversal: `do` or the handle, the action type, and the inline constraints.
fn write_traversal(page: &mut Page, action: u32, handle: Option<u32>, inline: &[Constraint]) {
    match handle {
        None => page.put("do"),
        Some(handle) => page.number("h", handle),
    }
    page.number(" ", action);
    write_constraints(page, inline);
}

// The head of a block with a join form.
fn write_join(page: &mut Page, parallel: bool, join: Join) {
    page.put(if parallel { "parallel " } else { "schedule " });
    match join {
        Join::Fixed { joined } => page.bits("bits ", joined),
        Join::Choose { count } => page.number("any ", count),
    }
}

// A guard.
fn write_guard(page: &mut Page, guard: &Option<Constraint>) {
    if let Some(guard) = guard {
        write_constraint(page, guard);
        page.put(" ");
    }
}

// An expression between a word and another one.
fn write_head(page: &mut Page, word: &str, value: &Constraint, behind: &str) {
    page.put(word);
    write_constraint(page, value);
    page.put(behind);
}

// A step.
#[cycle(steps)]
fn write_step(step: &Step, page: &mut Page) {
    match step {
        Step::Traverse {
            action,
            handle,
            inline,
        } => write_traversal(page, *action, *handle, inline.as_slice()),
        Step::Sequence(steps) => write_steps(steps.as_slice(), page, ""),
        Step::Parallel(steps) => write_steps(steps.as_slice(), page, "parallel "),
        Step::Schedule(steps) => write_steps(steps.as_slice(), page, "schedule "),
        Step::Joined {
            parallel,
            join,
            steps,
        } => {
            write_join(page, *parallel, *join);
            write_steps(steps.as_slice(), page, "");
        }
        Step::Select(branches) => write_branches(branches.as_slice(), page),
        Step::Repeat { count, body } => {
            write_head(page, "repeat ", count, " ");
            write_step(body, page);
        }
        Step::If { condition, yes, no } => {
            write_head(page, "if ", condition, " ");
            write_step(yes, page);
            write_other(no, page, " else ", "");
        }
        Step::Match { value, arms, other } => {
            write_head(page, "match ", value, "{");
            write_arms(arms.as_slice(), page);
            write_other(other, page, "default ", ";");
            page.put("}");
        }
    }
}

// Steps in braces, with `;` behind each, behind a word.
#[cycle(steps)]
fn write_steps(steps: &[Step], page: &mut Page, word: &str) {
    page.put(word);
    page.put("{");
    for step in steps {
        write_step(step, page);
        page.put(";");
    }
    page.put("}");
}

// Branches in braces, with their guards and weights.
#[cycle(steps)]
fn write_branches(branches: &[Branch], page: &mut Page) {
    page.put("select {");
    for branch in branches {
        write_guard(page, &branch.guard);
        page.number("", branch.weight);
        page.put(" ");
        write_step(&branch.step, page);
        page.put(";");
    }
    page.put("}");
}

// Arms with their ranges.
#[cycle(steps)]
fn write_arms(arms: &[Arm], page: &mut Page) {
    for arm in arms {
        write_spans(page, arm.spans.as_slice());
        page.put(" ");
        write_step(&arm.step, page);
        page.put(";");
    }
}

// The step that may be missing, between a word and another one.
#[cycle(steps)]
fn write_other(other: &Option<Box<Step>>, page: &mut Page, word: &str, behind: &str) {
    match other {
        None => {}
        Some(step) => {
            page.put(word);
            write_step(step, page);
            page.put(behind);
        }
    }
}

// The action types of handles.
fn write_handles(page: &mut Page, handles: &[u32]) {
    for handle in handles {
        page.number(" h=", *handle);
    }
}

// Binds.
fn write_binds(page: &mut Page, binds: &[Tie]) {
    for tie in binds {
        page.number(" bind ", tie.from_handle);
        page.number(".", tie.from_reference);
        page.number(" ", tie.to_handle);
        page.number(".", tie.to_reference);
    }
}

/// An activity: its handles, its steps and its binds.
pub fn write_activity(page: &mut Page, activity: &Activity) {
    page.put(" do");
    write_handles(page, activity.handles.as_slice());
    write_steps(activity.steps.as_slice(), page, "");
    write_binds(page, activity.binds.as_slice());
}
