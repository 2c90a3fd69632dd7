//! What a line asks for.
ghost use Rattle.std.specs.Prelude.{◌≡◌, map, string_bytes};
ghost use Rattle.pst_line_parts.specs.Lines.{AreBehind};
ghost use Rattle.pst_outcome.specs.Tasks.{IsWork, AreLimits, IsTask};

use pst_line_parts::{infer_given, lanes_given, over_given, seeds_given, size_given, space_given};
use pst_outcome::{Task, Work};
use pst_words::{Command, Key, Line};

/// The budget where a line gives none.
const BUDGET: u64 = 100_000;

// What is done with the scenario.
fn work_of(line: &Line<'_>) -> Work
    requires { AreBehind line.now.command (map string_bytes line.now.arguments.now) }
    ensures { IsWork line.now.command (map string_bytes line.now.arguments.now) result }
{
    match line.command {
        Command::Run => {
            let lanes = lanes_given(line);
            Work::Run { lanes }
        }
        Command::Solve => Work::Solve,
        Command::Check => Work::Check,
        Command::Gen => {
            let size = size_given(line);
            let lanes = lanes_given(line);
            Work::Generate { size, lanes }
        }
        Command::Static => {
            let over = over_given(line);
            Work::Static { over }
        }
        Command::Place => {
            let space = space_given(line);
            Work::Place { space }
        }
        Command::Sweep => {
            let (first, count) = seeds_given(line);
            Work::Sweep { first, count }
        }
    }
}

// The most inferred actions, and the budget; a generated model has its own.
fn limits_of(line: &Line<'_>) -> (u32, u64)
    requires { AreBehind line.now.command (map string_bytes line.now.arguments.now) }
    ensures { AreLimits line.now.command (map string_bytes line.now.arguments.now) result.0 result.1 }
{
    match line.command {
        Command::Gen => (0, BUDGET),
        _ => (infer_given(line), line.number(Key::Budget, BUDGET)),
    }
}

/// What a line asks for.
pub(crate) fn task_of(line: &Line<'_>) -> Task
    requires { AreBehind line.now.command (map string_bytes line.now.arguments.now) }
    ensures { IsTask line.now.command (map string_bytes line.now.arguments.now) result }
{
    let (infer, budget) = limits_of(line);
    Task {
        work: work_of(line),
        seed: line.number(Key::Seed, 1),
        infer,
        budget,
    }
}
