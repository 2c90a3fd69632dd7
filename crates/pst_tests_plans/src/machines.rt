//! Programs of lanes, and machines that run them.
ghost use Rattle.pst_scen.specs.Plans.{IsPlanOf};
ghost use Rattle.pst_order.specs.Built.{IsBuilt};

use crate::runs::write_trace;
use pst_programs::{Instruction, Move, Program};
use pst_scen::{Plan, Scenario};
use pst_static::{Machine, lane_programs};
use pst_tests_scenarios::number;
use std::alloc::{AllocError, Global};

/// How many moves are tried at random.
const MOVES: u32 = 100_000;

// Writes the instructions of each lane.
fn write_programs(answer: &mut String, programs: &[Program]) -> Result<(), AllocError> {
    for program in programs {
        answer.push_str(" |")?;
        for step in program.steps.as_slice() {
            match step {
                Instruction::Run { action } => write!(answer, " run {action}")?,
                Instruction::Signal { action } => write!(answer, " signal {action}")?,
                Instruction::Await { action } => write!(answer, " await {action}")?,
            }
        }
    }
    Ok(())
}

// The move of that kind on the lane.
fn chosen(kind: &str, lane: u32) -> Move {
    match kind {
        "pass" => Move::Pass { lane },
        "begin" => Move::Begin { lane },
        _ => Move::End { lane },
    }
}

// Writes what a machine answers to a command: `pass LANE`, `begin LANE`, `end LANE`, `ended` or
// `trace`.
fn take(answer: &mut String, machine: &mut Machine<'_>, command: &str) -> Result<(), AllocError> {
    let (verb, word) = command
        .trim()
        .split_once(' ')
        .unwrap_or((command.trim(), ""));
    match verb {
        "ended" => write!(answer, " {}", machine.ended()),
        "trace" => write_trace(answer, machine.trace()),
        _ => write!(answer, " {}", machine.step(chosen(verb, number(word)))),
    }
}

// Tries moves at random, until all lanes are at their ends.
fn drive(machine: &mut Machine<'_>, lanes: u32, seed: u64) {
    let mut state = seed;
    for _ in 0..MOVES {
        if machine.ended() {
            return;
        }
        state = state
            .wrapping_mul(6_364_136_223_846_793_005)
            .wrapping_add(1_442_695_040_888_963_407);
        let lane = ((state >> 33) % 16) as u32;
        let kind = match (state >> 40) % 3 {
            0 => "pass",
            1 => "begin",
            _ => "end",
        };
        if lane < lanes {
            machine.step(chosen(kind, lane));
        }
    }
}

/// Answers these calls on a scenario and its plan, for so many lanes:
///
/// - `programs`: the instructions of each lane.
/// - `machine`: what a machine answers to the commands.
/// - `driven`: the number of events of a machine to which moves are given at random, from the seed
///   that is named, and whether all lanes are at their ends.
pub fn answer(
    alloc: Global,
    scenario: &Scenario,
    plan: &Plan,
    call: &str,
    lanes: u32,
    commands: &str,
) -> Result<String, AllocError>
    requires built { IsBuilt scenario.now }
    requires planned { IsPlanOf scenario.now plan.now }
{
    if lanes < 1 || lanes > 16 || plan.width() > lanes {
        return String::from_str(alloc, "too few lanes");
    }
    let Ok(programs) = lane_programs(alloc, plan, lanes) else {
        return String::from_str(alloc, "no memory");
    };
    let mut answer = String::from_str(alloc, call)?;
    if call == "programs" {
        write_programs(&mut answer, &programs)?;
        return Ok(answer);
    }
    let Ok(mut machine) = Machine::new(alloc, &programs, plan) else {
        return String::from_str(alloc, "no memory");
    };
    if call == "driven" {
        drive(&mut machine, lanes, u64::from(number(commands.trim())));
        write!(answer, " {} {}", machine.trace().len(), machine.ended())?;
        return Ok(answer);
    }
    for command in commands.split(',') {
        take(&mut answer, &mut machine, command)?;
    }
    Ok(answer)
}
