//! Lines of programs: for each lane its number and then a line for each instruction, and a last line
//! with the number of all instructions.
ghost use Rattle.std.specs.Prelude.{◌≡◌, ◌++◌, ◌≤◌, length, string_bytes, OnOk};
ghost use Rattle.pst_programs.specs.Laws.{instructions};
ghost use Rattle.pst_trace_texts.specs.Lines.{each_from};
ghost use Rattle.pst_program_texts.specs.Texts.{instruction_text, steps_text, program_text, programs_text};

use pst_base::NoMemory;
use pst_programs::{Instruction, Program};

/// Adds the line of an instruction.
fn write_instruction(text: &mut String, instruction: Instruction) -> Result<(), NoMemory>
    ensures { OnOk result (string_bytes text.new ≡ string_bytes text.old ++ instruction_text instruction) }
{
    match instruction {
        Instruction::Run { action } => Ok(write!(text, "run {action}\n")?),
        Instruction::Signal { action } => Ok(write!(text, "signal {action}\n")?),
        Instruction::Await { action } => Ok(write!(text, "await {action}\n")?),
    }
}

/// Adds the lines of a lane's instructions.
fn write_steps(text: &mut String, steps: &[Instruction]) -> Result<(), NoMemory>
    ensures { OnOk result (string_bytes text.new ≡ string_bytes text.old ++ steps_text steps.now) }
{
    for step in steps {
        write_instruction(text, *step)?;
    }
    Ok(())
}

/// Adds the lines of a lane's program.
fn write_program(text: &mut String, lane: usize, program: &Program) -> Result<(), NoMemory>
    ensures { OnOk result (string_bytes text.new ≡ string_bytes text.old ++ program_text lane program.now) }
{
    write!(text, "lane {lane}\n")?;
    write_steps(text, program.steps.as_slice())
}

/// Adds the lines of all programs.
fn write_lanes(text: &mut String, programs: &[Program]) -> Result<(), NoMemory>
    ensures { OnOk result (string_bytes text.new ≡ string_bytes text.old ++ each_from program_text 0 programs.now) }
{
    for (lane, program) in programs.iter().enumerate() {
        write_program(text, lane, program)?;
    }
    Ok(())
}

/// How many instructions the programs have, which are those of 16 lanes at most.
pub fn count_instructions(programs: &[Program]) -> u64
    requires { length programs.now ≤ 16 }
    ensures { result ≡ instructions programs.now }
{
    let mut count = 0;
    for program in programs {
        count += program.steps.as_slice().len() as u64;
    }
    count
}

/// Adds the lines of programs of 16 lanes at most, and the last line.
pub fn write_programs(text: &mut String, programs: &[Program]) -> Result<(), NoMemory>
    requires { length programs.now ≤ 16 }
    ensures { OnOk result (string_bytes text.new ≡ string_bytes text.old ++ programs_text programs.now) }
{
    let count = count_instructions(programs);
    write_lanes(text, programs)?;
    Ok(write!(text, "static {count}\n")?)
}
