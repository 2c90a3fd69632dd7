//! The lines behind the counts of a text.
ghost use Rattle.std.specs.Prelude.{◌≡◌, ◌≤◌, ◌<◌, ◌+◌, ◌^◌, ℕ, List, nat_eq, MatchResult};
ghost use Rattle.std.specs.List.{count_by};
ghost use Rattle.pst_trace_reader.specs.declared.body.TraceEnd.TheVariants.{NoMemory as OutOfMemory};
ghost use Rattle.pst_trace_reader.specs.Behind.{BodyEnds};

use crate::line::{Reading, Step, read_line};
use pst_base::NoMemory;
use pst_trace_lines::{LastLine, block_lines_are_one, cut};
use std::alloc::Global;

/// Why lines are no trace.
#[derive(Clone, Copy, Debug, PartialEq, Eq)]
pub enum TraceEnd {
    /// The text isn't that of a trace.
    Bad {
        /// The number of the first bad line, counted from 1; of a line that is missing, the one behind
        /// the last.
        line: u32,
    },
    /// Memory ran out.
    NoMemory,
}

impl From<NoMemory> for TraceEnd {
    ghost from_gives = { λ _ end. end ≡ OutOfMemory };

    fn from(_error: NoMemory) -> TraceEnd {
        TraceEnd::NoMemory
    }
}

/// Reads the lines behind the counts, of which the first has the number 3, up to the last one.
pub(crate) fn read_body(
    alloc: Global,
    reading: &mut Reading,
    text: &[u8],
) -> Result<LastLine, TraceEnd>
    requires first { reading.old.passed ≡ 0 }
    requires few { count_by (nat_eq 10) text.now + 3 < 2 ^ 32 }
    ensures { BodyEnds reading.old reading.new text.now result }
{
    block_lines_are_one();
    let mut rest = text;
    let mut line = 3;
    'lines: while let Some((one, more)) = cut(rest, b'\n') {
        match read_line(alloc, reading, one)? {
            Step::Goes => {
                rest = more;
                line += 1;
            }
            Step::Ends(last) => {
                if more.len() == 0 {
                    return Ok(last);
                }
                return Err(TraceEnd::Bad { line: line + 1 });
            }
            Step::Bad => return Err(TraceEnd::Bad { line }),
        }
    }
    Err(TraceEnd::Bad { line })
}
