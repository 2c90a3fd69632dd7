//! The numbers that a line gives.
ghost use Rattle.std.specs.Prelude.{◌≡◌, ◌<◌, ◌≤◌, ◌^◌, ℕ, List, map, string_bytes, decimal, Some};
ghost use Rattle.pst_words.specs.Lines.{given};
ghost use Rattle.pst_line_parts.specs.Lines.{AreBehind};
ghost use Rattle.pst_outcome.specs.Tasks.{IsNumberGiven};

use pst_outcome::Space;
use pst_words::{Key, Line};

// The number that is given for the key, or else another one, where it is below 2^32.
fn small_number(line: &Line<'_>, key: Key, otherwise: u32) -> u32
    requires { (text : List ℕ) → given key (map string_bytes line.now.arguments.now) ≡ Some text → (n : ℕ) × (text ≡ decimal n) × (n < 2 ^ 32) }
    ensures { IsNumberGiven key (map string_bytes line.now.arguments.now) otherwise result }
{
    let number = line.number(key, u64::from(otherwise));
    number as u32
}

/// The size of a generated model; 0 where none is given.
pub fn size_given(line: &Line<'_>) -> u32
    requires { AreBehind line.now.command (map string_bytes line.now.arguments.now) }
    ensures { IsNumberGiven Key.Size (map string_bytes line.now.arguments.now) 0 result }
{
    small_number(line, Key::Size, 0)
}

/// How many lanes a line asks for.
pub fn lanes_given(line: &Line<'_>) -> u32
    requires { AreBehind line.now.command (map string_bytes line.now.arguments.now) }
    ensures { IsNumberGiven Key.Lanes (map string_bytes line.now.arguments.now) 1 result }
{
    small_number(line, Key::Lanes, 1)
}

/// Over how many lanes a line asks for programs.
pub fn over_given(line: &Line<'_>) -> u32
    requires { AreBehind line.now.command (map string_bytes line.now.arguments.now) }
    ensures { IsNumberGiven Key.Over (map string_bytes line.now.arguments.now) 1 result }
{
    small_number(line, Key::Over, 1)
}

/// The most inferred actions that a line allows.
pub fn infer_given(line: &Line<'_>) -> u32
    requires { AreBehind line.now.command (map string_bytes line.now.arguments.now) }
    ensures { IsNumberGiven Key.Infer (map string_bytes line.now.arguments.now) 2 result }
{
    small_number(line, Key::Infer, 2)
}

/// The space of addresses that a line gives; it begins at 0 where the line doesn't say so.
pub fn space_given(line: &Line<'_>) -> Space
    ensures base { IsNumberGiven Key.Base (map string_bytes line.now.arguments.now) 0 result.base }
    ensures size { IsNumberGiven Key.Space (map string_bytes line.now.arguments.now) 0 result.size }
{
    Space {
        base: line.number(Key::Base, 0),
        size: line.number(Key::Space, 0),
    }
}

/// The first seed that a line gives, and how many; the first is 1 where the line doesn't say so.
pub fn seeds_given(line: &Line<'_>) -> (u64, u32)
    requires { AreBehind line.now.command (map string_bytes line.now.arguments.now) }
    ensures first { IsNumberGiven Key.First (map string_bytes line.now.arguments.now) 1 result.0 }
    ensures count { IsNumberGiven Key.Count (map string_bytes line.now.arguments.now) 0 result.1 }
{
    let first = line.number(Key::First, 1);
    let count = small_number(line, Key::Count, 0);
    (first, count)
}
