//! Lines of a header behind its counts.
ghost use Rattle.std.specs.Prelude.{◌≡◌, ℕ, ◌++◌, List, IsTrue, codes, true, MatchOption};
ghost use Rattle.std.specs.List.{list_all};
ghost use Rattle.pst_trace_lines.specs.declared.header.HeaderLine.{HeaderLine as AnyLine};
ghost use Rattle.pst_trace_lines.specs.Headers.{rank, word, is_printed, IsHeaderLine};

/// The sorts of lines of a header behind its counts, in their order.
#[derive(Clone, Copy, Debug, PartialEq, Eq)]
pub enum HeaderLine {
    /// The first object of a state pool.
    Initial,
    /// A compound action.
    Compound,
    /// The branches of a block with a join form.
    Join,
    /// An action.
    Action,
}

impl HeaderLine {
    /// How many sorts stand before this one.
    pub fn rank(self) -> u8
        ensures { result ≡ rank self }
    {
        match self {
            HeaderLine::Initial => 0,
            HeaderLine::Compound => 1,
            HeaderLine::Join => 2,
            HeaderLine::Action => 3,
        }
    }
}

/// Whether a byte is from 0x20 to 0x7E.
fn is_printed_byte(byte: u8) -> bool
    ensures { result ≡ is_printed byte }
{
    32 <= byte && byte <= 126
}

/// Whether all bytes are.
fn are_printed(line: &[u8]) -> bool
    ensures { result ≡ list_all is_printed line.now }
{
    line.iter().all(|byte| is_printed_byte(*byte))
}

/// The sort of the last two whose word the line begins with.
fn later_sort_of(line: &[u8]) -> Option<HeaderLine>
    ensures { MatchOption result
        (((rest : List ℕ) → line.now ≡ codes "join " ++ rest → ⊥) × ((rest : List ℕ) → line.now ≡ codes "action " ++ rest → ⊥))
        (λ sort. (rest : List ℕ) × (line.now ≡ word sort ++ rest)) }
{
    if line.starts_with(b"join ") {
        return Some(HeaderLine::Join);
    }
    if line.starts_with(b"action ") {
        return Some(HeaderLine::Action);
    }
    None
}

/// The sort whose word the line begins with.
fn sort_of(line: &[u8]) -> Option<HeaderLine>
    ensures { MatchOption result
        ((sort : AnyLine) (rest : List ℕ) → line.now ≡ word sort ++ rest → ⊥)
        (λ sort. (rest : List ℕ) × (line.now ≡ word sort ++ rest)) }
{
    if line.starts_with(b"initial ") {
        return Some(HeaderLine::Initial);
    }
    if line.starts_with(b"compound ") {
        return Some(HeaderLine::Compound);
    }
    later_sort_of(line)
}

/// The sort of a line, where it is one of a header.
pub fn read_header_line(line: &[u8]) -> Option<HeaderLine>
    ensures { MatchOption result ((sort : AnyLine) → IsHeaderLine sort line.now → ⊥) (λ sort. IsHeaderLine sort line.now) }
{
    let sort = sort_of(line)?;
    if are_printed(line) { Some(sort) } else { None }
}
