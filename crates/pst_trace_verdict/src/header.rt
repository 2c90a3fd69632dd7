//! The lines of a header, compared with those of a scenario.
ghost use Rattle.std.specs.Prelude.{◌≡◌, ◌++◌, ℕ, List, map, string_bytes, MatchOption};
ghost use Rattle.std.specs.List.{flat_map};
ghost use Rattle.pst_trace_texts.specs.Lines.{line as as_line};
ghost use Rattle.pst_trace_verdict.specs.Verdicts.{LeavesAt};

/// What stands in a text behind another, where the text begins with it.
fn behind<'a>(text: &'a [u8], front: &[u8]) -> Option<&'a [u8]>
    ensures { MatchOption result ((behind : List ℕ) → text.now ≡ front.now ++ behind → ⊥) (λ behind. text.now ≡ front.now ++ behind.now) }
{
    text.strip_prefix(front)
}

/// What stands in a text behind a line, where the text begins with it.
fn behind_line<'a>(text: &'a [u8], line: &[u8]) -> Option<&'a [u8]>
    ensures { MatchOption result ((behind : List ℕ) → text.now ≡ as_line line.now ++ behind → ⊥) (λ behind. text.now ≡ as_line line.now ++ behind.now) }
{
    match behind(text, line) {
        None => None,
        Some(rest) => match behind(rest, b"\n".as_slice()) {
            None => None,
            Some(more) => Some(more),
        },
    }
}

/// How many lines a text begins with, where it isn't just these lines.
pub(crate) fn leaves_at(text: &[u8], lines: &[String]) -> Option<usize>
    ensures { MatchOption result (text.now ≡ flat_map as_line (map string_bytes lines.now)) (LeavesAt text.now (map string_bytes lines.now)) }
{
    let mut rest = text;
    for (number, line) in lines.iter().enumerate() {
        match behind_line(rest, line.as_bytes()) {
            Some(behind) => rest = behind,
            None => return Some(number),
        }
    }
    if rest.is_empty() {
        return None;
    }
    Some(lines.len())
}
