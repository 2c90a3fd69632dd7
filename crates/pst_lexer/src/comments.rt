//! Comments at the front of a text.
ghost use Rattle.std.specs.Prelude.{◌≡◌, ◌+◌, ◌≤◌, ℕ, not, [], length, take, drop, Some, None, codes, nat_eq, MatchOption, IsTrue};
ghost use Rattle.std.specs.List.{list_all, starts_with};
ghost use Rattle.pst_token.specs.Parts.{GoesOnWith, is_line_feed};
ghost use Rattle.pst_token.specs.Next.{closed_len};
ghost use Rattle.pst_lexer.specs.Finding.{Tells};

use crate::find::Found;

// A comment that begins with `//`: up to a line feed or the end.
pub(crate) fn line_comment(text: &[u8], seen: usize, is_last: bool) -> Found
    requires begins { IsTrue (starts_with nat_eq text.now (codes "//")) }
    requires within { seen ≤ length text.now }
    requires seen { IsTrue (list_all (λ b. not (is_line_feed b)) (take seen text.now)) }
    ensures { Tells text.now is_last result }
{
    let len = line_end(text, seen);
    if len == text.len() && !is_last {
        Found::Open { seen: len }
    } else {
        Found::Gap { len }
    }
}

// A comment that begins with `/*`: up to the first `*/` behind it.
pub(crate) fn block_comment(text: &[u8], seen: usize, is_last: bool) -> Found
    requires begins { IsTrue (starts_with nat_eq text.now (codes "/*")) }
    requires within { seen ≤ length text.now }
    requires seen { closed_len (drop 2 (take seen text.now)) ≡ None }
    ensures { Tells text.now is_last result }
{
    match block_end(text, seen) {
        Some(len) => Found::Gap { len },
        None if is_last => Found::Nothing,
        None => Found::Open { seen: text.len() },
    }
}

// The first line feed from `from` on, or the end.
fn line_end(text: &[u8], from: usize) -> usize
    requires within { from ≤ length text.now }
    requires before { IsTrue (list_all (λ b. not (is_line_feed b)) (take from text.now)) }
    ensures within { result ≤ length text.now }
    ensures all { IsTrue (list_all (λ b. not (is_line_feed b)) (take result text.now)) }
    ensures ends { GoesOnWith is_line_feed (drop result text.now) }
{
    for at in from..text.len() {
        if text[at] == b'\n' {
            return at;
        }
    }
    text.len()
}

// The end of the first `*/`, where the bytes up to `seen` have none.
fn block_end(text: &[u8], seen: usize) -> Option<usize>
    requires within { seen ≤ length text.now }
    requires seen { closed_len (drop 2 (take seen text.now)) ≡ None }
    ensures { MatchOption result (closed_len (drop 2 text.now) ≡ None) (λ len. (n : ℕ) × (len ≡ 2 + n) × (len ≤ length text.now) × (closed_len (drop 2 text.now) ≡ Some n)) }
{
    let from = seen.max(3);
    for at in from..text.len() {
        if text[at] == b'/' && text[at - 1] == b'*' {
            return Some(at + 1);
        }
    }
    None
}
