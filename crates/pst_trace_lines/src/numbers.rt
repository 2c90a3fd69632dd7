//! Numbers in lines.
ghost use Rattle.std.specs.Prelude.{◌≡◌, ◌≢◌, ◌^◌, ◌<◌, ◌++◌, ◌∷◌, ℕ, List, decimal, Contains, MatchOption};
ghost use Rattle.pst_trace_lines.specs.Forms.{IsNumber, AreTwo, AreThree};

use pst_words::number_in;

/// The number below 2^32 whose decimal spelling the text is.
pub(crate) fn number(text: &[u8]) -> Option<u32>
    ensures { MatchOption result ((n : ℕ) → IsNumber text.now n → ⊥) (IsNumber text.now) }
{
    let found = number_in(text)?;
    if found < 1 << 32 {
        Some(found as u32)
    } else {
        None
    }
}

/// What stands before the first byte of that kind, and behind it.
pub fn cut(text: &[u8], mark: u8) -> Option<(&[u8], &[u8])>
    ensures { MatchOption result ((a b : List ℕ) → text.now ≡ a ++ mark ∷ b → ⊥) (λ p. (text.now ≡ p.0.now ++ mark ∷ p.1.now) × (Contains p.0.now mark → ⊥)) }
{
    for i in 0..text.len() {
        if text[i] == mark {
            return Some((&text[..i], &text[i + 1..]));
        }
    }
    None
}

/// Two numbers with a blank between them.
pub(crate) fn two(text: &[u8]) -> Option<(u32, u32)>
    ensures { MatchOption result ((n k : ℕ) → AreTwo text.now n k → ⊥) (λ p. AreTwo text.now p.0 p.1) }
{
    let Some((first, second)) = cut(text, b' ') else {
        return None;
    };
    let Some(n) = number(first) else {
        return None;
    };
    let Some(k) = number(second) else {
        return None;
    };
    Some((n, k))
}

/// Three numbers with blanks between them.
pub(crate) fn three(text: &[u8]) -> Option<(u32, u32, u32)>
    ensures { MatchOption result ((n k l : ℕ) → AreThree text.now n k l → ⊥) (λ p. AreThree text.now p.0 p.1 p.2) }
{
    let Some((first, rest)) = cut(text, b' ') else {
        return None;
    };
    let Some(n) = number(first) else {
        return None;
    };
    let Some((k, l)) = two(rest) else {
        return None;
    };
    Some((n, k, l))
}
