//! Spans of expressions.
ghost use Rattle.std.specs.Prelude.{◌≤ℤ◌, IfSome};

use crate::arithmetic::number;
use crate::postfix::read_postfix;
use pst_domain::{Bounds, refused, span_of};
use pst_expr::Span;
use std::alloc::{AllocError, Global};

// The numbers from the first to the second end of `LOW..HIGH`; none where they are reversed, and
// where there is no such word.
fn span(word: Option<&str>) -> Option<Span>
    ensures { IfSome result (λ s. s.low ≤ℤ s.high) }
{
    let (low, high) = word?.split_once("..")?;
    let (low, high) = (number(low), number(high));
    if low > high {
        return None;
    }
    Some(Span { low, high })
}

fn told(alloc: Global, span: Option<Span>) -> Result<String, AllocError> {
    match span {
        Some(Span { low, high }) => format!(in alloc; "{low}..{high}"),
        None => String::from_str(alloc, "none"),
    }
}

/// Answers these calls on a text of the bounds of at most four variables, ` | ` and an expression:
/// `span`, its span or `none`; `refused`, whether it is `refused` or `kept`.
pub fn answer(alloc: Global, call: &str, text: &str) -> Result<String, AllocError> {
    let (words, rest) = text.split_once("| ").unwrap_or(("", text));
    let mut words = words.split_whitespace();
    let x = span(words.next());
    let y = span(words.next());
    let z = span(words.next());
    let last = span(words.next());
    let bounds = Bounds::new(vec![in alloc; x, y, z, last]?);
    let Some(read) = read_postfix(alloc, rest)? else {
        return String::from_str(alloc, "unread");
    };
    if call == "span" {
        return told(alloc, span_of(&read.expr, &bounds));
    }
    if refused(&read.expr, &bounds) {
        String::from_str(alloc, "refused")
    } else {
        String::from_str(alloc, "kept")
    }
}
