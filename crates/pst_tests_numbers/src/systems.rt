//! Systems of constraints as texts.
ghost use Rattle.std.specs.Prelude.{◌≡◌, ◌<◌, ◌≤ℤ◌, length, map, true, IfSome, IfOk};
ghost use Rattle.pst_expr.specs.Tree.{view};
ghost use Rattle.pst_domain.specs.Bounds.{AreUpright};
ghost use Rattle.pst_narrow.specs.Narrowing.{HaveVariablesBelow};

use crate::expressions::{are_below, read_postfix};
use pst_base::NoMemory;
use pst_domain::Bounds;
use pst_expr::{Domain, Expr, Span};
use pst_joined_spans::{domain_of, joined_spans};
use std::alloc::Global;

/// A number, 0 where a word is none.
pub fn number(word: &str) -> i64 {
    word.parse::<i64>().unwrap_or(0)
}

/// The numbers from the first to the second end of `LOW..HIGH`, or one number alone; none where they are reversed.
pub fn read_span(word: &str) -> Option<Span>
    ensures { IfSome result (λ s. s.low ≤ℤ s.high) }
{
    let (low, high) = word.split_once("..").unwrap_or((word, word));
    let low = number(low);
    let high = number(high);
    if low > high {
        return None;
    }
    Some(Span { low, high })
}

// The domain of spans with `,` between them.
fn read_domain(alloc: Global, word: &str) -> Result<Domain, NoMemory> {
    let mut spans = Vec::new(alloc);
    for part in word.split(',') {
        if let Some(span) = read_span(part) {
            spans.push(span)?;
        }
    }
    domain_of(joined_spans(alloc, &spans)?)
}

/// The domains of variables.
pub fn read_domains(alloc: Global, text: &str) -> Result<Vec<Domain>, NoMemory> {
    let mut domains = Vec::new(alloc);
    for word in text.split_whitespace() {
        domains.push(read_domain(alloc, word)?)?;
    }
    Ok(domains)
}

/// The bounds of variables; `-` has none.
pub fn read_bounds(alloc: Global, text: &str) -> Result<Bounds, NoMemory>
    ensures { IfOk result (λ bounds. AreUpright bounds) }
{
    let mut spans = Vec::new(alloc);
    for word in text.split_whitespace() {
        spans.push(read_span(word))?;
    }
    Ok(Bounds::new(spans))
}

// Whether the variables of all constraints are below a number.
fn are_all_below(constraints: &[Expr], count: u32) -> bool
    ensures { result ≡ true → HaveVariablesBelow count (map view constraints.now) }
{
    for constraint in constraints {
        if !are_below(constraint, count) {
            return false;
        }
    }
    true
}

/// Constraints over so many variables; none where one names another variable.
pub fn read_constraints(alloc: Global, text: &str, count: usize) -> Result<Vec<Expr>, NoMemory>
    ensures { IfOk result (λ constraints. HaveVariablesBelow count (map view constraints.items)) }
{
    let mut constraints = Vec::new(alloc);
    for part in text.split(';') {
        constraints.push(read_postfix(alloc, part)?)?;
    }
    if count > u32::MAX as usize {
        return Err(NoMemory);
    }
    if !are_all_below(&constraints, count as u32) {
        return Err(NoMemory);
    }
    Ok(constraints)
}
