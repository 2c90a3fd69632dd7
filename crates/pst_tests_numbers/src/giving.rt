//! Spans that are given to variables one after another, and why one can't be.
ghost use Rattle.std.specs.Prelude.{◌<◌, ◌≤ℤ◌, length, map, IfOk, IfSome};
ghost use Rattle.pst_expr.specs.Tree.{view};
ghost use Rattle.pst_domain.specs.Bounds.{AreUpright};
ghost use Rattle.pst_narrow.specs.Narrowing.{HaveVariablesBelow};
ghost use Rattle.pst_reasons.specs.Giving.{IsKept};

use crate::systems::{number, read_bounds, read_constraints, read_domains, read_span};
use pst_base::NoMemory;
use pst_domain::Bounds;
use pst_expr::{Domain, Expr, Span};
use pst_fitting::first_fitting;
use pst_reasons::Narrowed;
use pst_value_search::Valued;
use std::alloc::Global;

// Adds a word to a text.
fn show(text: &mut String, word: &str) -> Result<(), NoMemory> {
    if !text.is_empty() {
        text.push(';')?;
    }
    text.push_str(word)?;
    Ok(())
}

// Places in ascending order.
fn places_shown(alloc: Global, places: &[u32]) -> Result<String, NoMemory> {
    let mut sorted = Vec::from_slice(alloc, places)?;
    sorted.sort_unstable();
    let mut text = String::from_str(alloc, "{")?;
    for (at, place) in sorted.iter().enumerate() {
        if at > 0 {
            text.push(' ')?;
        }
        let word = format!(in alloc; "{place}")?;
        text.push_str(word.as_str())?;
    }
    text.push('}')?;
    Ok(text)
}

// Bounds narrowed by constraints, and nothing given yet.
fn begun(
    alloc: Global,
    constraints: Vec<Expr>,
    bounds: Bounds,
) -> Result<Option<Narrowed>, NoMemory>
    requires upright { AreUpright bounds }
    requires variables { HaveVariablesBelow (length bounds) (map view constraints.items) }
    ensures { IfOk result (λ begun. IfSome begun IsKept) }
{
    Narrowed::new(alloc, constraints, bounds)
}

// Gives a variable a span.
fn give(
    alloc: Global,
    narrowed: &mut Narrowed,
    variable: u32,
    span: Span,
) -> Result<Option<Vec<u32>>, NoMemory>
    requires kept { IsKept narrowed.old }
    requires variable { variable < length narrowed.old.bounds }
    requires span { span.low ≤ℤ span.high }
    ensures { IsKept narrowed.new }
{
    narrowed.give(alloc, variable, span)
}

// Takes the last span back, if there is one.
fn take_back(narrowed: &mut Narrowed) -> bool
    requires { IsKept narrowed.old }
    ensures { IsKept narrowed.new }
{
    if narrowed.given.is_empty() {
        return false;
    }
    narrowed.take_back();
    true
}

// One step: `back` takes the last span back, `V=LOW..HIGH` gives a variable a span.
fn step(alloc: Global, narrowed: &mut Narrowed, word: &str) -> Result<String, NoMemory>
    requires { IsKept narrowed.old }
    ensures { IsKept narrowed.new }
{
    if word == "back" {
        let answer = if take_back(narrowed) { "back" } else { "none" };
        return Ok(String::from_str(alloc, answer)?);
    }
    let (name, text) = word.split_once('=').unwrap_or((word, ""));
    let variable = name.parse::<u32>().unwrap_or(0);
    let Some(span) = read_span(text) else {
        return Ok(String::from_str(alloc, "unread")?);
    };
    if variable as usize >= narrowed.bounds.spans().len() {
        return Ok(String::from_str(alloc, "unread")?);
    }
    match give(alloc, narrowed, variable, span)? {
        None => Ok(String::from_str(alloc, "fits")?),
        Some(places) => places_shown(alloc, &places),
    }
}

// All steps in turn.
fn steps(alloc: Global, narrowed: &mut Narrowed, text: &str) -> Result<String, NoMemory>
    requires { IsKept narrowed.old }
    ensures { IsKept narrowed.new }
{
    let mut shown = String::new(alloc);
    for word in text.split_whitespace() {
        let answer = step(alloc, narrowed, word)?;
        show(&mut shown, answer.as_str())?;
    }
    Ok(shown)
}

/// What comes of spans that are given: `fits`, or the places, among the spans given before and its own, on which it
/// rests that it doesn't fit; `back` where the last one was taken back. `false` where the system holds nothing at once.
pub fn given(alloc: Global, text: &str) -> Result<String, NoMemory> {
    let (described, rest) = text.split_once(" | ").unwrap_or((text, ""));
    let (constraints, words) = rest.split_once(" | ").unwrap_or((rest, ""));
    let bounds = read_bounds(alloc, described)?;
    let constraints = read_constraints(alloc, constraints, bounds.spans().len())?;
    match begun(alloc, constraints, bounds)? {
        None => Ok(String::from_str(alloc, "false")?),
        Some(mut narrowed) => steps(alloc, &mut narrowed, words),
    }
}

// What the first value of the last variable that fits is, by its place, and on what those before it rest.
fn first(
    alloc: Global,
    narrowed: &mut Narrowed,
    domain: &Domain,
    from: u64,
) -> Result<String, NoMemory>
    requires { IsKept narrowed.old }
{
    let count = narrowed.bounds.spans().len();
    if count == 0 || count > 1_000_000 {
        return Ok(String::from_str(alloc, "unread")?);
    }
    let size = domain.size();
    if size == 0 || from > size {
        return Ok(String::from_str(alloc, "unread")?);
    }
    let found = first_fitting(alloc, narrowed, (count - 1) as u32, domain, 0, from)?;
    let place = found.place;
    let reasons = places_shown(alloc, &found.reasons)?;
    Ok(format!(in alloc; "{place} {reasons}")?)
}

/// The place of the first value of the last variable that fits, in ascending order from a place on, behind spans that
/// are given; and the places of those on which it rests that the values before it don't.
pub fn fitting(alloc: Global, text: &str) -> Result<String, NoMemory> {
    let (described, rest) = text.split_once(" | ").unwrap_or((text, ""));
    let (constraints, rest) = rest.split_once(" | ").unwrap_or((rest, ""));
    let (words, from) = rest.split_once(" | ").unwrap_or((rest, ""));
    let domains = read_domains(alloc, described)?;
    let bounds = read_bounds(alloc, described)?;
    let constraints = read_constraints(alloc, constraints, bounds.spans().len())?;
    let Some(domain) = domains.last() else {
        return Err(NoMemory);
    };
    match begun(alloc, constraints, bounds)? {
        None => Ok(String::from_str(alloc, "false")?),
        Some(mut narrowed) => {
            steps(alloc, &mut narrowed, words)?;
            let from = from.parse::<u64>().unwrap_or(0);
            first(alloc, &mut narrowed, domain, from)
        }
    }
}

// What is told of the values so far.
fn told(alloc: Global, valued: &Valued) -> Result<String, NoMemory> {
    match valued.refusal() {
        None => Ok(String::from_str(alloc, "fits")?),
        Some(places) => places_shown(alloc, places),
    }
}

// What comes of values that are given in turn.
fn in_turn(alloc: Global, valued: &mut Valued, text: &str) -> Result<String, NoMemory> {
    let mut shown = String::new(alloc);
    for word in text.split_whitespace() {
        valued.give(number(word))?;
        let answer = told(alloc, valued)?;
        show(&mut shown, answer.as_str())?;
    }
    Ok(shown)
}

/// What comes of values that variables are given in turn: `fits`, or places on which it rests that they can't be.
pub fn refused(alloc: Global, text: &str) -> Result<String, NoMemory> {
    let (described, rest) = text.split_once(" | ").unwrap_or((text, ""));
    let (constraints, words) = rest.split_once(" | ").unwrap_or((rest, ""));
    let bounds = read_bounds(alloc, described)?;
    let constraints = read_constraints(alloc, constraints, bounds.spans().len())?;
    match Valued::new(alloc, constraints, bounds)? {
        None => Ok(String::from_str(alloc, "false")?),
        Some(mut valued) => in_turn(alloc, &mut valued, words),
    }
}
