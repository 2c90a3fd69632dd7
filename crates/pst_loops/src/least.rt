//! The first of those that are on a loop.
ghost use Rattle.std.specs.Prelude.{◌≡◌, ◌+◌, ◌<◌, ◌↔◌, length, IfOk, IsTrue};
ghost use Rattle.pst_loops.specs.First.{IsEarlier, IsFirstWithin, IsFirstOnLoop, LeadsBack};
ghost use Rattle.pst_loops.specs.Numbers.{AreNumbers, AreRows};
ghost use Rattle.pst_loops.specs.Apart.{AreApart};

use crate::apart::apart;
use crate::edges::rows_of;
use crate::numbers::{are_in_order, numbers_of};
use crate::search::reaches;
use pst_ast::{Declaration, Finding};
use pst_base::{NoMemory, Place};
use pst_index::Index;
use std::alloc::Global;

// Whether a place is before that of what was found, or nothing was found.
fn is_earlier(place: Place, found: Option<Finding>) -> bool
    ensures { IsTrue result ↔ IsEarlier place found }
{
    match found {
        None => true,
        Some(first) => place.is_before(first.place),
    }
}

// Whether the bases of a declaration, or the instances in it, lead back to it: just where a walk
// leads to its number.
fn leads_back(
    alloc: Global,
    declarations: &[Declaration],
    numbers: &[u32],
    rows: &[Vec<u32>],
    marks: &[bool],
    at: usize,
) -> Result<bool, NoMemory>
    requires numbers { AreNumbers declarations.now numbers.now }
    requires rows { AreRows declarations.now rows.now }
    requires apart { AreApart rows.now marks.now }
    requires within { at < length declarations.now }
    ensures { IfOk result (λ yes. IsTrue yes ↔ LeadsBack declarations.now at) }
{
    let number = numbers[at];
    if (number as usize) < marks.len() && marks[number as usize] {
        return Ok(false);
    }
    match u32::try_from(at) {
        Ok(from) => Ok(reaches(alloc, rows, from, number)?),
        Err(_) => Err(NoMemory),
    }
}

// The first of the declarations so far, with one more.
fn with_next(
    alloc: Global,
    declarations: &[Declaration],
    numbers: &[u32],
    rows: &[Vec<u32>],
    marks: &[bool],
    at: usize,
    found: Option<Finding>,
) -> Result<Option<Finding>, NoMemory>
    requires numbers { AreNumbers declarations.now numbers.now }
    requires rows { AreRows declarations.now rows.now }
    requires apart { AreApart rows.now marks.now }
    requires within { at < length declarations.now }
    requires found { IsFirstWithin at declarations.now found }
    ensures { IfOk result (λ first. IsFirstWithin (at + 1) declarations.now first) }
{
    pst_base::places_are_ordered();
    let place = declarations[at].name.place;
    if !is_earlier(place, found) {
        return Ok(found);
    }
    if !leads_back(alloc, declarations, numbers, rows, marks, at)? {
        return Ok(found);
    }
    Ok(Some(Finding { place, rule: 5 }))
}

// The first of those that are on a loop.
fn first_of_all(
    alloc: Global,
    declarations: &[Declaration],
    numbers: &[u32],
    rows: &[Vec<u32>],
    marks: &[bool],
) -> Result<Option<Finding>, NoMemory>
    requires numbers { AreNumbers declarations.now numbers.now }
    requires rows { AreRows declarations.now rows.now }
    requires apart { AreApart rows.now marks.now }
    ensures { IfOk result (λ found. IsFirstOnLoop declarations.now found) }
{
    let mut found = None;
    for at in 0..declarations.len() {
        found = with_next(alloc, declarations, numbers, rows, marks, at, found)?;
    }
    Ok(found)
}

/// The first declaration that is on a loop of bases or of instances, as a breach of rule 5.
pub fn first_on_loop(alloc: Global, index: &Index) -> Result<Option<Finding>, NoMemory>
    ensures { IfOk result (λ found. IsFirstOnLoop index.now found) }
{
    let declarations = index.as_slice();
    let in_order = are_in_order(declarations);
    let numbers = numbers_of(alloc, declarations, in_order)?;
    let rows = rows_of(alloc, index, in_order)?;
    let marks = apart(alloc, &rows)?;
    first_of_all(alloc, declarations, &numbers, &rows, &marks)
}
