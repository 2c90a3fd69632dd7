//! Where declarations stand in a list.
ghost use Rattle.std.specs.Prelude.{◌≡◌, ◌+◌, ◌<◌, ◌↔◌, length, IfOk, IsTrue};
ghost use Rattle.pst_loops.specs.Numbers.{AreInOrderTo, AreNumbers, IsAtPlace, IsNumber, IsNumberOf};

use pst_ast::Declaration;
use pst_base::{NoMemory, Place};
use std::alloc::Global;

// Where the declaration at a place stands, in a list that is in order and has one there.
fn near(declarations: &[Declaration], place: Place) -> usize {
    let mut low = 0;
    let mut high = declarations.len();
    for _turn in 0..64 {
        if low >= high || high > declarations.len() {
            return low;
        }
        let middle = low + (high - low) / 2;
        if declarations[middle].name.place.is_before(place) {
            low = middle + 1;
        } else {
            high = middle;
        }
    }
    low
}

// The first of all at a place.
fn first_at(declarations: &[Declaration], place: Place) -> Option<usize>
    ensures { IsAtPlace declarations.now place result }
{
    for at in 0..declarations.len() {
        if declarations[at].name.place == place {
            return Some(at);
        }
    }
    None
}

/// Where a declaration at a place stands. In a list that is in order it is found in few steps.
pub fn number_at(declarations: &[Declaration], place: Place) -> Option<usize>
    ensures { IsAtPlace declarations.now place result }
{
    let at = near(declarations, place);
    if at < declarations.len() && declarations[at].name.place == place {
        return Some(at);
    }
    first_at(declarations, place)
}

/// Whether each declaration stands before the next, as in the lists of sources.
pub fn are_in_order(declarations: &[Declaration]) -> bool
    ensures { IsTrue result → AreInOrderTo (length declarations.now) declarations.now }
{
    pst_base::places_are_ordered();
    for at in 1..declarations.len() {
        let before = declarations[at - 1].name.place;
        if !before.is_before(declarations[at].name.place) {
            return false;
        }
    }
    true
}

// Whether two declarations are the same.
fn are_same(one: &Declaration, other: &Declaration) -> bool
    ensures { IsTrue result ↔ (one.now ≡ other.now) }
{
    *one == *other
}

// The first that is the same.
fn first_same(declarations: &[Declaration], declaration: &Declaration) -> Option<usize>
    ensures { IsNumberOf declarations.now declaration.now result }
{
    for at in 0..declarations.len() {
        if are_same(&declarations[at], declaration) {
            return Some(at);
        }
    }
    None
}

// Where a declaration stands for the first time. In a list that is in order it is found in few
// steps.
fn number_of(
    declarations: &[Declaration],
    in_order: bool,
    declaration: &Declaration,
) -> Option<usize>
    requires { IsTrue in_order → AreInOrderTo (length declarations.now) declarations.now }
    ensures { IsNumberOf declarations.now declaration.now result }
{
    if in_order {
        pst_base::places_are_ordered();
        let at = near(declarations, declaration.name.place);
        if at < declarations.len() && are_same(&declarations[at], declaration) {
            return Some(at);
        }
    }
    first_same(declarations, declaration)
}

/// The number of a declaration of the list: where it stands for the first time. (What a look-up
/// gives is of the list.)
pub fn vertex_of(
    declarations: &[Declaration],
    in_order: bool,
    declaration: &Declaration,
) -> Result<u32, NoMemory>
    requires { IsTrue in_order → AreInOrderTo (length declarations.now) declarations.now }
    ensures { IfOk result (λ number. IsNumber declarations.now declaration.now number) }
{
    match number_of(declarations, in_order, declaration) {
        None => Err(NoMemory),
        Some(at) => match u32::try_from(at) {
            Err(_) => Err(NoMemory),
            Ok(number) => Ok(number),
        },
    }
}

/// The numbers of all declarations.
pub fn numbers_of(
    alloc: Global,
    declarations: &[Declaration],
    in_order: bool,
) -> Result<Vec<u32>, NoMemory>
    requires { IsTrue in_order → AreInOrderTo (length declarations.now) declarations.now }
    ensures { IfOk result (λ numbers. AreNumbers declarations.now numbers.items) }
{
    let mut numbers = Vec::new(alloc);
    for at in 0..declarations.len() {
        numbers.push(vertex_of(declarations, in_order, &declarations[at])?)?;
    }
    Ok(numbers)
}
