//! Pairs of ends that bind an input twice, or the output of a stream.
ghost use Rattle.std.specs.Prelude.{◌≡◌, ◌↔◌, ◌+◌, ◌≤◌, ◌<◌, IfOk, OnOk, IsTrue, Some, length, slice_get};
ghost use Rattle.std.specs.HashMap.{get};
ghost use Rattle.pst_name_rules.specs.Leasts.{IsLeastOf};
ghost use Rattle.pst_handle_rules.specs.EndKeys.{same_key};
ghost use Rattle.pst_handle_rules.specs.declared.end_key.Side.TheVariants as the_side;
ghost use Rattle.pst_handle_rules.specs.Twice.{AreFirsts, HasSame, IsTiedTwice, IsTwiceAt, IsTwiceBefore, or_number};

use crate::end_key::{EndKey, Side, end_of, is_same_end, key_of};
use crate::same::is_same_owner;
use pst_ast::Finding;
use pst_base::NoMemory;
use pst_handle_uses::Tied;
use pst_name_rules::earlier;
use std::alloc::Global;
use std::collections::HashMap;

// Keeps a number at its key, where nothing is there yet.
fn keep_key(
    numbers: &mut HashMap<EndKey, usize>,
    key: EndKey,
    number: usize,
) -> Result<(), NoMemory>
    ensures { OnOk result ((q : EndKey) → get same_key numbers.new q ≡ or_number (get same_key numbers.old q) (same_key q key) number) }
{
    if !numbers.contains_key(&key) {
        numbers.insert(key, number)?;
    }
    Ok(())
}

// The number that is kept at a key.
fn first_number(numbers: &HashMap<EndKey, usize>, key: &EndKey) -> Option<usize>
    ensures { result ≡ get same_key numbers.now key.now }
{
    numbers.get(key).copied()
}

// Keeps the number of a pair at the key of an end.
fn keep(
    side: Side,
    numbers: &mut HashMap<EndKey, usize>,
    ties: &[Tied],
    at: usize,
) -> Result<(), NoMemory>
    requires within { at < length ties.now }
    requires firsts { AreFirsts side ties.now at numbers.old }
    ensures { OnOk result (AreFirsts side ties.now (at + 1) numbers.new) }
{
    keep_key(numbers, key_of(side, &ties[at]), at)
}

// Whether one of the first pairs has an end too, in the same activity.
fn has_same(side: Side, ties: &[Tied], count: usize, tie: &Tied) -> bool
    requires { count ≤ length ties.now }
    ensures { IsTrue result ↔ HasSame side ties.now count tie.now }
{
    for at in 0..count {
        let earlier = &ties[at];
        if is_same_owner(earlier.owner, tie.owner)
            && is_same_end(end_of(side, earlier), end_of(side, tie))
        {
            return true;
        }
    }
    false
}

// The same by the numbers of the first pairs. Where the first pair of the key is of another owner,
// whose name stands at the same place, it looks at each.
fn has_earlier(
    side: Side,
    numbers: &HashMap<EndKey, usize>,
    ties: &[Tied],
    count: usize,
    tie: &Tied,
) -> bool
    requires within { count ≤ length ties.now }
    requires firsts { AreFirsts side ties.now count numbers.now }
    ensures { IsTrue result ↔ HasSame side ties.now count tie.now }
{
    let key = key_of(side, tie);
    match first_number(numbers, &key) {
        None => false,
        Some(number) => match ties.get(number) {
            Some(first) if is_same_owner(first.owner, tie.owner) => true,
            _ => has_same(side, ties, count, tie),
        },
    }
}

// Whether a pair binds an input again, or the output of a stream.
fn is_tied_twice(
    inputs: &HashMap<EndKey, usize>,
    outputs: &HashMap<EndKey, usize>,
    ties: &[Tied],
    at: usize,
    tie: &Tied,
) -> bool
    requires within { at ≤ length ties.now }
    requires inputs { AreFirsts the_side.Other ties.now at inputs.now }
    requires outputs { AreFirsts the_side.First ties.now at outputs.now }
    ensures { IsTrue result ↔ IsTiedTwice ties.now at tie.now }
{
    if has_earlier(Side::Other, inputs, ties, at, tie) {
        return true;
    }
    tie.stream && has_earlier(Side::First, outputs, ties, at, tie)
}

// What is found at a pair.
fn finding_at(
    inputs: &HashMap<EndKey, usize>,
    outputs: &HashMap<EndKey, usize>,
    ties: &[Tied],
    at: usize,
) -> Option<Finding>
    requires within { at < length ties.now }
    requires inputs { AreFirsts the_side.Other ties.now at inputs.now }
    requires outputs { AreFirsts the_side.First ties.now at outputs.now }
    ensures { IsLeastOf (IsTwiceAt ties.now at) result }
{
    let tie = &ties[at];
    if is_tied_twice(inputs, outputs, ties, at, tie) {
        Some(Finding {
            place: tie.other.handle.place,
            rule: 20,
        })
    } else {
        None
    }
}

/// The least of the findings at pairs.
pub fn twice_in(alloc: Global, ties: &[Tied]) -> Result<Option<Finding>, NoMemory>
    ensures { IfOk result (IsLeastOf (IsTwiceBefore ties.now (length ties.now))) }
{
    pst_base::places_are_ordered();
    let mut inputs = HashMap::new(alloc);
    let mut outputs = HashMap::new(alloc);
    let mut least = None;
    for at in 0..ties.len() {
        least = earlier(least, finding_at(&inputs, &outputs, ties, at));
        keep(Side::Other, &mut inputs, ties, at)?;
        keep(Side::First, &mut outputs, ties, at)?;
    }
    Ok(least)
}
