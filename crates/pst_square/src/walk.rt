//! The closure of a square by a walk along its pairs, where no chain leads from a number to itself.
ghost use Rattle.std.specs.Prelude.{◌≡◌, ◌≢◌, ◌↔◌, ◌⊎◌, ◌≤◌, ◌<◌, ◌+◌, ◌*◌, ◌/◌, ◌%◌, ℕ, length, get_or, All, IsTrue, IsBitSet, IfOk, OnOk, IfSome, MatchOption};
ghost use Rattle.pst_scen.specs.Rows.{row_words, IsSquare};
ghost use Rattle.pst_square.specs.Bits.{HasBit, IsClosure, IsClosureOf};
ghost use Rattle.pst_square.specs.Next.{IsLowest, IsNextOf};
ghost use Rattle.pst_square.specs.Walks.{IsTakenOver, AreSameRows, IsCovered, IsFinished, AreFinished, IsWalked, IsOpenPair, IsTurn, MatchTurn, AllBelow, left};
ghost use Rattle.pst_square.specs.declared.walk.Stage.TheVariants.{New, Open, Finished};

use crate::closure::join_row;
use crate::next::{from_bit, lowest};
use pst_base::{Items, NoMemory};
use pst_scen::Rows;
use std::alloc::Global;

/// How far the walk has come with a number.
#[derive(Clone, Copy, Debug, PartialEq, Eq)]
pub(crate) enum Stage {
    New,
    Open,
    Finished,
}

/// What the walk does next at a number.
#[derive(Clone, Copy, Debug, PartialEq, Eq)]
pub(crate) enum Turn {
    /// The row of the number has all its pairs.
    Done,
    /// A number that is new comes first.
    Down { to: usize },
    /// The walk came back to a number that is open.
    Circle,
}

/// The word with that bit set too.
pub(crate) fn with_bit(word: u64, bit: usize) -> u64
    requires { bit < 64 }
    ensures { (k : ℕ) → IsBitSet result k ↔ IsBitSet word k ⊎ (k ≡ bit) }
{
    word | 1 << bit
}

/// Adds the pair.
fn add_bit(words: &mut [u64], row: usize, a: usize, c: usize)
    requires within { a * row + row ≤ length words.old }
    requires word_in { c / 64 < row }
    ensures many { length words.new ≡ length words.old }
    ensures bits { (x b : ℕ) → b / 64 < row → HasBit row words.new x b ↔ HasBit row words.old x b ⊎ ((x ≡ a) × (b ≡ c)) }
{
    let at = a * row + c / 64;
    words[at] = with_bit(words[at], c % 64);
}

/// Gives the row of `a` the bits of c's row, and `c` itself.
fn take_over(words: &mut [u64], row: usize, a: usize, c: usize)
    requires a_in { a * row + row ≤ length words.old }
    requires c_in { c * row + row ≤ length words.old }
    requires word_in { c / 64 < row }
    ensures { IsTakenOver row words.old words.new a c }
{
    join_row(words, row, a, c);
    add_bit(words, row, a, c);
}

/// The bits of the first word that the second one lacks.
pub(crate) fn without(word: u64, other: u64) -> u64
    ensures { (k : ℕ) → k < 64 → IsBitSet result k ↔ IsBitSet word k × (IsBitSet other k → ⊥) }
{
    word & !other
}

/// The numbers, from that one to the end of its word, that `a` has in the base and not in its row.
fn open_word(base: &[u64], words: &[u64], row: usize, a: usize, b: usize) -> u64
    requires within { a * row + b / 64 < length base.now }
    requires many { length words.now ≡ length base.now }
    ensures { (k : ℕ) → IsBitSet result k ↔ (b % 64 + k < 64) × IsOpenPair row base.now words.now a (b + k) }
{
    let at = a * row + b / 64;
    from_bit(without(base[at], words[at]), b % 64)
}

/// The number, if it is below the size.
fn below(b: usize, size: u32) -> Option<usize>
    ensures { MatchOption result (size ≤ b) (λ n. (n ≡ b) × (b < size)) }
{
    if b < size as usize { Some(b) } else { None }
}

/// The least number, from the given one on, that `a` has in the base and not in its row.
fn next_open(
    base: &[u64],
    words: &[u64],
    count: u32,
    row: usize,
    a: usize,
    from: usize,
) -> Option<usize>
    requires square { length base.now ≡ count * row }
    requires many { length words.now ≡ length base.now }
    requires row { row ≡ row_words count }
    requires a_in { a < count }
    ensures { MatchOption result ((b : ℕ) → from ≤ b → b < count → IsOpenPair row base.now words.now a b → ⊥) (IsNextOf (λ b. from ≤ b) (IsOpenPair row base.now words.now a) count) }
{
    let mut at = from;
    'words: while at < count as usize {
        if let Some(k) = lowest(open_word(base, words, row, a, at)) {
            return below(at + k as usize, count);
        }
        at += 64 - at % 64;
    }
    None
}

/// Whether the walk is done with the number.
fn is_finished(stages: &[Stage], a: usize) -> bool
    requires { a < length stages.now }
    ensures { IsTrue result ↔ IsFinished stages.now a }
{
    stages[a] == Stage::Finished
}

/// What the walk does next where a number leads to this one.
fn turn_to(stages: &[Stage], to: usize) -> Turn
    requires { to < length stages.now }
    ensures { MatchTurn stages.now to result }
{
    match stages[to] {
        Stage::New => Turn::Down { to },
        _ => Turn::Circle,
    }
}

/// Takes over the rows of finished numbers to which `a` leads, up to one that isn't finished.
fn settle(
    base: &[u64],
    words: &mut [u64],
    stages: &[Stage],
    count: u32,
    row: usize,
    a: usize,
) -> Turn
    requires square { length base.now ≡ count * row }
    requires row { row ≡ row_words count }
    requires a_in { a < count }
    requires walked { IsWalked count row base.now words.old stages.now }
    ensures walked { IsWalked count row base.now words.new stages.now }
    ensures turn { IsTurn count row base.now words.new stages.now a result }
{
    let mut from = 0;
    'rest: while let Some(c) = next_open(base, words, count, row, a, from) {
        if !is_finished(stages, c) {
            return turn_to(stages, c);
        }
        take_over(words, row, a, c);
        from = c + 1;
    }
    Turn::Done
}

/// Whether the rows of both numbers have the same pairs.
fn are_same_rows(base: &[u64], row: usize, a: usize, c: usize) -> bool
    requires a_in { a * row + row ≤ length base.now }
    requires c_in { c * row + row ≤ length base.now }
    ensures { IsTrue result → AreSameRows row base.now a c }
{
    for w in 0..row {
        if base[a * row + w] != base[c * row + w] {
            return false;
        }
    }
    true
}

/// Gives the row of `a` that of the next number, where the walk is done with that one and both have
/// the same pairs in the base. False where that isn't so.
fn follow_next(
    base: &[u64],
    words: &mut [u64],
    stages: &[Stage],
    count: u32,
    row: usize,
    a: usize,
) -> bool
    requires square { length base.now ≡ count * row }
    requires row { row ≡ row_words count }
    requires a_in { a < count }
    requires walked { IsWalked count row base.now words.old stages.now }
    ensures walked { IsWalked count row base.now words.new stages.now }
    ensures covered { IsTrue result → IsCovered count row base.now words.new a }
{
    if a + 1 >= count as usize {
        return false;
    }
    if !is_finished(stages, a + 1) {
        return false;
    }
    if !are_same_rows(base, row, a, a + 1) {
        return false;
    }
    join_row(words, row, a, a + 1);
    true
}

/// Goes on with the row of the number as far as that goes without another number.
fn turn_at(
    base: &[u64],
    words: &mut [u64],
    stages: &[Stage],
    count: u32,
    row: usize,
    a: usize,
) -> Turn
    requires square { length base.now ≡ count * row }
    requires row { row ≡ row_words count }
    requires a_in { a < count }
    requires walked { IsWalked count row base.now words.old stages.now }
    ensures walked { IsWalked count row base.now words.new stages.now }
    ensures turn { IsTurn count row base.now words.new stages.now a result }
{
    if follow_next(base, words, stages, count, row, a) {
        return Turn::Done;
    }
    settle(base, words, stages, count, row, a)
}

/// Goes on with the number, which the path ended with. False where the walk goes round in a circle.
fn step(
    base: &[u64],
    words: &mut [u64],
    stages: &mut [Stage],
    path: &mut Vec<u32>,
    count: u32,
    row: usize,
    a: u32,
) -> Result<bool, NoMemory>
    requires square { length base.now ≡ count * row }
    requires row { row ≡ row_words count }
    requires a_in { a < count }
    requires path_in { AllBelow count path.old.items }
    requires walked { IsWalked count row base.now words.old stages.old }
    ensures walked { IsWalked count row base.now words.new stages.new }
    ensures path_in { AllBelow count path.new.items }
    ensures left { OnOk result (left stages.new path.new.items ≤ left stages.old path.old.items) }
{
    stages[a as usize] = Stage::Open;
    match turn_at(base, words, stages, count, row, a as usize) {
        Turn::Done => {
            stages[a as usize] = Stage::Finished;
            Ok(true)
        }
        Turn::Down { to } => {
            stages[to] = Stage::Open;
            path.push(a)?;
            path.push(to as u32)?;
            Ok(true)
        }
        Turn::Circle => Ok(false),
    }
}

/// Whether the walk is done with every number.
fn are_finished(stages: &[Stage]) -> bool
    ensures { IsTrue result ↔ AreFinished stages.now }
{
    for a in 0..stages.len() {
        if !is_finished(stages, a) {
            return false;
        }
    }
    true
}

/// Walks from each number of the path. False where no row is promised to be whole.
fn walk(
    base: &[u64],
    words: &mut [u64],
    stages: &mut [Stage],
    path: &mut Vec<u32>,
    count: u32,
    row: usize,
) -> Result<bool, NoMemory>
    requires square { length base.now ≡ count * row }
    requires row { row ≡ row_words count }
    requires path_in { AllBelow count path.old.items }
    requires walked { IsWalked count row base.now words.old stages.old }
    ensures many { length words.new ≡ length words.old }
    ensures closed { IfOk result (λ whole. IsTrue whole → IsClosure count row base.now words.new) }
{
    'steps: while let Some(a) = path.pop() {
        if !step(base, words, stages, path, count, row, a)? {
            return Ok(false);
        }
    }
    Ok(are_finished(stages))
}

/// The numbers below the size, ascending.
fn numbers(alloc: Global, size: u32) -> Result<Vec<u32>, NoMemory>
    ensures { IfOk result (λ path. AllBelow size path.items) }
{
    let mut path = Vec::with_capacity(alloc, size as usize)?;
    for a in 0..size {
        path.push(a)?;
    }
    Ok(path)
}

/// The square of the pairs that a chain of the given ones joins, in time that grows with the square
/// of its size. None where a chain leads from a number to itself.
pub(crate) fn walked_rows(alloc: Global, direct: &Rows) -> Result<Option<Rows>, NoMemory>
    requires { IsSquare direct.now }
    ensures { IfOk result (λ walked. IfSome walked (IsClosureOf direct.now)) }
{
    let base = direct.words.as_slice();
    let mut words = Vec::from_elem(alloc, 0, base.len())?;
    let mut stages = Vec::from_elem(alloc, Stage::New, direct.size as usize)?;
    let mut path = numbers(alloc, direct.size)?;
    let row = (direct.size as usize + 63) / 64;
    if !walk(base, &mut words, &mut stages, &mut path, direct.size, row)? {
        return Ok(None);
    }
    Ok(Some(Rows {
        size: direct.size,
        words: Items::from_vec(words),
    }))
}
