//! A guess at the least number that a chain leads back to, with ranks that bear it out. Nothing is
//! promised of a guess: who makes it checks it.
ghost use Rattle.pst_scen.specs.Rows.{IsSquare};

use crate::next::{lowest, rest_of_word};
use pst_base::NoMemory;
use pst_scen::Rows;
use std::alloc::Global;

/// A number that is thought to be the least on a circle, and ranks of the numbers: pairs never lead
/// to a higher one, and from a number on no circle to a lower one.
#[derive(Drop)]
pub(crate) struct Guess {
    pub(crate) least: Option<u32>,
    pub(crate) ranks: Vec<u32>,
}

/// A search along the pairs of a square, deep before wide. Numbers that circles join get one rank,
/// once all that they lead to have theirs.
#[derive(Drop)]
struct Search {
    /// How many numbers are found.
    found: u32,
    /// For each number how many were found up to it; 0 where it isn't found.
    places: Vec<u32>,
    /// For each number the least place of one that it is known to lead to.
    lows: Vec<u32>,
    /// A bit for each number that isn't found.
    hidden: Vec<u64>,
    /// A bit for each number that is found and has no rank.
    open: Vec<u64>,
    /// The numbers from which the search goes on, each found from the one before.
    path: Vec<u32>,
    /// The numbers that are found and have no rank, in the order of their places.
    waiting: Vec<u32>,
    /// The last rank.
    ranked: u32,
    guess: Guess,
}

/// The entry of that number; 0 where there is none.
fn at(list: &[u32], a: u32) -> u32 {
    if (a as usize) < list.len() {
        list[a as usize]
    } else {
        0
    }
}

/// Changes the entry of that number, where there is one.
fn put(list: &mut [u32], a: u32, to: u32) {
    if (a as usize) < list.len() {
        list[a as usize] = to;
    }
}

/// Turns the bit of that number, where there is one.
fn turn(bits: &mut [u64], a: u32) {
    let w = a as usize / 64;
    if w < bits.len() {
        let word = bits[w];
        bits[w] = word ^ 1 << (a % 64);
    }
}

/// The word of the row of `a` with the bits from 64 times w on; 0 where there is none.
fn word_of(rows: &Rows, a: u32, w: u32) -> u64
    requires { IsSquare rows.now }
{
    let first = w as usize * 64;
    if a >= rows.size || first >= rows.size as usize {
        return 0;
    }
    rest_of_word(rows, a, first)
}

/// The number of the word's lowest bit.
fn lowest_number(word: u64, w: u32) -> Option<u32> {
    let Some(k) = lowest(word) else {
        return None;
    };
    Some(w.saturating_mul(64).saturating_add(k))
}

/// The least number whose bit is set.
fn first_of(bits: &[u64]) -> Option<u32> {
    let mut w = 0;
    for word in bits {
        if let Some(a) = lowest_number(*word, w) {
            return Some(a);
        }
        w = w.saturating_add(1);
    }
    None
}

/// The least number of the row of `a` whose bit is set.
fn first_in(rows: &Rows, a: u32, bits: &[u64]) -> Option<u32>
    requires { IsSquare rows.now }
{
    let mut w = 0;
    for word in bits {
        if let Some(b) = lowest_number(*word & word_of(rows, a, w), w) {
            return Some(b);
        }
        w = w.saturating_add(1);
    }
    None
}

/// The least of the given entry and those of the word's numbers. It stops at `bottom`, below which
/// there is none.
fn least_of(word: u64, w: u32, lows: &[u32], low: u32, bottom: u32) -> u32 {
    let mut rest = word;
    let mut least = low;
    for _ in 0..64 {
        if least == bottom {
            return least;
        }
        let Some(b) = lowest_number(rest, w) else {
            return least;
        };
        least = least.min(at(lows, b));
        rest &= rest.wrapping_sub(1);
    }
    least
}

impl Search {
    fn new(alloc: Global, size: u32) -> Result<Search, NoMemory> {
        let mut hidden = Vec::from_elem(alloc, 0, (size as usize + 63) / 64)?;
        for a in 0..size {
            turn(&mut hidden, a);
        }
        let ranks = Vec::from_elem(alloc, 0, size as usize)?;
        Ok(Search {
            found: 0,
            places: Vec::from_elem(alloc, 0, size as usize)?,
            lows: Vec::from_elem(alloc, 0, size as usize)?,
            hidden,
            open: Vec::from_elem(alloc, 0, (size as usize + 63) / 64)?,
            path: Vec::new(alloc),
            waiting: Vec::new(alloc),
            ranked: 0,
            guess: Guess { least: None, ranks },
        })
    }

    /// Finds the number.
    fn enter(&mut self, a: u32) -> Result<(), NoMemory> {
        self.found = self.found.saturating_add(1);
        put(&mut self.places, a, self.found);
        put(&mut self.lows, a, self.found);
        turn(&mut self.hidden, a);
        turn(&mut self.open, a);
        self.path.push(a)?;
        self.waiting.push(a)?;
        Ok(())
    }

    /// The least place of a number without a rank to which `a` is known to lead.
    fn low_of(&self, rows: &Rows, a: u32) -> u32
        requires { IsSquare rows.now }
    {
        let bottom = match self.waiting.first() {
            Some(first) => at(&self.places, *first),
            None => 0,
        };
        let mut low = at(&self.lows, a);
        let mut w = 0;
        for word in &self.open {
            low = least_of(*word & word_of(rows, a, w), w, &self.lows, low, bottom);
            w = w.saturating_add(1);
        }
        low
    }

    /// Gives the number, which is on a circle or not, its rank.
    fn rank(&mut self, b: u32, circled: bool) {
        put(&mut self.guess.ranks, b, self.ranked);
        turn(&mut self.open, b);
        if circled {
            self.guess.least = match self.guess.least {
                Some(least) => Some(least.min(b)),
                None => Some(b),
            };
        }
    }

    /// Gives a rank to the numbers that were found from `a` on and have none.
    fn close(&mut self, a: u32, circled: bool) {
        self.ranked = self.ranked.saturating_add(1);
        for _ in 0..self.waiting.len() {
            let Some(b) = self.waiting.pop() else {
                return;
            };
            self.rank(b, circled || b != a);
            if b == a {
                return;
            }
        }
    }

    /// Goes back from the number, all of whose pairs are searched.
    fn leave(&mut self, rows: &Rows, a: u32)
        requires { IsSquare rows.now }
    {
        let low = self.low_of(rows, a);
        put(&mut self.lows, a, low);
        if low != at(&self.places, a) {
            return;
        }
        let alone = self.waiting.last() == Some(&a);
        let own = a < rows.size && rows.has(a, a);
        self.close(a, own || !alone);
    }

    /// Finds a number, or goes back from one. False where that is done for all.
    fn step(&mut self, rows: &Rows) -> Result<bool, NoMemory>
        requires { IsSquare rows.now }
    {
        let Some(a) = self.path.pop() else {
            let Some(b) = first_of(&self.hidden) else {
                return Ok(false);
            };
            self.enter(b)?;
            return Ok(true);
        };
        let Some(b) = first_in(rows, a, &self.hidden) else {
            self.leave(rows, a);
            return Ok(true);
        };
        self.path.push(a)?;
        self.enter(b)?;
        Ok(true)
    }
}

/// A guess at the least number of the square that a chain leads back to.
pub(crate) fn guess_least(alloc: Global, rows: &Rows) -> Result<Guess, NoMemory>
    requires { IsSquare rows.now }
{
    let mut search = Search::new(alloc, rows.size)?;
    for _ in 0..3 * rows.size as u64 {
        if !search.step(rows)? {
            break;
        }
    }
    Ok(search.guess)
}
