//! Squares of bits, one for each pair of numbers below their size: how they are filled, spread and
//! closed, and the next pair of a row.
#![tactic(auto)]

mod circle;
mod closure;
mod guess;
mod marks;
mod next;
mod spreading;
mod square;
mod walk;

pub use closure::{Closing, closed_rows};
pub use marks::{mark, no_marks};
pub use next::{next_between, next_in};
pub use spreading::spread;
pub use square::Square;
