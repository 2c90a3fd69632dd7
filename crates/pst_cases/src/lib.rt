//! Tables of cases as texts: a program reads them from its standard input, answers each case, and
//! compares the answer with the one that stands in the table.
//!
//! A line of a table is one of these; a line that begins with a blank goes on with the one above it.
//!
//! - An empty line, or one that begins with `//`, says nothing.
//! - `call NAME` says what is asked of the cases below it, and takes back `frame` and `number`.
//! - `frame TEXT` is the text in which those of the cases below it stand, at each `$`.
//! - `number N` is a number that the call needs.
//! - `ANSWER: TEXT` is a case: what must be answered, and the text that is asked about.
//!
//! In a text `#` stands between files, and `@` before a token whose place belongs to the answer; a
//! label between backquotes stands so before one whose place belongs to it with that label.
//! `[*N PIECE*]` is the piece so many times, in which `?` is the number of times before, and `%` one
//! more. `\n`, `\r` and `\t` are as in Rust, `\xHH` is a byte by two digits of base 16, and any other
//! letter behind `\` stands for itself.
#![tactic(auto)]

mod frames;
mod headings;
mod marks;
mod scores;

pub use frames::{framed, repeated};
pub use headings::{Heading, joined_lines};
pub use marks::{Mark, Marked, read_marked, write_mark};
pub use scores::Score;
