//! Mailboxes between one book and up to sixteen lanes.
//!
//! Each lane has one word, which is 0, or the number of an action plus 1.
//! The holder of the book's seat posts an action into a word that is 0.
//! The holder of the lane's seat fetches the action and, when it is done with it, hands it back, by which the word is 0 again.
//! A collect then tells the book that all that it posted to the lane was handed back.
//!
//! Each call is one atomic step on one word, and waits for nobody.
//! A contract says what the step made of the lists that the seats remember: the actions that were posted, fetched, handed back and collected.
//! The seats have no bytes for these lists: they stand in contracts and proofs alone.
#![tactic(auto)]

mod mailbox;
mod rule;
mod seats;
mod view;

pub use mailbox::{MOST_LANES, Post};
pub use seats::{BookSeat, LaneSeat};
pub use view::{Entry, Progress, SeatStatus};
