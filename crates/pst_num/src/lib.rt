//! Arithmetic on values, the whole numbers from -2^63 to 2^63 - 1, as expressions use it.
//!
//! Every operation is exact. Where its result would be no value, where a divisor is 0 and where the
//! count of a shift is outside 0 to 63 it gives `None`. Nothing wraps, and nothing takes memory.
#![tactic(auto)]

mod arithmetic;
mod bits;
mod laws;
mod shifts;

pub use arithmetic::{add, div, mul, neg, rem, sub};
pub use bits::{and, not, or, xor};
pub use laws::{bits_act_apart, bits_determine, division_rounds_towards_zero, shifts_round_down};
pub use shifts::{shl, shr};
