// A row of parentheses: a borrowed slice of 64-bit words and a bit count n. In a value of the type `Row` the words have n bits: that is
// an invariant of the type.
//
// This crate has the bit reads, the answer types, the refusals with their numbers, and the gates of a row and of a handle.
// A gate is the tests that a call makes before it answers. The definitions that all promises cite are in specs/:
// bit, excess, the two searches, one tree.
//
// A function with a `requires` makes no test of its own, because its callers know what it requires.
#![tactic(auto)]

mod answer;
mod bits;
mod gate;
mod limit;
mod refusal;
mod row;

pub use answer::{Found, Told};
pub use bits::{byte, byte_of, opens_at};
pub use gate::{admit_row, words_for};
pub use limit::{MAX_BITS, MAX_SHORT_BITS};
pub use refusal::Refusal;
pub use row::Row;
