// Whole listings as one i64: a listing is constructed and stepped to its end, and its answers are written to a slice.
//
// A slice of numbers gets one number per answer, a slice of bytes eight bytes. The result is the number of answers written, or the refusal of
// the constructor. The exported functions are one call each; this crate is separate so that they are checked without these proofs.
#![tactic(auto)]

mod bytes;
mod numbers;

pub use bytes::to_bytes;
pub use numbers::to_numbers;
