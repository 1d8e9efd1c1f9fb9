// Listings of children over slices and numbers: what a listing holds at first and after each step, and a whole listing written to a slice.
//
// The struct of the crate list_struct is built on `seek`. `write` serves callers that keep no listing.
#![tactic(auto)]

mod seek;
mod write;

pub use seek::{after, first, last};
pub use write::list;
