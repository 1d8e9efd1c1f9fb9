// The calls on levels: along the level of an outline node, up to an ancestor, and the first and the last outline node of a level.
//
// A level is any u64. For a level above n the answer is `nothing`, because the excess of two positions of n bits differs by at most n.
#![tactic(auto)]

mod ends;
mod from_node;

pub use ends::{level_leftmost, level_rightmost};
pub use from_node::{level_ancestor, level_next, level_prev};
