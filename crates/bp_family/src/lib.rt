// The calls from an outline node to its relatives: parent, last child and siblings; also the test whether one outline node contains another.
//
// Every call tests refusals 1 to 5 in this order, and the walk may give refusal 8. `nothing` and refusals of a search are propagated
// unchanged.
#![tactic(auto)]

mod ancestor;
mod sibling;

pub use ancestor::{is_ancestor, parent};
pub use sibling::{last_child, next_sibling, previous_sibling};
