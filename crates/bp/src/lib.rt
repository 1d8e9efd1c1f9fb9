// Re-exports every call on the outline under one name. The crate has no function of its own.
//
// Each call tests its arguments and refuses bad ones by a number. A call that searches then answers what the walk finds; over a node buffer
// as built this is the definition of SCOPE, The calls. No call writes to the words or to the node buffer.
//
// A call takes the words, n, the node buffer and the block size as they come from C, and tests them itself. So a struct of the four would
// say nothing about them. What has passed the tests is an `Admitted` of mmt_layout, which the inner functions take.
#![tactic(auto)]

pub use bp_family::{is_ancestor, last_child, next_sibling, parent, previous_sibling};
pub use bp_handle::{admit_node, first_child, is_leaf, root};
pub use bp_level::{level_ancestor, level_leftmost, level_next, level_prev, level_rightmost};
pub use bp_search::{bwd_search, close, enclose, fwd_search, open};
