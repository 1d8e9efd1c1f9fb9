// Handles: the tests before every call that takes one, and the calls that need no search.
//
// A handle is the position of the open bit of an outline node. Anything else is refusal 5. The calls `root`, `first_child` and `is_leaf`
// read only the row and take no node buffer. So they test only refusals 2 and 3, and refusal 5 if they take a handle.
#![tactic(auto)]

mod bare;
mod gate;

pub use bare::{first_child, handle_after, is_leaf, root};
pub use gate::{admit_handle, admit_node, row_for_handle, row_for_node};
