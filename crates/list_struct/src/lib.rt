// Lists the children of an outline node one at a time, from the first or from the last.
//
// A listing borrows the words and the node buffer and stores what its next step answers. Its functions are thin; their work is done by the
// crate list_slice, on slices and numbers. This crate has the laws of the steps.
#![tactic(auto)]

mod iter;
mod view;

pub use iter::{children, rev_children, step};
pub use view::{Children, Made, Step};
