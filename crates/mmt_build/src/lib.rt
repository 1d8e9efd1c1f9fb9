// The min-max tree in the node buffer: the build, and the test whether a buffer is as built.
//
// Both begin with the tests for refusals 1 to 4. A refused build has written nothing.
// Entries of the buffer after the last min-max node are neither read nor written.
#![tactic(auto)]

mod builder;
mod check;
mod plan;
mod rule;

pub use builder::build;
pub use check::as_built;
pub use plan::Plan;
