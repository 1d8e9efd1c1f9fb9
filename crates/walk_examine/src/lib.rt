// Examines one min-max node: tests its three entries for range, and decides whether it qualifies for a remainder.
//
// The node buffer may be foreign. The range test comes before any use of an entry, so no sum leaves an i64.
// A node that is out of range is refusal 8.
#![tactic(auto)]

mod node;
mod nodes;
mod place;

pub use node::{Asked, examine};
pub use nodes::Nodes;
pub use place::Place;
