// Stretches of bits: the summary of a stretch, the join of two summaries, the two directions, and the scan that reads bits one by one.
//
// A search passes a stretch without reading its bits if the summary shows that the searched position is not in it. It reads the bits
// of the stretch that has the position. Bytes, blocks and the bits under a min-max node are all stretches. So the byte lookup, the
// block scans and the min-max tree all use this crate.
//
// The functions refuse nothing. Callers keep the bounds that a `requires` states.
#![tactic(auto)]

mod bits;
mod direction;
mod summary;

pub use bits::{Scanned, bits_summary, moved, scan_bits};
pub use direction::{Backward, Direction, Forward};
pub use summary::Summary;
