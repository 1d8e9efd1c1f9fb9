// Eight bits at a time: the summary of a byte by a lookup table, and the scan of a byte (SCOPE, The byte lookup).
//
// The promises speak only of the bits of the byte, not of the table.
//
// The functions refuse nothing. Callers keep the bounds that a `requires` states.
#![tactic(auto)]

mod block;
mod encoding;
mod summary;

pub use block::scan_byte;
pub use encoding::{entry, table};
pub use summary::{byte_summary, word_total};
