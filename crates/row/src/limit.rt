// The limits on the length of a row.

// A row has at most 2^32 bits.
pub const MAX_BITS: usize = 4294967296;

// A row that the program `levels` reads, or that crosses the C boundary as bytes, has at most 4,096 bits.
pub const MAX_SHORT_BITS: usize = 4096;
